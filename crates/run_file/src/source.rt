// One source, read to its end.
ghost use Rattle.std.specs.Prelude.{◌≡◌, ◌<◌, ◌≤◌, length, IfOk, IsErrOf, OnOk, MatchBool};
ghost use Rattle.std.specs.Io.KnownBytes.{prepend_known, IsAtEnd};
ghost use Rattle.pg_base.specs.Faults.{Counts};
ghost use Rattle.run_file.specs.Sources.{Moves};

use crate::stop::SourceStop;
use spec_script::LONGEST_TEXT;
use std::alloc::Global;
use vol_dev::Source;

/// How many bytes are read at a time.
const PIECE: usize = 4096;

/// Moves a piece of the source to the end of the bytes, and says whether there may be more.
fn read_piece<S: Source>(source: &mut S, bytes: &mut Vec<u8>) -> Result<bool, SourceStop>
    requires { length bytes.old.items ≤ LONGEST_TEXT }
    ensures moved { OnOk result (Moves bytes.old.items bytes.new.items (S.left source.old) (S.left source.new)) }
    ensures more { IfOk result (λ more. MatchBool more (length bytes.old.items < length bytes.new.items) (IsAtEnd (S.left source.new))) }
    ensures faults { Counts (IsErrOf result SourceStop.Failed) (S.faults source.old) (S.faults source.new) }
{
    let mut piece = [0; PIECE];
    let room = (LONGEST_TEXT + 1 - bytes.len()).min(PIECE);
    let count = source.read(&mut piece[..room])?;
    bytes.extend_from_slice(&piece[..count])?;
    Ok(count != 0)
}

/// The bytes of a source up to its end, or more of them than a text may have.
pub fn read_source<S: Source>(alloc: Global, source: &mut S) -> Result<Vec<u8>, SourceStop>
    ensures read { IfOk result (λ bytes. S.left source.old ≡ prepend_known bytes.items (S.left source.new)) }
    ensures whole { IfOk result (λ bytes. length bytes.items ≤ LONGEST_TEXT → IsAtEnd (S.left source.new)) }
    ensures faults { Counts (IsErrOf result SourceStop.Failed) (S.faults source.old) (S.faults source.new) }
{
    let mut bytes = Vec::new(alloc);
    for round in 0..LONGEST_TEXT + 1 {
        if bytes.len() > LONGEST_TEXT {
            return Ok(bytes);
        }
        if !read_piece(source, &mut bytes)? {
            return Ok(bytes);
        }
    }
    Ok(bytes)
}
