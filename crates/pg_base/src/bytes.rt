// Bytes at the end of others, as the items of a log or the lines of a script.
ghost use Rattle.std.specs.Prelude.{◌≡◌, ◌++◌, length, take, OnOk, OnErr};

use crate::NoMemory;

/// Puts all these bytes at the end. Where memory runs out nothing changes.
pub fn append(into: &mut Vec<u8>, bytes: &[u8]) -> Result<(), NoMemory>
    ensures ok { OnOk result (into.new.items ≡ into.old.items ++ bytes.now) }
    ensures err { OnErr result (into.new.items ≡ into.old.items) }
{
    into.extend_from_slice(bytes)?;
    Ok(())
}

// Two parts, of which the first may stand there after an error.
fn append_both(into: &mut Vec<u8>, first: &[u8], second: &[u8]) -> Result<(), NoMemory>
    ensures ok { OnOk result (into.new.items ≡ into.old.items ++ (first.now ++ second.now)) }
    ensures err { OnErr result (take (length into.old.items) into.new.items ≡ into.old.items) }
{
    append(into, first)?;
    append(into, second)
}

/// Puts three parts at the end, one after another. Where memory runs out nothing changes.
pub fn append_three(
    into: &mut Vec<u8>,
    first: &[u8],
    second: &[u8],
    third: &[u8],
) -> Result<(), NoMemory>
    ensures ok { OnOk result (into.new.items ≡ into.old.items ++ (first.now ++ (second.now ++ third.now))) }
    ensures err { OnErr result (into.new.items ≡ into.old.items) }
{
    let before = into.len();
    append(into, first)?;
    match append_both(into, second, third) {
        Ok(()) => Ok(()),
        Err(stop) => {
            into.truncate(before);
            Err(stop)
        }
    }
}
