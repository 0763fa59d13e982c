// One line of output, which has its own place in memory.
ghost use Rattle.std.specs.Prelude.{◌≡◌, ◌≤◌, ◌+◌, ◌++◌, length, decimal, is_err};
ghost use Rattle.arrayvec.specs.ArrayString.{array_string_len};
ghost use Rattle.vol_dev.specs.Output.{Wrote};

use arrayvec::ArrayString;
use itoa::Buffer;
use vol_dev::{DeviceFailed, Sink};

/// The most bytes of a line.
pub(crate) const LINE: usize = 320;

pub(crate) type Line = ArrayString<LINE>;

/// A number, in decimal.
pub(crate) fn push_number(line: &mut Line, n: u64)
    requires { array_string_len line.old + 20 ≤ LINE }
    ensures bytes { line.new.bytes ≡ line.old.bytes ++ decimal n }
    ensures len { array_string_len line.new ≤ array_string_len line.old + 20 }
{
    let mut buffer = Buffer::new();
    line.push_str(buffer.format(n));
}

/// A number behind a name.
pub(crate) fn push_field(line: &mut Line, name: &str, n: u64)
    requires { array_string_len line.old + length name.now + 20 ≤ LINE }
    ensures bytes { line.new.bytes ≡ line.old.bytes ++ name.now ++ decimal n }
    ensures len { array_string_len line.new ≤ array_string_len line.old + length name.now + 20 }
{
    line.push_str(name);
    push_number(line, n);
}

/// Writes bytes to the output.
pub(crate) fn write_bytes<K: Sink>(bytes: &[u8], out: &mut K) -> Result<(), DeviceFailed>
    ensures { Wrote K.Sink out.old out.new bytes.now (is_err result) }
{
    out.write(bytes)
}

/// Writes a line to the output.
pub(crate) fn write_line<K: Sink>(line: &Line, out: &mut K) -> Result<(), DeviceFailed>
    ensures { Wrote K.Sink out.old out.new line.now.bytes (is_err result) }
{
    out.write(line.as_str().as_bytes())
}
