// Bits of bytes.
ghost use Rattle.std.specs.Prelude.{◌≡◌, ◌<◌};
ghost use Rattle.spec_log.specs.Cells.{with_bit};

/// The byte with bit i turned to v.
pub fn byte_with_bit(byte: u8, i: u32, v: u8) -> u8
    requires { i < 8 }
    ensures { result ≡ with_bit byte i v }
{
    if (byte >> i) & 1 == v {
        byte
    } else {
        byte ^ (1 << i)
    }
}
