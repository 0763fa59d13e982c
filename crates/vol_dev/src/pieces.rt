// Bytes that are moved from one piece to the front of another.
ghost use Rattle.std.specs.Prelude.{◌≡◌, min, length, take, drop};

/// Copies as many bytes as there are, or as have room, and says how many.
pub fn copy_front(from: &[u8], into: &mut [u8]) -> usize
    ensures count { result ≡ min (length from.now) (length into.old) }
    ensures front { take result into.new ≡ take result from.now }
    ensures rest { drop result into.new ≡ drop result into.old }
{
    let count = from.len().min(into.len());
    into[..count].copy_from_slice(&from[..count]);
    count
}
