// The fixed fields of an item, in front of its lists.
ghost use Rattle.std.specs.Prelude.{◌≡◌, ◌≤◌, ◌+◌, ◌∷◌, [], ◌++◌, length};
ghost use Rattle.arrayvec.specs.ArrayVec.{array_vec_len};
ghost use Rattle.byteorder.specs.Endian.{little_bytes};

use arrayvec::ArrayVec;
use byteorder::{ByteOrder, LittleEndian};

const HEAD: usize = 40;

/// The bytes before the lists of an item. The longest are the 33 of a Start.
pub(crate) type Head = ArrayVec<u8, HEAD>;

/// A head that has its kind alone.
pub(crate) fn head_of(kind: u8) -> Head
    ensures bytes { result.items ≡ kind ∷ [] }
    ensures len { array_vec_len result ≡ 1 }
{
    let mut head = Head::new();
    head.push(kind);
    head
}

fn push_bytes(head: &mut Head, bytes: &[u8])
    requires { array_vec_len head.old + length bytes.now ≤ HEAD }
    ensures bytes { head.new.items ≡ head.old.items ++ bytes.now }
    ensures len { array_vec_len head.new ≡ array_vec_len head.old + length bytes.now }
{
    match head.try_extend_from_slice(bytes) {
        Ok(()) => {}
        Err(_) => unreachable!(),
    }
}

/// One byte more.
pub(crate) fn push_u8(head: &mut Head, n: u8)
    requires { array_vec_len head.old + 1 ≤ HEAD }
    ensures bytes { head.new.items ≡ head.old.items ++ n ∷ [] }
    ensures len { array_vec_len head.new ≡ array_vec_len head.old + 1 }
{
    head.push(n);
}

/// Two bytes more, the lowest first.
pub(crate) fn push_u16(head: &mut Head, n: u16)
    requires { array_vec_len head.old + 2 ≤ HEAD }
    ensures bytes { head.new.items ≡ head.old.items ++ little_bytes 2 n }
    ensures len { array_vec_len head.new ≡ array_vec_len head.old + 2 }
{
    let mut bytes = [0; 2];
    LittleEndian::write_u16(&mut bytes, n);
    push_bytes(head, &bytes);
}

/// Four bytes more, the lowest first.
pub(crate) fn push_u32(head: &mut Head, n: u32)
    requires { array_vec_len head.old + 4 ≤ HEAD }
    ensures bytes { head.new.items ≡ head.old.items ++ little_bytes 4 n }
    ensures len { array_vec_len head.new ≡ array_vec_len head.old + 4 }
{
    let mut bytes = [0; 4];
    LittleEndian::write_u32(&mut bytes, n);
    push_bytes(head, &bytes);
}

/// Eight bytes more, the lowest first.
pub(crate) fn push_u64(head: &mut Head, n: u64)
    requires { array_vec_len head.old + 8 ≤ HEAD }
    ensures bytes { head.new.items ≡ head.old.items ++ little_bytes 8 n }
    ensures len { array_vec_len head.new ≡ array_vec_len head.old + 8 }
{
    let mut bytes = [0; 8];
    LittleEndian::write_u64(&mut bytes, n);
    push_bytes(head, &bytes);
}
