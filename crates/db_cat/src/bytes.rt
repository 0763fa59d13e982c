// The bytes of an entry.
ghost use Rattle.std.specs.Prelude.{◌≡◌, ◌<◌, ◌≤◌, ◌^◌, ◌+◌, ◌-◌, ◌∷◌, [], ◌++◌, length, replicate, string_bytes};
ghost use Rattle.arrayvec.specs.ArrayVec.{array_vec_len};
ghost use Rattle.byteorder.specs.Endian.{little_bytes};
ghost use Rattle.spec_file.specs.CatalogBytes as spec;
ghost use Rattle.spec_file.specs.CatalogRows.{row_of_entry};
ghost use Rattle.db_cat.specs.Rows.{row_of};

use crate::CatRow;
use arrayvec::ArrayVec;
use byteorder::{ByteOrder, LittleEndian};
use pg_base::{Kind, ObjId};

/// How many bytes an entry has.
pub(crate) const ENTRY_SIZE: usize = 40;

/// The bytes of an entry, from its first on.
pub(crate) type Entry = ArrayVec<u8, ENTRY_SIZE>;

fn kind_byte(kind: Kind) -> u8
    ensures { result ≡ spec.kind_byte kind }
{
    match kind {
        Kind::Heap => 1,
        Kind::Clustered => 2,
    }
}

fn push_bytes(entry: &mut Entry, bytes: &[u8])
    requires { array_vec_len entry.old + length bytes.now ≤ ENTRY_SIZE }
    ensures bytes { entry.new.items ≡ entry.old.items ++ bytes.now }
    ensures len { array_vec_len entry.new ≡ array_vec_len entry.old + length bytes.now }
{
    match entry.try_extend_from_slice(bytes) {
        Ok(()) => {}
        Err(_) => unreachable!(),
    }
}

// Four bytes more, the lowest first.
fn push_u32(entry: &mut Entry, n: u32)
    requires { array_vec_len entry.old + 4 ≤ ENTRY_SIZE }
    ensures fits { n < 256 ^ 4 }
    ensures bytes { entry.new.items ≡ entry.old.items ++ little_bytes 4 n }
    ensures len { array_vec_len entry.new ≡ array_vec_len entry.old + 4 }
{
    let mut bytes = [0; 4];
    LittleEndian::write_u32(&mut bytes, n);
    push_bytes(entry, &bytes);
}

fn push_zeros(entry: &mut Entry, n: usize)
    requires { array_vec_len entry.old + n ≤ ENTRY_SIZE }
    ensures bytes { entry.new.items ≡ entry.old.items ++ replicate n 0 }
    ensures len { array_vec_len entry.new ≡ array_vec_len entry.old + n }
{
    let zeros = [0; ENTRY_SIZE];
    push_bytes(entry, &zeros[..n]);
}

// The id, the kind, and the length of the name.
fn head_of(id: ObjId, kind: Kind, name: usize) -> Entry
    requires { name ≤ 18 }
    ensures fits { id.0 < 256 ^ 4 }
    ensures bytes { result.items ≡ little_bytes 4 id.0 ++ (spec.kind_byte kind ∷ name ∷ []) }
    ensures len { array_vec_len result ≡ 6 }
{
    let mut entry = Entry::new();
    push_u32(&mut entry, id.0);
    push_bytes(&mut entry, &[kind_byte(kind), name as u8]);
    entry
}

// The name, and zeros behind it.
fn push_name(entry: &mut Entry, name: &str)
    requires length { length name.now ≤ 18 }
    requires room { array_vec_len entry.old + 18 ≤ ENTRY_SIZE }
    ensures bytes { entry.new.items ≡ entry.old.items ++ (name.now ++ replicate (18 - length name.now) 0) }
    ensures len { array_vec_len entry.new ≡ array_vec_len entry.old + 18 }
{
    push_bytes(entry, name.as_bytes());
    push_zeros(entry, 18 - name.len());
}

/// The entry of an object.
pub(crate) fn bytes_of(row: &CatRow) -> Entry
    requires { length (string_bytes row.now.name) ≤ 18 }
    ensures bytes { result.items ≡ spec.entry_bytes (row_of row.now) }
    ensures size { length result.items ≡ ENTRY_SIZE }
    ensures row { row_of_entry result.items ≡ row_of row.now }
{
    let name = row.name.as_str();
    let mut entry = head_of(row.id, row.kind, name.len());
    push_name(&mut entry, name);
    push_u32(&mut entry, row.first_iam.0);
    push_u32(&mut entry, row.root.0);
    push_zeros(&mut entry, 8);
    entry
}
