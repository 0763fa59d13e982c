ghost use Rattle.std.specs.Prelude.{◌≡◌, ◌+◌, ◌≤◌, Some, length, take, drop};
ghost use Rattle.spec_rows.specs.Rows as spec;
ghost use Rattle.pg_row.specs.Meaning.{meaning, IsShort, PutsBytes};

use crate::Row;
use spec_file::{PAYLOAD_LIMIT, ROW_LIMIT};
use spec_rows::{DATA_HEAD, DATA_STATUS, INDEX_LENGTH, INDEX_STATUS};

/// Writes a row, and answers its length. The payload has at most 1,013 bytes; the bytes behind the row
/// stay.
pub fn write_row(row: &Row<'_>, into: &mut [u8; ROW_LIMIT]) -> u16
    requires { IsShort row.now }
    ensures bytes { take result into.new ≡ spec.row_bytes (meaning row.now) }
    ensures length { result ≡ length (spec.row_bytes (meaning row.now)) }
    ensures behind { drop result into.new ≡ drop result into.old }
    ensures read { spec.row_of (take result into.new) ≡ Some (meaning row.now) }
{
    match *row {
        Row::Leaf { key, payload } => write_leaf(key, payload, into),
        Row::Index { key, child } => write_index(key, child.0, into),
    }
}

fn write_leaf(key: u64, payload: &[u8], into: &mut [u8; ROW_LIMIT]) -> u16
    requires { length payload.now ≤ PAYLOAD_LIMIT }
    ensures bytes { take result into.new ≡ spec.row_bytes (spec.DataRow key payload.now) }
    ensures length { result ≡ DATA_HEAD + length payload.now }
    ensures behind { drop result into.new ≡ drop result into.old }
    ensures read { spec.row_of (take result into.new) ≡ Some (spec.DataRow key payload.now) }
{
    let size = DATA_HEAD + payload.len() as u16;
    put(into, 0, &[DATA_STATUS]);
    put(into, 1, &size.to_le_bytes());
    put(into, 3, &key.to_le_bytes());
    put(into, DATA_HEAD as usize, payload);
    size
}

fn write_index(key: u64, child: u32, into: &mut [u8; ROW_LIMIT]) -> u16
    ensures bytes { take result into.new ≡ spec.row_bytes (spec.IndexRow key child) }
    ensures length { result ≡ INDEX_LENGTH }
    ensures behind { drop result into.new ≡ drop result into.old }
    ensures read { spec.row_of (take result into.new) ≡ Some (spec.IndexRow key child) }
{
    put(into, 0, &[INDEX_STATUS]);
    put(into, 1, &key.to_le_bytes());
    put(into, 9, &child.to_le_bytes());
    INDEX_LENGTH
}

// Puts bytes at a place.
fn put(into: &mut [u8; ROW_LIMIT], at: usize, bytes: &[u8])
    requires { at + length bytes.now ≤ ROW_LIMIT }
    ensures { PutsBytes at bytes.now into.old into.new }
{
    into[at..at + bytes.len()].copy_from_slice(bytes);
}
