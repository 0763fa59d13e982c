ghost use Rattle.std.specs.Prelude.{◌≡◌, ◌≢◌, ◌+◌, ◌≤◌, length, IfSome, IfNone};
ghost use Rattle.spec_file.specs.Image.{number_at};
ghost use Rattle.spec_rows.specs.Rows as spec;
ghost use Rattle.pg_row.specs.Meaning.{meaning, meaning_of};

use crate::Row;
use byteorder::{ByteOrder, LittleEndian};
use pg_base::{PageNo, u16_at, u32_at};
use spec_file::ROW_LIMIT;
use spec_rows::{DATA_HEAD, DATA_STATUS, INDEX_LENGTH, INDEX_STATUS};

/// The row that the bytes are; none exactly where they aren't one whole row.
pub fn read_row(bytes: &[u8]) -> Option<Row<'_>>
    ensures row { meaning_of result ≡ spec.row_of bytes.now }
    ensures spelled { IfSome result (λ row. spec.row_bytes (meaning row) ≡ bytes.now) }
    ensures none { IfNone result ((row : spec.PageRow) → spec.Fits row → spec.row_bytes row ≢ bytes.now) }
{
    if is_data_row(bytes) {
        Some(Row::Leaf {
            key: u64_at(bytes, 3),
            payload: &bytes[DATA_HEAD as usize..],
        })
    } else if is_index_row(bytes) {
        Some(Row::Index {
            key: u64_at(bytes, 1),
            child: PageNo(u32_at(bytes, 9)),
        })
    } else {
        None
    }
}

// The bytes are one whole data row.
fn is_data_row(bytes: &[u8]) -> bool
    ensures { result ≡ spec.is_data_row bytes.now }
{
    bytes.len() >= DATA_HEAD as usize
        && bytes.len() <= ROW_LIMIT
        && bytes[0] == DATA_STATUS
        && u16_at(bytes, 1) as usize == bytes.len()
}

// The bytes are one whole index row.
fn is_index_row(bytes: &[u8]) -> bool
    ensures { result ≡ spec.is_index_row bytes.now }
{
    bytes.len() == INDEX_LENGTH as usize && bytes[0] == INDEX_STATUS
}

// The number of the eight bytes from `at`, the lowest first.
#[tactic(auto, unfolding(spec_file::specs::Image::number_at))]
fn u64_at(bytes: &[u8], at: usize) -> u64
    requires { at + 8 ≤ length bytes.now }
    ensures { result ≡ number_at 8 at bytes.now }
{
    LittleEndian::read_u64(&bytes[at..])
}
