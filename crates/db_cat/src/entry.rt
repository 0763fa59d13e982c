// One entry of the catalog: 40 bytes.
ghost use Rattle.std.specs.Prelude.{◌≡◌, ◌==◌, ◌<◌, ◌+◌, length, not, slice_range};
ghost use Rattle.std.specs.List.{list_all};
ghost use Rattle.spec_file.specs.Catalog as spec;

use pg_base::{MAPS_START, Page, u32_at};
use spec_file::ENTRY_COUNT;

/// The bytes of entry i.
#[tactic(auto, unfolding(spec_file::specs::Catalog::entry_at))]
pub(crate) fn entry_at(page: &Page, i: usize) -> &[u8]
    requires { i < ENTRY_COUNT }
    ensures entry { result.now ≡ spec.entry_at page.now.bytes i }
    ensures size { length result.now ≡ 40 }
{
    &page.bytes[MAPS_START + 40 * i..MAPS_START + 40 * i + 40]
}

pub(crate) fn is_zeros(bytes: &[u8]) -> bool
    ensures { result ≡ spec.is_zeros bytes.now }
{
    bytes.iter().all(|b| *b == 0)
}

/// The name that the entry gives its object.
pub(crate) fn name_of(entry: &[u8]) -> &[u8]
    requires { length entry.now ≡ 40 }
    ensures { result.now ≡ spec.entry_name entry.now }
{
    let end = 6 + entry[5] as usize;
    if end <= 40 {
        &entry[6..end]
    } else {
        &entry[6..40]
    }
}

/// Whether an entry that isn't empty has an id, a kind and a name, and zeros where nothing is.
pub(crate) fn is_row(entry: &[u8]) -> bool
    requires { length entry.now ≡ 40 }
    ensures { result ≡ spec.is_row entry.now }
{
    has_id(entry) && has_kind(entry) && has_name(entry) && is_zeros(&entry[32..40])
}

fn has_id(entry: &[u8]) -> bool
    requires { length entry.now ≡ 40 }
    ensures { result ≡ not (spec.entry_id entry.now == 0) }
{
    u32_at(entry, 0) != 0
}

fn has_name(entry: &[u8]) -> bool
    requires { length entry.now ≡ 40 }
    ensures { result ≡ spec.has_name entry.now }
{
    entry[5] <= 16 && is_name(name_of(entry)) && is_padded(entry)
}

// The name is followed by zeros.
fn is_padded(entry: &[u8]) -> bool
    requires { length entry.now ≡ 40 }
    ensures { result ≡ spec.is_zeros (slice_range entry.now (6 + spec.name_length entry.now) 24) }
{
    let end = 6 + entry[5] as usize;
    end >= 24 || is_zeros(&entry[end..24])
}

fn has_kind(entry: &[u8]) -> bool
    requires { length entry.now ≡ 40 }
    ensures { result ≡ spec.has_kind entry.now }
{
    match entry[4] {
        1 => u32_at(entry, 28) == 0,
        kind => kind == 2,
    }
}

fn is_name(name: &[u8]) -> bool
    ensures { result ≡ spec.is_name name.now }
{
    match name {
        [] => false,
        [first, rest @ ..] => is_letter(*first) && are_name_bytes(rest) && rest.len() <= 15,
    }
}

fn is_letter(b: u8) -> bool
    ensures { result ≡ spec.is_letter b }
{
    matches!(b, b'a'..=b'z')
}

fn are_name_bytes(bytes: &[u8]) -> bool
    ensures { result ≡ list_all spec.is_name_byte bytes.now }
{
    bytes.iter().all(|b| is_name_byte(*b))
}

fn is_name_byte(b: u8) -> bool
    ensures { result ≡ spec.is_name_byte b }
{
    matches!(b, b'a'..=b'z' | b'0'..=b'9' | b'_')
}
