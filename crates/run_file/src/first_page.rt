// The tests of a file by its size and its first page.
ghost use Rattle.std.specs.Prelude.{◌≡◌, ◌==◌, ◌≤◌, Some, None, bytes_eq, codes, slice_range, IfOk, MatchResult};
ghost use Rattle.spec_file.specs.Places.{page_limit as limit_of};
ghost use Rattle.spec_file.specs.FileForm as form;
ghost use Rattle.spec_start.specs.Files as spec;

use pg_base::{FILE_HEADER_TYPE, Geometry, Page, PageNo, is_page_of, u16_at, u32_at};
use pg_geom::page_limit;
use spec_file::{EXTENT_SIZE, LARGEST_FILE, SMALLEST_FILE};
use spec_start::FileWhy;

const MAGIC: [u8; 8] = *b"PGCHKDB1";

/// Whether a file may have so many bytes.
pub fn passes_size(bytes: u64) -> bool
    ensures { result ≡ form.size_passes bytes }
{
    bytes % EXTENT_SIZE == 0 && bytes >= SMALLEST_FILE && bytes <= LARGEST_FILE
}

fn has_magic(first: &Page) -> bool
    ensures { result ≡ bytes_eq (slice_range first.now.bytes 96 104) (codes "PGCHKDB1") }
{
    &first.bytes[96..104] == MAGIC.as_slice()
}

fn passes_header(first: &Page) -> bool
    ensures { result ≡ form.header_passes first.now.bytes }
{
    first.bytes[0] == 1 && is_page_of(first, FILE_HEADER_TYPE, PageNo(0)) && has_magic(first)
}

fn passes_version(first: &Page) -> bool
    ensures { result ≡ form.version_passes first.now.bytes }
{
    u16_at(&first.bytes, 104) == 1
}

fn geometry_of(first: &Page) -> Option<Geometry>
    ensures { result ≡ form.geometry_of first.now.bytes }
{
    Geometry::of_byte(first.bytes[106])
}

fn passes_count(g: Geometry, pages: u32, first: &Page) -> bool
    ensures { result ≡ form.count_passes g pages first.now.bytes }
{
    u32_at(&first.bytes, 108) == pages && pages <= page_limit(g)
}

/// The geometry of a file whose page 0 passes its tests, or the first test that fails.
pub fn tested_geometry(first: &Page, pages: u32) -> Result<Geometry, FileWhy>
    ensures fault { MatchResult result
        (λ g. (spec.opening_fault pages first.now.bytes ≡ None) × (form.geometry_of first.now.bytes ≡ Some g))
        (λ why. spec.opening_fault pages first.now.bytes ≡ Some why) }
    ensures limit { IfOk result (λ g. pages ≤ limit_of g) }
{
    if !passes_header(first) {
        return Err(FileWhy::Header);
    }
    if !passes_version(first) {
        return Err(FileWhy::Version);
    }
    let Some(g) = geometry_of(first) else {
        return Err(FileWhy::Geometry);
    };
    if !passes_count(g, pages, first) {
        return Err(FileWhy::Count);
    }
    Ok(g)
}
