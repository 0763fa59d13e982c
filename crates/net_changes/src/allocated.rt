// Pages that become allocated.
ghost use Rattle.std.specs.Prelude.{◌≡◌, ◌&&◌, ◌<◌, ◌/◌, not, slice_index, IsTrue};
ghost use Rattle.spec_file.specs.declared.sizes.TheConstants.{BIT_COUNT};
ghost use Rattle.spec_file.specs.Image.{bit};
ghost use Rattle.spec_file.specs.Pfs.{is_allocated_byte};
ghost use Rattle.spec_words.specs.NetChanges as spec;
ghost use Rattle.net_changes.specs.Shown.{byte_rises, bit_falls};

use crate::bits::map_bit;
use crate::pair::Pair;
use crate::put::read_put;
use db_locks::PlanPages;
use pg_base::{ExtentNo, Geometry, PAGE_SIZE, PageNo};
use pg_geom::{gam_of, pfs_of};
use pg_pfs::is_allocated;

// The PFS byte of a page tells that it is allocated, and didn't before.
fn is_marked(pair: &Pair, at: u32) -> bool
    requires { at < PAGE_SIZE }
    ensures { result ≡ (not (is_allocated_byte (slice_index pair.now.before.bytes at)) && is_allocated_byte (slice_index pair.now.after.bytes at)) }
{
    !is_allocated(pair.before.bytes[at as usize]) && is_allocated(pair.after.bytes[at as usize])
}

// A bit was 1, and is no longer.
fn is_cleared(pair: &Pair, n: u32) -> bool
    requires { n < BIT_COUNT }
    ensures { result ≡ (bit pair.now.before.bytes n && not (bit pair.now.after.bytes n)) }
{
    map_bit(&pair.before, n) == 1 && map_bit(&pair.after, n) != 1
}

// Page p becomes allocated by its PFS bit.
fn rises<P: PlanPages>(v: &P, geometry: Geometry, p: PageNo, maps: &mut Pair) -> bool
    requires geometry { geometry ≡ (P.state v.now).view.shape.geometry }
    requires inside { p.0 < (P.state v.now).view.shape.pages }
    ensures { IsTrue (P.state v.now).told → result ≡ byte_rises (P.state v.now) p.0 }
{
    let (page, at) = pfs_of(geometry, p);
    read_put(v, page, maps) && is_marked(maps, at)
}

// An extent is no longer free.
fn falls<P: PlanPages>(v: &P, geometry: Geometry, e: ExtentNo, maps: &mut Pair) -> bool
    requires geometry { geometry ≡ (P.state v.now).view.shape.geometry }
    requires inside { e.0 < (P.state v.now).view.shape.pages / 8 }
    ensures { IsTrue (P.state v.now).told → result ≡ bit_falls (P.state v.now) e.0 }
{
    let (page, n) = gam_of(geometry, e);
    read_put(v, page, maps) && is_cleared(maps, n)
}

/// Page p becomes allocated: by its PFS bit, or as the first page of an extent that is no longer free.
pub(crate) fn becomes_allocated<P: PlanPages>(
    v: &P,
    geometry: Geometry,
    p: PageNo,
    maps: &mut Pair,
) -> bool
    requires geometry { geometry ≡ (P.state v.now).view.shape.geometry }
    requires inside { p.0 < (P.state v.now).view.shape.pages }
    ensures { IsTrue (P.state v.now).told → result ≡ spec.becomes_allocated geometry (P.state v.now).first (P.state v.now).shown p.0 }
{
    if rises(v, geometry, p, maps) {
        return true;
    }
    p.0 % 8 == 0 && falls(v, geometry, ExtentNo(p.0 / 8), maps)
}
