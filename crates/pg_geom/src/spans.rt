ghost use Rattle.std.specs.Prelude.{◌≡◌, ◌*◌};
ghost use Rattle.spec_file.specs.Places as spec;

use pg_base::Geometry;
use spec_file::BIT_COUNT;

/// The most pages that a file of this geometry has.
pub fn page_limit(g: Geometry) -> u32
    ensures { result ≡ spec.page_limit g }
{
    match g {
        Geometry::Standard => 524_288,
        Geometry::Small => 4096,
    }
}

/// How many extents one GAM page and one SGAM page speak of.
pub fn interval_size(g: Geometry) -> u32
    ensures { result ≡ spec.interval_size g }
{
    match g {
        Geometry::Standard => BIT_COUNT,
        Geometry::Small => 64,
    }
}

/// How many pages an interval has.
pub fn interval_pages(g: Geometry) -> u32
    ensures { result ≡ 8 * spec.interval_size g }
{
    match g {
        Geometry::Standard => 511_232,
        Geometry::Small => 512,
    }
}

/// How many pages one PFS page speaks of.
pub fn pfs_span(g: Geometry) -> u32
    ensures { result ≡ spec.pfs_span g }
{
    match g {
        Geometry::Standard => 8088,
        Geometry::Small => 88,
    }
}
