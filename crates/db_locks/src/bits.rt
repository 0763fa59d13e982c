//! The GAM and SGAM bits of extents, written as the words of plans say.
ghost use Rattle.std.specs.Prelude.{◌≡◌, ◌<◌, ◌/◌, ◌∷◌, ◌≤◌, ℕ, List, IsTrue, Contains, Some, []};
ghost use Rattle.spec_file.specs.declared.data.Resource.TheVariants as resource;
ghost use Rattle.spec_file.specs.declared.sizes.TheConstants.{BIT_COUNT};
ghost use Rattle.spec_file.specs.Places.{gam_place, sgam_place};
ghost use Rattle.spec_log.specs.declared.item.Cell.TheVariants.{Bit};
ghost use Rattle.spec_log.specs.Cells.{with_bit as bit_put};
ghost use Rattle.spec_log.specs.Cover.{bit_guard};
ghost use Rattle.spec_words.specs.Words.{write, put_gam, put_sgam};
ghost use Rattle.db_locks.specs.Does.{DoesAfter};

use crate::{PageStop, PlanPages};
use pg_base::{ExtentNo, Geometry, MAPS_START, Page, PageNo, Resource, is_whole};
use pg_geom::{gam_of, sgam_of};

/// The byte with bit i turned to a value, a 0 or a 1.
fn with_bit(byte: u8, i: u32, value: u8) -> u8
    requires { i < 8 }
    ensures { result ≡ bit_put byte i value }
{
    if (byte >> i) & 1 == value {
        byte
    } else {
        byte ^ (1u8 << i)
    }
}

// Takes an extent and writes one bit that it guards, of a page that the statement has reached.
fn set_bit<P: PlanPages>(
    view: &mut P,
    place: (PageNo, u32),
    e: ExtentNo,
    value: u8,
    buffer: &mut Page,
) -> Result<(), PageStop>
    requires inside { place.0.0 < (P.state view.old).view.shape.pages }
    requires at { place.1 < BIT_COUNT }
    requires guard { bit_guard (P.state view.old).view.shape.geometry (P.state view.old).view.shape.pages place.0.0 place.1 ≡ Some (resource.Extent e) }
    ensures { (looked : List ℕ) → (IsTrue (P.state view.old).told → Contains looked place.0.0) → DoesAfter looked (P.state view.old) (P.state view.new) (write (resource.Extent e) (Bit place.0 place.1) (value ∷ [])) result }
{
    let (page, at) = place;
    view.look(page, Resource::Extent(e), buffer)?;
    is_whole(buffer);
    view.take(Resource::Extent(e))?;
    let byte = MAPS_START + at as usize / 8;
    buffer.bytes[byte] = with_bit(buffer.bytes[byte], at % 8, value);
    view.put(page, buffer)
}

/// Takes an extent and writes its GAM bit. The GAM page, which the statement has reached, is read into
/// `buffer` once more, and put.
pub fn set_gam_bit<P: PlanPages>(
    view: &mut P,
    geometry: Geometry,
    e: ExtentNo,
    value: u8,
    buffer: &mut Page,
) -> Result<(), PageStop>
    requires geometry { geometry ≡ (P.state view.old).view.shape.geometry }
    requires inside { e.0 < (P.state view.old).view.shape.pages / 8 }
    ensures { (looked : List ℕ) → (IsTrue (P.state view.old).told → Contains looked (gam_place (P.state view.old).view.shape.geometry e.0).page) → DoesAfter looked (P.state view.old) (P.state view.new) (put_gam (P.state view.old).view.shape e.0 value) result }
{
    set_bit(view, gam_of(geometry, e), e, value, buffer)
}

/// Takes an extent and writes its SGAM bit, as `set_gam_bit` does its GAM bit.
pub fn set_sgam_bit<P: PlanPages>(
    view: &mut P,
    geometry: Geometry,
    e: ExtentNo,
    value: u8,
    buffer: &mut Page,
) -> Result<(), PageStop>
    requires geometry { geometry ≡ (P.state view.old).view.shape.geometry }
    requires inside { e.0 < (P.state view.old).view.shape.pages / 8 }
    ensures { (looked : List ℕ) → (IsTrue (P.state view.old).told → Contains looked (sgam_place (P.state view.old).view.shape.geometry e.0).page) → DoesAfter looked (P.state view.old) (P.state view.new) (put_sgam (P.state view.old).view.shape e.0 value) result }
{
    set_bit(view, sgam_of(geometry, e), e, value, buffer)
}
