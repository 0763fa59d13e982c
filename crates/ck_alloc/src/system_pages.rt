// The system places of a file, each read once into one page.
ghost use Rattle.std.specs.Prelude.{◌≡◌, ◌≢◌, ◌/◌, ◌<◌, IfOk};
ghost use Rattle.pg_base.specs.Stops.{stop_of};
ghost use Rattle.pg_base.specs.Reading.{OnlyReads};
ghost use Rattle.spec_file.specs.Places.{HasShape};
ghost use Rattle.ck_alloc.specs.SystemPlaces as spec;
ghost use Rattle.ck_alloc.specs.declared.places.SystemKind.TheVariants.{Pfs};
ghost use Rattle.ck_alloc.specs.SystemMaps.{IsPlaceRead, SaysValues};

use crate::map_bits::{push_bits, push_bytes};
use crate::places::{SystemKind, place_count, place_of, rest_of};
use crate::wrong::note;
use pg_base::{Geometry, NoMemory, Page, PageNo, ReadStop, SnapReader};
use spec_check::CheckError;
use std::alloc::Global;

// Reads the k-th system place of a kind into the page, and notes its errors. So many of the values that it
// holds are those of the file.
#[tactic(auto, using(crate::proofs::PlaceBounds::place_inside, crate::proofs::PlaceBounds::span_below_limit))]
fn read_place<R: SnapReader>(
    reader: &mut R,
    kind: SystemKind,
    g: Geometry,
    pages: u32,
    k: u32,
    page: &mut Page,
    errors: &mut Vec<CheckError>,
) -> Result<u32, ReadStop>
    requires count { R.pages reader.old ≡ pages }
    requires shape { HasShape g pages }
    requires below { k < spec.place_count kind g pages }
    ensures place { IfOk result (IsPlaceRead kind g pages k (R.image reader.old) errors.old.items errors.new.items page.new.bytes) }
    ensures reads { OnlyReads R.SnapReader reader.old reader.new (stop_of result) }
{
    let p = place_of(kind, g, k);
    reader.page(p, page)?;
    note(errors, g, p, page)?;
    Ok(rest_of(kind, g, pages, k))
}

/// Reads the GAM or the SGAM pages of a file: its bits, and the errors of these pages.
pub fn read_bits<R: SnapReader>(
    alloc: Global,
    reader: &mut R,
    kind: SystemKind,
    g: Geometry,
    pages: u32,
    page: &mut Page,
    errors: &mut Vec<CheckError>,
) -> Result<Vec<bool>, ReadStop>
    requires count { R.pages reader.old ≡ pages }
    requires shape { HasShape g pages }
    requires kind { kind ≢ Pfs }
    ensures said { IfOk result (λ bits. SaysValues kind g (spec.bit_in g) (spec.place_count kind g pages) (pages / 8)
        (R.image reader.old) errors.old.items errors.new.items bits.items) }
    ensures reads { OnlyReads R.SnapReader reader.old reader.new (stop_of result) }
{
    let mut bits = Vec::new(alloc);
    for k in 0..place_count(kind, g, pages) {
        let n = read_place(reader, kind, g, pages, k, page, errors)?;
        push_bits(&mut bits, page, n)?;
    }
    Ok(bits)
}

/// Reads the PFS pages of a file: its bytes, and the errors of these pages.
pub fn read_bytes<R: SnapReader>(
    alloc: Global,
    reader: &mut R,
    g: Geometry,
    pages: u32,
    page: &mut Page,
    errors: &mut Vec<CheckError>,
) -> Result<Vec<u8>, ReadStop>
    requires count { R.pages reader.old ≡ pages }
    requires shape { HasShape g pages }
    ensures said { IfOk result (λ bytes. SaysValues Pfs g (spec.byte_in g) (spec.place_count Pfs g pages) pages
        (R.image reader.old) errors.old.items errors.new.items bytes.items) }
    ensures reads { OnlyReads R.SnapReader reader.old reader.new (stop_of result) }
{
    let mut bytes = Vec::new(alloc);
    for k in 0..place_count(SystemKind::Pfs, g, pages) {
        let n = read_place(reader, SystemKind::Pfs, g, pages, k, page, errors)?;
        push_bytes(&mut bytes, page, n)?;
    }
    Ok(bytes)
}
