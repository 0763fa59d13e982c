// The check of a still file: the report of its image, and its bytes.
ghost use Rattle.std.specs.Prelude.{◌≡◌, IfOk, IfSome};
ghost use Rattle.pg_base.specs.Faults.{Counts};
ghost use Rattle.pg_base.specs.Reading.{OnlyReads};
ghost use Rattle.pg_base.specs.Stops.{stop_of};
ghost use Rattle.spec_file.specs.Places.{HasShape};
ghost use Rattle.spec_check.specs.Text.{report_text};
ghost use Rattle.spec_tables.specs.Written.{IsCheckOf};
ghost use Rattle.vol_dev.specs.Files.{ReadsFile};
ghost use Rattle.checkdb_top.specs.Form.{Passes, NamesGeometry};
ghost use Rattle.checkdb_top.specs.Answers.{Answers, IsDevice, Prints, ended};
ghost use Rattle.checkdb_top.specs.Printings.{check_printing, is_some_error};
ghost use Rattle.checkdb_top.specs.declared.status.Device.TheVariants.{Volume, Sink};

use crate::file::{Finished, PassedFile, open_file, status_of};
use crate::reader::VolumeReader;
use crate::{Device, Status};
use ck_alloc::read_maps;
use ck_scan::scan_one;
use ck_text::write_report;
use pg_base::{Geometry, ReadStop, SnapReader};
use spec_check::CheckReport;
use std::alloc::Global;

/// Whether a report has an error.
pub fn has_error(report: &CheckReport) -> bool
    ensures { result ≡ is_some_error report.now.errors }
{
    !report.errors.is_empty()
}

fn print<K: vol_dev::Sink>(report: &CheckReport, out: &mut K) -> Status
    ensures prints { Prints (report_text report.now) (ended (is_some_error report.now.errors)) (K.contents out.old) (K.contents out.new) result }
    ensures volume_fault { ¬ IsDevice Volume result }
    ensures faults { Counts (IsDevice Sink result) (K.faults out.old) (K.faults out.new) }
{
    match write_report(report, out) {
        Err(_) => Status::Device {
            which: Device::Sink,
        },
        Ok(()) => {
            if has_error(report) {
                Status::Errors
            } else {
                Status::Clean
            }
        }
    }
}

// The report of an image of this geometry.
fn scanned<R: SnapReader>(
    alloc: Global,
    reader: &mut R,
    g: Geometry,
    pages: u32,
) -> Result<CheckReport, ReadStop>
    requires count { R.pages reader.old ≡ pages }
    requires shape { HasShape g pages }
    ensures report { IfOk result (λ report. IfSome (R.image reader.old) (λ image. IsCheckOf g image report)) }
    ensures reads { OnlyReads R.SnapReader reader.old reader.new (stop_of result) }
{
    let map = read_maps(alloc, reader, g, pages)?;
    let report = scan_one(alloc, reader, &map)?;
    Ok(report)
}

// The check of a file that has passed its tests, whose reader nobody ends.
fn report<V: vol_dev::Volume, K: vol_dev::Sink>(
    alloc: Global,
    reader: &mut VolumeReader<V>,
    g: Geometry,
    out: &mut K,
) -> Status
    requires shape { HasShape g reader.old.pages }
    requires passes { IfSome (V.contents reader.old.volume) Passes }
    requires geometry { IfSome (V.contents reader.old.volume) (NamesGeometry g) }
    ensures answers { Answers check_printing (V.contents reader.old.volume) (K.contents out.old) (K.contents out.new) result }
    ensures reads { ReadsFile V.Volume reader.old.volume reader.new.volume (IsDevice Volume result) }
    ensures faults { Counts (IsDevice Sink result) (K.faults out.old) (K.faults out.new) }
{
    let pages = reader.pages;
    match scanned(alloc, reader, g, pages) {
        Err(stop) => status_of(stop),
        Ok(found) => print(&found, out),
    }
}

/// The check of a still file.
pub fn check<V: vol_dev::Volume, K: vol_dev::Sink>(
    alloc: Global,
    volume: V,
    out: &mut K,
) -> Finished<V>
    ensures answers { Answers check_printing (V.contents volume) (K.contents out.old) (K.contents out.new) result.status }
    ensures reads { ReadsFile V.Volume volume result.volume (IsDevice Volume result.status) }
    ensures faults { Counts (IsDevice Sink result.status) (K.faults out.old) (K.faults out.new) }
{
    let PassedFile {
        mut reader,
        geometry,
    } = match open_file(alloc, volume) {
        Ok(passed) => passed,
        Err(finished) => return finished,
    };
    let status = report(alloc, &mut reader, geometry, out);
    Finished {
        status,
        volume: reader.into_volume(),
    }
}
