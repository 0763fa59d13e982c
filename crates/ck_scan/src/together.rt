// The check of a still file by many workers.
ghost use Rattle.std.specs.Prelude.{◌≡◌, ◌<◌, ◌≤◌, All, Some, IfOk, vec_len};
ghost use Rattle.spec_file.specs.Image.{Image};
ghost use Rattle.pg_base.specs.Stops.{stop_of};
ghost use Rattle.ck_facts.specs.Maps.{HasNoSystemErrors};
ghost use Rattle.ck_facts.specs.MapOf.{IsMapOf};
ghost use Rattle.spec_tables.specs.Written.{IsCheckOf};
ghost use Rattle.ck_scan.specs.Lines.{IsReportOfRules};
ghost use Rattle.ck_scan.specs.Readers.{AreRead};

use crate::crew::find_together;
use crate::gate::Gate;
use crate::report::{report_of_together, system_report};
use ck_facts::{AllocMap, CheckReport};
use pg_base::{ReadStop, SnapReader};
use std::alloc::Global;
use std::thread::Threads;

// The report of a file without system errors.
fn rules_together<T: Threads + Sync, R: SnapReader + Send, G: Gate + Sync>(
    rt: &T,
    alloc: Global,
    readers: &mut Vec<R>,
    map: &AllocMap,
    gate: &G,
) -> Result<CheckReport, ReadStop>
    requires some { 0 < vec_len readers.old }
    requires few { vec_len readers.old ≤ 16 }
    requires pages { All (λ r. R.pages r ≡ map.now.pages) readers.old.items }
    requires sound { HasNoSystemErrors map.now }
    ensures report { IfOk result (λ report. (image : Image) → IsMapOf image map.now → All (λ r. R.image r ≡ Some image) readers.old.items
        → IsReportOfRules map.now.geometry image report) }
    ensures reads { AreRead R.SnapReader readers.old.items readers.new.items (stop_of result) }
{
    let found = find_together(rt, alloc, readers, map, gate)?;
    Ok(report_of_together(rt, alloc, map, found)?)
}

/// The check of a still file by its maps and as many workers as there are readers. Each worker draws an extent, passes
/// the gate and reads the extent's pages, until all are drawn or a read stops. The report is the written check of the
/// image that all readers tell, in whatever order they draw; the stop is that of the first reader that has one, or
/// want of memory. The readers stand in their order, each with its image.
pub fn scan<T: Threads + Sync, R: SnapReader + Send, G: Gate + Sync>(
    rt: &T,
    alloc: Global,
    readers: &mut Vec<R>,
    map: &AllocMap,
    gate: &G,
) -> Result<CheckReport, ReadStop>
    requires some { 0 < vec_len readers.old }
    requires few { vec_len readers.old ≤ 16 }
    requires pages { All (λ r. R.pages r ≡ map.now.pages) readers.old.items }
    ensures report { IfOk result (λ report. (image : Image) → IsMapOf image map.now → All (λ r. R.image r ≡ Some image) readers.old.items
        → IsCheckOf map.now.geometry image report) }
    ensures reads { AreRead R.SnapReader readers.old.items readers.new.items (stop_of result) }
{
    if !map.system_errors().is_empty() {
        return Ok(system_report(alloc, map)?);
    }
    rules_together(rt, alloc, readers, map, gate)
}
