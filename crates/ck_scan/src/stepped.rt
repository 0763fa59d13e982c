// The check of a still file, extent by extent.
ghost use Rattle.std.specs.Prelude.{◌≡◌, ◌↔◌, ◌<◌, IfOk, IfSome, OnOk, IsTrue};
ghost use Rattle.spec_file.specs.Image.{Image};
ghost use Rattle.pg_base.specs.Stops.{stop_of};
ghost use Rattle.pg_base.specs.Reading.{OnlyReads};
ghost use Rattle.ck_facts.specs.MapOf.{IsMapOf};
ghost use Rattle.spec_tables.specs.Written.{IsCheckOf};
ghost use Rattle.ck_scan.specs.Scans.{extents_left, IsBegun, IsScanBy, IsScanOf, ReadsNext};

use crate::findings::Findings;
use crate::frame::Frame;
use crate::pages::find_in_extent;
use crate::report::{report_of, system_report};
use ck_facts::{AllocMap, CheckReport};
use pg_base::{NoMemory, ReadStop, SnapReader};
use std::alloc::Global;

/// A check of a still file, extent by extent. Each call takes the maps that it was begun by.
#[derive(Drop)]
pub enum SteppedScan {
    /// The maps have system errors, which stand alone: no page is read.
    Unread,
    /// The extents before the next one are read.
    Pages {
        next: u32,
        frame: Frame,
        found: Findings,
    },
}

impl SteppedScan {
    /// A check that has read no page yet.
    pub fn begin(alloc: Global, map: &AllocMap) -> Result<SteppedScan, NoMemory>
        ensures { IfOk result (IsBegun map.now) }
    {
        if !map.system_errors().is_empty() {
            return Ok(SteppedScan::Unread);
        }
        Ok(SteppedScan::Pages {
            next: 0,
            frame: Frame::begin(alloc)?,
            found: Findings::begin(alloc, map, 1)?,
        })
    }

    /// Whether an extent is left to be read: none is where the maps have system errors.
    pub fn has_more(&self, map: &AllocMap) -> bool
        ensures { IsTrue result ↔ 0 < extents_left map.now self.now }
    {
        match self {
            SteppedScan::Unread => false,
            SteppedScan::Pages { next, .. } => *next < map.extents(),
        }
    }

    /// Reads the pages that objects own in the next extent. A fault names the page whose reading failed;
    /// after an error the check is to be given up.
    pub fn read_next<R: SnapReader>(
        &mut self,
        alloc: Global,
        reader: &mut R,
        map: &AllocMap,
    ) -> Result<(), ReadStop>
        requires pages { R.pages reader.old ≡ map.now.pages }
        requires by { IsScanBy map.now self.old }
        requires more { 0 < extents_left map.now self.old }
        ensures next { OnOk result (ReadsNext (R.image reader.old) map.now self.old self.new) }
        ensures reads { OnlyReads R.SnapReader reader.old reader.new (stop_of result) }
    {
        match self {
            SteppedScan::Unread => unreachable!(),
            SteppedScan::Pages { next, frame, found } => {
                find_in_extent(alloc, reader, map, *next, frame, found)?;
                *next += 1;
                Ok(())
            }
        }
    }

    /// The report, once no extent is left.
    pub fn finish(self, alloc: Global, map: &AllocMap) -> Result<CheckReport, NoMemory>
        requires by { IsScanBy map.now self }
        requires none { extents_left map.now self ≡ 0 }
        ensures { IfOk result (λ report. (image : Image) → IsScanOf image map.now self → IsCheckOf map.now.geometry image report) }
    {
        match self {
            SteppedScan::Unread => system_report(alloc, map),
            SteppedScan::Pages { found, .. } => report_of(alloc, map, found),
        }
    }
}

/// The check of a still file by its maps and one reader: the report is the written check of the reader's
/// image. A fault names the page whose reading failed; the reader keeps its image.
pub fn scan_one<R: SnapReader>(
    alloc: Global,
    reader: &mut R,
    map: &AllocMap,
) -> Result<CheckReport, ReadStop>
    requires pages { R.pages reader.old ≡ map.now.pages }
    requires map { IfSome (R.image reader.old) (λ image. IsMapOf image map.now) }
    ensures report { IfOk result (λ report. IfSome (R.image reader.old) (λ image. IsCheckOf map.now.geometry image report)) }
    ensures reads { OnlyReads R.SnapReader reader.old reader.new (stop_of result) }
{
    let mut scan = SteppedScan::begin(alloc, map)?;
    'extents: while scan.has_more(map) {
        scan.read_next(alloc, reader, map)?;
    }
    Ok(scan.finish(alloc, map)?)
}
