//! A check reads the pages that it holds: the maps, then extent by extent.
ghost use Rattle.std.specs.Prelude.{◌≡◌, ◌<◌, length, true, false, IfErr, IfOk, OnOk};
ghost use Rattle.spec_file.specs.Places.{HasShape};
ghost use Rattle.spec_run.specs.Openings.{geometry_said};
ghost use Rattle.spec_tables.specs.Written.{IsCheckOf};
ghost use Rattle.ck_scan.specs.Scans.{extents_left};
ghost use Rattle.pg_base.specs.declared.reader.ReadStop.TheVariants as stops;
ghost use Rattle.db_core.specs.Reading as phases;
ghost use Rattle.db_core.specs.Reading.{AreMapsOf, BeginsScan, IsScan, MayRead, ReadsExtent, ReadsOn};

use crate::session::Phase;
use ck_alloc::read_maps;
use ck_facts::AllocMap;
use ck_scan::SteppedScan;
use pg_base::{Geometry, ReadStop};
use spec_check::CheckReport;
use spec_file::NoMemory;
use std::alloc::Global;
use vol_pool::{Frames, FramesReader};

/// Whether items are being taken back.
pub fn is_back(phase: &Phase) -> bool
    ensures { result ≡ phases.is_back phase.now }
{
    match phase {
        Phase::Back => true,
        Phase::Undone => false,
        Phase::Scanning { .. } => false,
    }
}

/// Whether all extents are read.
pub fn is_read(phase: &Phase) -> bool
    ensures { result ≡ phases.is_read phase.now }
{
    match phase {
        Phase::Scanning { map, scan } => !scan.has_more(map),
        _ => false,
    }
}

/// The geometry that page 0 says.
pub fn geometry_of(pages: &Frames) -> Geometry
    requires { 0 < length pages.now }
    ensures { result ≡ geometry_said pages.now }
{
    match Geometry::of_byte(pages.page(0).bytes[106]) {
        Some(geometry) => geometry,
        None => Geometry::Small,
    }
}

/// The maps of pages in memory, whose reading neither fails nor ends.
fn maps_of(alloc: Global, pages: &Frames) -> Result<AllocMap, ReadStop>
    requires { HasShape (geometry_said pages.now) (length pages.now) }
    ensures maps { IfOk result (AreMapsOf pages.now) }
    ensures cause { IfErr result (λ stop. stop ≡ stops.NoMemory) }
{
    let mut reader = FramesReader::of(pages);
    read_maps(alloc, &mut reader, geometry_of(pages), pages.count() as u32)
}

/// The maps of pages, and a scan by them that has read no extent yet.
fn begin_scan(alloc: Global, pages: &Frames) -> Result<Phase, NoMemory>
    requires { HasShape (geometry_said pages.now) (length pages.now) }
    ensures { IfOk result (BeginsScan pages.now) }
{
    let Ok(map) = maps_of(alloc, pages) else {
        return Err(NoMemory);
    };
    let scan = SteppedScan::begin(alloc, &map)?;
    Ok(Phase::Scanning { map, scan })
}

/// Reads the next extent of pages in memory, whose reading neither fails nor ends.
fn read_extent(
    alloc: Global,
    pages: &Frames,
    map: &AllocMap,
    scan: &mut SteppedScan,
) -> Result<(), ReadStop>
    requires scan { IsScan pages.now map.now scan.old }
    requires more { 0 < extents_left map.now scan.old }
    ensures reads { OnOk result (ReadsExtent pages.now map.now scan.old scan.new) }
    ensures cause { IfErr result (λ stop. stop ≡ stops.NoMemory) }
{
    let mut reader = FramesReader::of(pages);
    scan.read_next(alloc, &mut reader, map)
}

/// Reads the next extent, which stops for want of memory alone.
fn scan_on(
    alloc: Global,
    pages: &Frames,
    map: &AllocMap,
    scan: &mut SteppedScan,
) -> Result<(), NoMemory>
    requires scan { IsScan pages.now map.now scan.old }
    requires more { 0 < extents_left map.now scan.old }
    ensures { OnOk result (ReadsExtent pages.now map.now scan.old scan.new) }
{
    match read_extent(alloc, pages, map, scan) {
        Ok(()) => Ok(()),
        Err(_) => Err(NoMemory),
    }
}

/// Reads the maps of the pages, or their next extent. Where there is no memory for it the check is to be
/// given up.
pub fn read_on(alloc: Global, pages: &Frames, phase: &mut Phase) -> Result<(), NoMemory>
    requires may { MayRead pages.now phase.old }
    requires more { phases.is_read phase.old ≡ false }
    ensures { OnOk result (ReadsOn pages.now phase.old phase.new) }
{
    match phase {
        Phase::Back => unreachable!(),
        Phase::Undone => {
            *phase = begin_scan(alloc, pages)?;
            Ok(())
        }
        Phase::Scanning { map, scan } => scan_on(alloc, pages, map, scan),
    }
}

/// The report of pages all of whose extents are read.
pub fn report_of(alloc: Global, pages: &Frames, phase: Phase) -> Result<CheckReport, NoMemory>
    requires may { MayRead pages.now phase }
    requires read { phases.is_read phase ≡ true }
    ensures { IfOk result (IsCheckOf (geometry_said pages.now) pages.now) }
{
    match phase {
        Phase::Scanning { map, scan } => scan.finish(alloc, &map),
        _ => unreachable!(),
    }
}
