// The report of what was found.
ghost use Rattle.std.specs.Prelude.{◌≡◌, ◌↔◌, ◌/◌, ◌⊎◌, [], IfOk, Contains};
ghost use Rattle.spec_file.specs.Image.{Image};
ghost use Rattle.spec_check.specs.declared.report.CheckError.{CheckError};
ghost use Rattle.ck_error.specs.Gathered.{Below};
ghost use Rattle.ck_facts.specs.Maps.{HasNoSystemErrors};
ghost use Rattle.ck_facts.specs.MapOf.{IsMapOf};
ghost use Rattle.ck_facts.specs.Owners.{IsOwnerIn};
ghost use Rattle.ck_merge.specs.Held.{roots_in, roots_of};
ghost use Rattle.ck_scan.specs.Found.{AreFound, IsAllShown};
ghost use Rattle.ck_scan.specs.Lines.{IsReportOfRules};

use crate::findings::Findings;
use ck_alloc::alloc_errors;
use ck_error::{CheckError, in_order};
use ck_facts::{AllocMap, CheckReport, TableLine};
use pg_base::NoMemory;
use sqlite_items::Items;
use std::alloc::Global;
use std::thread::Threads;

/// The report of a file with system errors: these alone.
pub fn system_report(alloc: Global, map: &AllocMap) -> Result<CheckReport, NoMemory>
    ensures errors { IfOk result (λ report. report.errors ≡ map.now.system.items) }
    ensures tables { IfOk result (λ report. report.tables ≡ []) }
{
    Ok(CheckReport {
        errors: Items::from_slice(alloc, map.system_errors())?,
        tables: Items::new(alloc),
    })
}

// The errors of both lists.
fn joined(first: Vec<CheckError>, second: Vec<CheckError>) -> Result<Vec<CheckError>, NoMemory>
    ensures { IfOk result (λ both. (x : CheckError) → Contains both.items x ↔ (Contains first.items x ⊎ Contains second.items x)) }
{
    let mut both = first;
    both.extend_from_slice(&second)?;
    Ok(both)
}

// The report of a file without system errors, from all that its pages show.
fn rules_report(
    alloc: Global,
    map: &AllocMap,
    of_pages: Vec<CheckError>,
    of_trees: Vec<CheckError>,
    lines: Vec<TableLine>,
) -> Result<CheckReport, NoMemory>
    requires { HasNoSystemErrors map.now }
    ensures { IfOk result (λ report. (image : Image) → IsMapOf image map.now
        → IsAllShown image map.now of_pages.items of_trees.items lines.items → IsReportOfRules map.now.geometry image report) }
{
    let by_themselves = joined(alloc_errors(alloc, map)?, of_pages)?;
    let errors = joined(by_themselves, of_trees)?;
    Ok(CheckReport {
        errors: Items::from_vec(in_order(errors)),
        tables: Items::from_vec(lines),
    })
}

/// The report of a file without system errors, of whose pages all is found.
pub fn report_of(alloc: Global, map: &AllocMap, found: Findings) -> Result<CheckReport, NoMemory>
    requires sound { HasNoSystemErrors map.now }
    requires roots { roots_in found.parts ≡ roots_of map.now.objects.items }
    ensures report { IfOk result (λ report. (image : Image) → IsMapOf image map.now
        → AreFound image map.now (Below (map.now.pages / 8) (IsOwnerIn map.now.geometry image)) found → IsReportOfRules map.now.geometry image report) }
{
    let Findings {
        errors,
        parts,
        lines,
    } = found;
    let of_trees = parts.finish()?;
    rules_report(alloc, map, errors, of_trees, lines)
}

/// The same as `report_of`, with the facts sorted and matched side by side.
pub fn report_of_together<T: Threads + Sync>(
    rt: &T,
    alloc: Global,
    map: &AllocMap,
    found: Findings,
) -> Result<CheckReport, NoMemory>
    requires sound { HasNoSystemErrors map.now }
    requires roots { roots_in found.parts ≡ roots_of map.now.objects.items }
    ensures report { IfOk result (λ report. (image : Image) → IsMapOf image map.now
        → AreFound image map.now (Below (map.now.pages / 8) (IsOwnerIn map.now.geometry image)) found → IsReportOfRules map.now.geometry image report) }
{
    let Findings {
        errors,
        parts,
        lines,
    } = found;
    let of_trees = parts.finish_together(rt)?;
    rules_report(alloc, map, errors, of_trees, lines)
}
