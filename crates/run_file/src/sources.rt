// All sources of a run: its schedule, and then its scripts.
ghost use Rattle.std.specs.List.{list_all};
ghost use Rattle.std.specs.Prelude.{◌≡◌, ◌-◌, ◌<◌, ◌≤◌, All, IsTrue, length, map, IfOk, IsErrOf, OnOk, IfSome};
ghost use Rattle.std.specs.Io.KnownBytes.{IsAtEnd};
ghost use Rattle.pg_base.specs.Faults.{Counts};
ghost use Rattle.spec_script.specs.Lines.{is_statement, IsStatementLine};
ghost use Rattle.spec_script.specs.Texts.{IsScript};
ghost use Rattle.spec_script.specs.declared.limits.TheConstants.{MOST_LINES};
ghost use Rattle.spec_start.specs.Sources.{AreProper, AreScripts, AreShort, AreTexts, AreTurnsOf, NoneFell};
ghost use Rattle.run_file.specs.Sources.{FaultAt, ScriptsFault, SourcesFault};

use crate::stop::{SourcesStop, of_source};
use crate::text::{schedule_of, script_of};
use spec_script::Statement;
use std::alloc::Global;
use vol_dev::Source;

/// The schedule and the scripts of a run.
#[derive(Drop)]
pub struct Texts {
    /// The sessions, counted from 1, each with how many turns it takes.
    pub schedule: Vec<(u32, u32)>,
    pub scripts: Vec<Vec<Statement>>,
}

/// The statements of script k.
fn script_at<S: Source>(
    alloc: Global,
    source: &mut S,
    k: u32,
) -> Result<Vec<Statement>, SourcesStop>
    ensures script { IfOk result (λ statements. IfSome (S.left source.old) (λ text. IsScript text statements.items)) }
    ensures short { IfOk result (λ statements. length statements.items ≤ MOST_LINES) }
    ensures proper { IfOk result (λ statements. IsTrue (list_all is_statement statements.items)) }
    ensures end { OnOk result (IsAtEnd (S.left source.new)) }
    ensures fault { FaultAt k IsStatementLine (S.left source.old) result }
    ensures faults { Counts (IsErrOf result SourcesStop.Failed) (S.faults source.old) (S.faults source.new) }
{
    match script_of(alloc, source) {
        Ok(statements) => Ok(statements),
        Err(stop) => Err(of_source(k, stop)),
    }
}

/// The scripts of all these sources, each read to its end.
fn read_scripts<S: Source>(
    alloc: Global,
    sources: &mut [S],
) -> Result<Vec<Vec<Statement>>, SourcesStop>
    requires { length sources.old ≤ 16 }
    ensures scripts { IfOk result (λ scripts. AreScripts (map S.left sources.old) (map (λ script. script.items) scripts.items)) }
    ensures short { IfOk result (λ scripts. AreShort (map (λ script. script.items) scripts.items)) }
    ensures proper { IfOk result (λ scripts. AreProper (map (λ script. script.items) scripts.items)) }
    ensures ends { OnOk result (All IsAtEnd (map S.left sources.new)) }
    ensures fault { ScriptsFault (map S.left sources.old) (map S.faults sources.old) (map S.faults sources.new) result }
    ensures faults { NoneFell (map S.faults sources.old) (map S.faults sources.new) }
{
    let mut scripts = Vec::new(alloc);
    for k in 0..sources.len() {
        match script_at(alloc, &mut sources[k], k as u32 + 1) {
            Ok(script) => scripts.push(script)?,
            Err(stop) => return Err(stop),
        }
    }
    Ok(scripts)
}

/// The schedule of a run and its scripts, whose sources are read to their ends in their order.
pub fn read_sources<S: Source>(alloc: Global, sources: &mut [S]) -> Result<Texts, SourcesStop>
    requires some { 0 < length sources.old }
    requires few { length sources.old ≤ 17 }
    ensures texts { IfOk result (λ texts. AreTexts (map S.left sources.old) texts.schedule.items (map (λ script. script.items) texts.scripts.items)) }
    ensures count { IfOk result (λ texts. length texts.scripts.items ≡ length sources.old - 1) }
    ensures short { IfOk result (λ texts. AreShort (map (λ script. script.items) texts.scripts.items)) }
    ensures proper { IfOk result (λ texts. AreProper (map (λ script. script.items) texts.scripts.items)) }
    ensures inside { IfOk result (λ texts. AreTurnsOf (length sources.old - 1) texts.schedule.items) }
    ensures ends { OnOk result (All IsAtEnd (map S.left sources.new)) }
    ensures fault { SourcesFault (map S.left sources.old) (map S.faults sources.old) (map S.faults sources.new) result }
    ensures faults { NoneFell (map S.faults sources.old) (map S.faults sources.new) }
{
    let Some((first, rest)) = sources.split_first_mut() else {
        unreachable!()
    };
    let schedule = match schedule_of(alloc, first, rest.len() as u32) {
        Ok(turns) => turns,
        Err(stop) => return Err(of_source(0, stop)),
    };
    match read_scripts(alloc, rest) {
        Ok(scripts) => Ok(Texts { schedule, scripts }),
        Err(stop) => Err(stop),
    }
}
