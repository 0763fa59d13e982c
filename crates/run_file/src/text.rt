// The texts of sources.
ghost use Rattle.std.specs.List.{list_all};
ghost use Rattle.std.specs.Prelude.{◌≤◌, IsTrue, length, IfOk, IsErrOf, OnOk, IfSome};
ghost use Rattle.std.specs.Io.KnownBytes.{IsAtEnd};
ghost use Rattle.pg_base.specs.Faults.{Counts};
ghost use Rattle.spec_script.specs.Lines.{is_statement, IsStatementLine, IsTurnsLine};
ghost use Rattle.spec_script.specs.Texts.{IsScript, IsSchedule};
ghost use Rattle.spec_script.specs.declared.limits.TheConstants.{MOST_LINES};
ghost use Rattle.spec_start.specs.Sources.{AreTurnsOf};
ghost use Rattle.run_file.specs.Sources.{TextFault};

use crate::source::read_source;
use crate::stop::TextStop;
use spec_script::Statement;
use sql_script::{ScriptStop, read_schedule, read_script};
use std::alloc::Global;
use vol_dev::Source;

/// The statements of a script, whose source is read to its end.
pub fn script_of<S: Source>(alloc: Global, source: &mut S) -> Result<Vec<Statement>, TextStop>
    ensures script { IfOk result (λ statements. IfSome (S.left source.old) (λ text. IsScript text statements.items)) }
    ensures short { IfOk result (λ statements. length statements.items ≤ MOST_LINES) }
    ensures proper { IfOk result (λ statements. IsTrue (list_all is_statement statements.items)) }
    ensures end { OnOk result (IsAtEnd (S.left source.new)) }
    ensures fault { TextFault IsStatementLine (S.left source.old) result }
    ensures faults { Counts (IsErrOf result TextStop.Failed) (S.faults source.old) (S.faults source.new) }
{
    let bytes = read_source(alloc, source)?;
    match read_script(alloc, &bytes) {
        Ok(statements) => Ok(statements),
        Err(ScriptStop::Fault { line, why }) => Err(TextStop::Fault { line, why }),
        Err(ScriptStop::NoMemory) => Err(TextStop::NoMemory),
    }
}

/// The turns of a schedule for so many sessions, whose source is read to its end.
pub fn schedule_of<S: Source>(
    alloc: Global,
    source: &mut S,
    sessions: u32,
) -> Result<Vec<(u32, u32)>, TextStop>
    ensures schedule { IfOk result (λ turns. IfSome (S.left source.old) (λ text. IsSchedule sessions text turns.items)) }
    ensures inside { IfOk result (λ turns. AreTurnsOf sessions turns.items) }
    ensures end { OnOk result (IsAtEnd (S.left source.new)) }
    ensures fault { TextFault (IsTurnsLine sessions) (S.left source.old) result }
    ensures faults { Counts (IsErrOf result TextStop.Failed) (S.faults source.old) (S.faults source.new) }
{
    let bytes = read_source(alloc, source)?;
    match read_schedule(alloc, &bytes, sessions) {
        Ok(turns) => Ok(turns),
        Err(ScriptStop::Fault { line, why }) => Err(TextStop::Fault { line, why }),
        Err(ScriptStop::NoMemory) => Err(TextStop::NoMemory),
    }
}
