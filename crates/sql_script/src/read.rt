// Scripts and schedules, line by line.
ghost use Rattle.std.specs.Prelude.{◌≤◌, ◌+◌, length, IfOk, OnOk};
ghost use Rattle.spec_script.specs.Lines.{IsStatementLine, IsTurnsLine};
ghost use Rattle.spec_script.specs.Texts.{IsScript, IsSchedule, most_lines};
ghost use Rattle.sql_script.specs.Stops.{StopsAt, StopsLine, StopsValue, Takes, Grows};

use crate::ScriptStop;
use crate::statement::{statement_of, turns_of};
use crate::text::{first_line, is_skipped};
use spec_script::{LONGEST_TEXT, MOST_LINES, ScriptWhy, Statement};
use std::alloc::Global;

// Adds what a line says, which is nothing where the line is wrong.
fn push_value<T: Drop>(values: &mut Vec<T>, value: Option<T>, number: u32) -> Result<(), ScriptStop>
    requires { length values.old.items ≤ most_lines }
    ensures ok { OnOk result (Grows value values.old.items values.new.items) }
    ensures fault { StopsValue number value values.old.items result }
{
    let Some(value) = value else {
        return Err(ScriptStop::Fault {
            line: number,
            why: ScriptWhy::Statement,
        });
    };
    if values.len() == MOST_LINES {
        return Err(ScriptStop::Fault {
            line: number,
            why: ScriptWhy::Many,
        });
    }
    values.push(value)?;
    Ok(())
}

// Takes the next line of a script. Lines are counted from 1.
fn take_statement(
    alloc: Global,
    statements: &mut Vec<Statement>,
    line: &[u8],
    number: u32,
) -> Result<(), ScriptStop>
    requires { length statements.old.items ≤ most_lines }
    ensures ok { OnOk result (Takes IsStatementLine line.now statements.old.items statements.new.items) }
    ensures fault { StopsLine IsStatementLine number line.now statements.old.items result }
{
    if is_skipped(line) {
        return Ok(());
    }
    let statement = statement_of(alloc, line)?;
    push_value(statements, statement, number)
}

/// The statements of a script.
pub fn read_script(alloc: Global, bytes: &[u8]) -> Result<Vec<Statement>, ScriptStop>
    ensures ok { IfOk result (λ statements. IsScript bytes.now statements.items) }
    ensures fault { StopsAt IsStatementLine bytes.now result }
{
    if bytes.len() > LONGEST_TEXT {
        return Err(ScriptStop::Fault {
            line: 0,
            why: ScriptWhy::Size,
        });
    }
    let mut statements = Vec::new(alloc);
    let mut rest = bytes;
    let mut number = 0;
    while !rest.is_empty() {
        let (line, behind) = first_line(rest);
        number += 1;
        take_statement(alloc, &mut statements, line, number)?;
        rest = behind;
    }
    Ok(statements)
}

// Takes the next line of a schedule. Lines are counted from 1.
fn take_turns(
    sessions: u32,
    turns: &mut Vec<(u32, u32)>,
    line: &[u8],
    number: u32,
) -> Result<(), ScriptStop>
    requires { length turns.old.items ≤ most_lines }
    ensures ok { OnOk result (Takes (IsTurnsLine sessions) line.now turns.old.items turns.new.items) }
    ensures fault { StopsLine (IsTurnsLine sessions) number line.now turns.old.items result }
{
    if is_skipped(line) {
        return Ok(());
    }
    let found = turns_of(sessions, line);
    push_value(turns, found, number)
}

/// The sessions of a schedule for so many scripts, each with its number of turns.
pub fn read_schedule(
    alloc: Global,
    bytes: &[u8],
    sessions: u32,
) -> Result<Vec<(u32, u32)>, ScriptStop>
    ensures ok { IfOk result (λ turns. IsSchedule sessions bytes.now turns.items) }
    ensures fault { StopsAt (IsTurnsLine sessions) bytes.now result }
{
    if bytes.len() > LONGEST_TEXT {
        return Err(ScriptStop::Fault {
            line: 0,
            why: ScriptWhy::Size,
        });
    }
    let mut turns = Vec::new(alloc);
    let mut rest = bytes;
    let mut number = 0;
    while !rest.is_empty() {
        let (line, behind) = first_line(rest);
        number += 1;
        take_turns(sessions, &mut turns, line, number)?;
        rest = behind;
    }
    Ok(turns)
}
