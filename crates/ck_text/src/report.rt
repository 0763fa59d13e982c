// The bytes of a report, line by line. No memory is taken.
ghost use Rattle.std.specs.Prelude.{◌≡◌, count_by, flat_map, not, is_err};
ghost use Rattle.vol_dev.specs.Output.{Wrote};
ghost use Rattle.spec_check.specs.Errors.{is_allocation};
ghost use Rattle.spec_check.specs.Text.{error_line, table_line, total_line, report_text};

use crate::line::{Line, push_field, write_line};
use spec_check::{CheckError, CheckReport, TableLine};
use vol_dev::{DeviceFailed, Sink};

#[tactic(auto, unfolding(spec_check::specs::Text::error_line))]
fn error_text(error: &CheckError) -> Line
    ensures { result.bytes ≡ error_line error.now }
{
    let mut line = Line::new();
    push_field(&mut line, "Msg ", u64::from(error.number));
    push_field(&mut line, ": object ", u64::from(error.object));
    push_field(&mut line, ", page ", u64::from(error.page));
    push_field(&mut line, ", other ", u64::from(error.other));
    push_field(&mut line, ", slot ", u64::from(error.slot));
    push_field(&mut line, ", value ", error.value);
    line.push_str("\n");
    line
}

#[tactic(auto, unfolding(spec_check::specs::Text::table_line))]
fn table_text(table: &TableLine) -> Line
    ensures { result.bytes ≡ table_line table.now }
{
    let mut line = Line::new();
    push_field(&mut line, "Msg 2593: object ", u64::from(table.object));
    push_field(&mut line, ", rows ", table.rows);
    push_field(&mut line, ", pages ", table.pages);
    line.push_str("\n");
    line
}

fn allocation_count(errors: &[CheckError]) -> usize
    ensures { result ≡ count_by is_allocation errors.now }
{
    errors.iter().filter(|e| e.is_allocation()).count()
}

fn consistency_count(errors: &[CheckError]) -> usize
    ensures { result ≡ count_by (λ x. not (is_allocation x)) errors.now }
{
    errors.iter().filter(|e| !e.is_allocation()).count()
}

#[tactic(auto, unfolding(spec_check::specs::Text::total_line))]
fn total_text(errors: &[CheckError]) -> Line
    ensures { result.bytes ≡ total_line errors.now }
{
    let mut line = Line::new();
    push_field(&mut line, "Msg 8989: ", allocation_count(errors) as u64);
    push_field(
        &mut line,
        " allocation errors, ",
        consistency_count(errors) as u64,
    );
    line.push_str(" consistency errors\n");
    line
}

fn write_errors<K: Sink>(errors: &[CheckError], out: &mut K) -> Result<(), DeviceFailed>
    ensures { Wrote K.Sink out.old out.new (flat_map error_line errors.now) (is_err result) }
{
    for error in errors {
        write_line(&error_text(error), out)?;
    }
    Ok(())
}

fn write_tables<K: Sink>(tables: &[TableLine], out: &mut K) -> Result<(), DeviceFailed>
    ensures { Wrote K.Sink out.old out.new (flat_map table_line tables.now) (is_err result) }
{
    for table in tables {
        write_line(&table_text(table), out)?;
    }
    Ok(())
}

/// Writes a report: a line for each error, a line for each table, and a line with both counts. After a
/// failure of the sink a front of these bytes stands there.
pub fn write_report<K: Sink>(report: &CheckReport, out: &mut K) -> Result<(), DeviceFailed>
    ensures { Wrote K.Sink out.old out.new (report_text report.now) (is_err result) }
{
    write_errors(report.errors.as_slice(), out)?;
    write_tables(report.tables.as_slice(), out)?;
    write_line(&total_text(report.errors.as_slice()), out)
}
