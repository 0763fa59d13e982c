// The statement of a line.
ghost use Rattle.std.specs.Prelude.{◌≡◌, option_map, IfOk, IfSome, IsTrue, bytes_eq};
ghost use Rattle.spec_file.specs.Catalog.{is_name};
ghost use Rattle.spec_script.specs.declared.statement.Statement.TheVariants.{Select};
ghost use Rattle.sql_script.specs.Reading as spec;

use crate::words::{after, cut_at_space, name_of, number_of, number_within, payload_of};
use spec_file::NoMemory;
use spec_log::Values;
use spec_script::{MOST_TURNS, MOST_WORKERS, Name, Statement, USUAL_WORKERS};
use std::alloc::Global;

// What an INSERT names.
#[derive(Clone, Copy)]
struct Row<'a> {
    table: &'a [u8],
    key: u64,
    payload: &'a [u8],
}

#[tactic(auto, unfolding(crate::specs::Reading::row_of))]
fn row_of(words: &[u8]) -> Option<Row<'_>>
    ensures row { option_map (λ row. (row.table.now, row.key, row.payload.now)) result ≡ spec.row_of words.now }
    ensures named { IfSome result (λ row. IsTrue (is_name row.table.now)) }
{
    let (table, rest) = cut_at_space(words)?;
    let (digits, quoted) = cut_at_space(rest)?;
    let table = name_of(table)?;
    let key = number_of(digits)?;
    let payload = payload_of(quoted)?;
    Some(Row {
        table,
        key,
        payload,
    })
}

// A name as text: its bytes are letters, digits and `_`.
fn name_from(alloc: Global, word: &[u8]) -> Result<Name, NoMemory>
    requires { IsTrue (is_name word.now) }
    ensures { IfOk result (λ name. name ≡ word.now) }
{
    match std::str::from_utf8(word) {
        Ok(text) => Name::copied(alloc, text),
        Err(_) => unreachable!(),
    }
}

#[tactic(auto, unfolding(crate::specs::Reading::insert_of))]
fn insert_of(alloc: Global, words: &[u8]) -> Result<Option<Statement>, NoMemory>
    ensures { IfOk result (λ statement. statement ≡ spec.insert_of words.now) }
{
    let Some(row) = row_of(words) else {
        return Ok(None);
    };
    Ok(Some(Statement::Insert {
        table: name_from(alloc, row.table)?,
        key: row.key,
        payload: Values::copied(alloc, row.payload)?,
    }))
}

#[tactic(auto, unfolding(crate::specs::Reading::count_of))]
fn count_of(alloc: Global, word: &[u8]) -> Result<Option<Statement>, NoMemory>
    ensures { IfOk result (λ statement. statement ≡ spec.count_of word.now) }
{
    let Some(word) = name_of(word) else {
        return Ok(None);
    };
    Ok(Some(Statement::Count(name_from(alloc, word)?)))
}

#[tactic(auto, unfolding(crate::specs::Reading::create_of))]
fn create_of(alloc: Global, word: &[u8]) -> Result<Option<Statement>, NoMemory>
    ensures { IfOk result (λ statement. statement ≡ spec.create_of word.now) }
{
    let Some(word) = name_of(word) else {
        return Ok(None);
    };
    Ok(Some(Statement::CreateHeap(name_from(alloc, word)?)))
}

#[tactic(auto, unfolding(crate::specs::Reading::drop_of))]
fn drop_of(alloc: Global, word: &[u8]) -> Result<Option<Statement>, NoMemory>
    ensures { IfOk result (λ statement. statement ≡ spec.drop_of word.now) }
{
    let Some(word) = name_of(word) else {
        return Ok(None);
    };
    Ok(Some(Statement::Drop(name_from(alloc, word)?)))
}

// What a SELECT names.
#[derive(Clone, Copy)]
struct Place<'a> {
    table: &'a [u8],
    key: u64,
}

#[tactic(auto, unfolding(crate::specs::Reading::select_of))]
fn place_of(words: &[u8]) -> Option<Place<'_>>
    ensures place { option_map (λ place. Select place.table.now place.key) result ≡ spec.select_of words.now }
    ensures named { IfSome result (λ place. IsTrue (is_name place.table.now)) }
{
    let (table, digits) = cut_at_space(words)?;
    let table = name_of(table)?;
    let key = number_of(digits)?;
    Some(Place { table, key })
}

fn select_of(alloc: Global, words: &[u8]) -> Result<Option<Statement>, NoMemory>
    ensures { IfOk result (λ statement. statement ≡ spec.select_of words.now) }
{
    let Some(place) = place_of(words) else {
        return Ok(None);
    };
    Ok(Some(Statement::Select {
        table: name_from(alloc, place.table)?,
        key: place.key,
    }))
}

#[tactic(auto, unfolding(crate::specs::Reading::check_of))]
fn check_of(digits: &[u8]) -> Option<Statement>
    ensures { result ≡ spec.check_of digits.now }
{
    match number_within(1, u32::from(MOST_WORKERS), digits) {
        Some(workers) => Some(Statement::Check {
            workers: workers as u8,
        }),
        None => None,
    }
}

fn is(line: &[u8], words: &str) -> bool
    ensures { result ≡ bytes_eq line.now words.now }
{
    line == words.as_bytes()
}

#[tactic(auto, unfolding(crate::specs::Reading::keyword_of))]
fn keyword_of(line: &[u8]) -> Option<Statement>
    ensures { result ≡ spec.keyword_of line.now }
{
    if is(line, "BEGIN") {
        Some(Statement::Begin)
    } else if is(line, "COMMIT") {
        Some(Statement::Commit)
    } else if is(line, "ROLLBACK") {
        Some(Statement::Rollback)
    } else if is(line, "DBCC CHECKDB") {
        Some(Statement::Check {
            workers: USUAL_WORKERS,
        })
    } else {
        None
    }
}

// A statement that isn't about rows.
#[tactic(auto, unfolding(crate::specs::Reading::other_of))]
fn other_of(alloc: Global, line: &[u8]) -> Result<Option<Statement>, NoMemory>
    ensures { IfOk result (λ statement. statement ≡ spec.other_of line.now) }
{
    if let Some(word) = after(line, b"CREATE HEAP ") {
        return create_of(alloc, word);
    }
    if let Some(word) = after(line, b"DROP ") {
        return drop_of(alloc, word);
    }
    if let Some(digits) = after(line, b"DBCC CHECKDB WITH MAXDOP = ") {
        return Ok(check_of(digits));
    }
    Ok(keyword_of(line))
}

/// The statement of a line.
#[tactic(auto, unfolding(crate::specs::Reading::statement_of))]
pub(crate) fn statement_of(alloc: Global, line: &[u8]) -> Result<Option<Statement>, NoMemory>
    ensures { IfOk result (λ statement. statement ≡ spec.statement_of line.now) }
{
    if let Some(words) = after(line, b"INSERT ") {
        return insert_of(alloc, words);
    }
    if let Some(word) = after(line, b"COUNT ") {
        return count_of(alloc, word);
    }
    if let Some(words) = after(line, b"SELECT ") {
        return select_of(alloc, words);
    }
    other_of(alloc, line)
}

/// The session and the count of a schedule's line.
#[tactic(auto, unfolding(crate::specs::Reading::turns_of))]
pub(crate) fn turns_of(sessions: u32, line: &[u8]) -> Option<(u32, u32)>
    ensures { result ≡ spec.turns_of sessions line.now }
{
    let (session, count) = cut_at_space(line)?;
    let session = number_within(1, sessions, session)?;
    let count = number_within(1, MOST_TURNS, count)?;
    Some((session, count))
}
