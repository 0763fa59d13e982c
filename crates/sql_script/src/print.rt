// Statements as lines.
ghost use Rattle.std.specs.Prelude.{◌≡◌, ◌≤◌, ◌+◌, ◌++◌, IsTrue, codes, decimal, length, take, OnOk, OnErr};
ghost use Rattle.arrayvec.specs.ArrayString.{array_string_len};
ghost use Rattle.spec_script.specs.Lines.{is_statement, statement_line};

use arrayvec::ArrayString;
use itoa::Buffer;
use pg_base::{append, append_three};
use spec_file::NoMemory;
use spec_script::Statement;

const HEAD: usize = 64;

// The words of a line before a payload.
type Head = ArrayString<HEAD>;

fn push_number(head: &mut Head, n: u64)
    requires { array_string_len head.old + 20 ≤ HEAD }
    ensures bytes { head.new.bytes ≡ head.old.bytes ++ decimal n }
    ensures len { array_string_len head.new ≤ array_string_len head.old + 20 }
{
    let mut buffer = Buffer::new();
    head.push_str(buffer.format(n));
}

// Everything up to a row's payload.
fn insert_head(table: &str, key: u64) -> Head
    requires { length table.now ≤ 16 }
    ensures { result.bytes ≡ codes "INSERT " ++ (table.now ++ (codes " " ++ (decimal key ++ codes " '"))) }
{
    let mut head = Head::new();
    head.push_str("INSERT ");
    head.push_str(table);
    head.push_str(" ");
    push_number(&mut head, key);
    head.push_str(" '");
    head
}

// The line of a statement that names a table alone, behind these words.
fn table_line(words: &str, table: &str) -> Head
    requires words { length words.now ≤ 12 }
    requires table { length table.now ≤ 16 }
    ensures { result.bytes ≡ (words.now ++ table.now) ++ codes "\n" }
{
    let mut line = Head::new();
    line.push_str(words);
    line.push_str(table);
    line.push_str("\n");
    line
}

fn create_line(table: &str) -> Head
    requires { length table.now ≤ 16 }
    ensures { result.bytes ≡ (codes "CREATE HEAP " ++ table.now) ++ codes "\n" }
{
    table_line("CREATE HEAP ", table)
}

fn select_line(table: &str, key: u64) -> Head
    requires { length table.now ≤ 16 }
    ensures { result.bytes ≡ (codes "SELECT " ++ (table.now ++ (codes " " ++ decimal key))) ++ codes "\n" }
{
    let mut line = Head::new();
    line.push_str("SELECT ");
    line.push_str(table);
    line.push_str(" ");
    push_number(&mut line, key);
    line.push_str("\n");
    line
}

fn check_line(workers: u8) -> Head
    ensures { result.bytes ≡ (codes "DBCC CHECKDB WITH MAXDOP = " ++ decimal workers) ++ codes "\n" }
{
    let mut line = Head::new();
    line.push_str("DBCC CHECKDB WITH MAXDOP = ");
    push_number(&mut line, u64::from(workers));
    line.push_str("\n");
    line
}

/// Writes the line of a statement at the end, with its LF.
pub fn print_statement(statement: &Statement, into: &mut Vec<u8>) -> Result<(), NoMemory>
    requires { IsTrue (is_statement statement.now) }
    ensures ok { OnOk result (into.new.items ≡ into.old.items ++ (statement_line statement.now ++ codes "\n")) }
    ensures err { OnErr result (into.new.items ≡ into.old.items) }
{
    match statement {
        Statement::Begin => append(into, b"BEGIN\n"),
        Statement::Commit => append(into, b"COMMIT\n"),
        Statement::Rollback => append(into, b"ROLLBACK\n"),
        Statement::CreateHeap(table) => {
            append(into, create_line(table.as_str()).as_str().as_bytes())
        }
        Statement::Drop(table) => {
            let line = table_line("DROP ", table.as_str());
            append(into, line.as_str().as_bytes())
        }
        Statement::Insert {
            table,
            key,
            payload,
        } => {
            let head = insert_head(table.as_str(), *key);
            append_three(into, head.as_str().as_bytes(), payload.as_slice(), b"'\n")
        }
        Statement::Count(table) => {
            let line = table_line("COUNT ", table.as_str());
            append(into, line.as_str().as_bytes())
        }
        Statement::Select { table, key } => {
            append(into, select_line(table.as_str(), *key).as_str().as_bytes())
        }
        Statement::Check { workers } => append(into, check_line(*workers).as_str().as_bytes()),
    }
}
