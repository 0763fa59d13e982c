// What holds of all scripts and schedules.
ghost use Rattle.std.specs.Prelude.{ℕ, List, ◌<◌, ◌^◌};
ghost use Rattle.spec_script.specs.Lines.{IsStatementLine, IsTurnsLine};
ghost use Rattle.spec_script.specs.declared.statement.Statement.{Statement};
ghost use Rattle.sql_script.specs.Laws.{SaysOne, IsNeverBoth, HasOneFault, IsReadAgain};

/// A text is a script of one list of statements at most, or has one first wrong line, and never both.
/// What is printed is read again.
pub fn script_law()
    ensures one { SaysOne IsStatementLine }
    ensures never_both { IsNeverBoth IsStatementLine }
    ensures one_fault { HasOneFault IsStatementLine }
    ensures again { (statements : List Statement) → IsReadAgain statements }
{}

/// The same of schedules.
pub fn schedule_law()
    ensures one { (sessions : ℕ) → sessions < 2 ^ 32 → SaysOne (IsTurnsLine sessions) }
    ensures never_both { (sessions : ℕ) → IsNeverBoth (IsTurnsLine sessions) }
    ensures one_fault { (sessions : ℕ) → HasOneFault (IsTurnsLine sessions) }
{}
