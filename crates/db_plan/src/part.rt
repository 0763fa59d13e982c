//! How a statement is carried out.
ghost use Rattle.db_plan.specs.Parts.{IsPartOf};

use spec_script::Statement;

/// How a statement is carried out.
#[derive(Clone, Copy, Debug)]
pub enum Part {
    /// It opens a transaction.
    Begin,
    /// It commits one.
    Commit,
    /// It takes one back.
    Rollback,
    /// It is planned where its record stands.
    Planned,
    /// It is a check.
    Check,
}

/// How a statement is carried out.
pub fn part_of(statement: &Statement) -> Part
    ensures { IsPartOf statement.now result }
{
    match statement {
        Statement::Begin => Part::Begin,
        Statement::Commit => Part::Commit,
        Statement::Rollback => Part::Rollback,
        Statement::CreateHeap(_) => Part::Planned,
        Statement::Drop(_) => Part::Planned,
        Statement::Insert { .. } => Part::Planned,
        Statement::Count(_) => Part::Planned,
        Statement::Select { .. } => Part::Planned,
        Statement::Check { .. } => Part::Check,
    }
}
