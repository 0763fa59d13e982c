ghost use Rattle.std.specs.Prelude.{◌≡◌};

use crate::Name;
use spec_check::CheckReport;
use spec_file::{Lsn, PageNo, Resource, Tran};
use spec_log::Values;
use std::alloc::Global;

/// What a statement answers (this project's own).
#[derive(Debug, Drop)]
pub enum Reply {
    /// The statement is done and has no rows to speak of.
    Done,
    /// How many rows were written, counted or found, and the payloads of those that were found.
    Rows {
        count: u64,
        payloads: Values<Values<u8>>,
    },
    /// The check of what was committed before item `lsn` of the log.
    Report {
        lsn: Lsn,
        report: CheckReport,
    },
    /// The check ended without a report.
    Terminated(Cause),
    /// The statement was refused and has changed nothing.
    Refused(Refusal),
}

/// Why a check ended without a report.
#[derive(Clone, Copy, Debug, PartialEq, Eq)]
pub enum Cause {
    /// The device failed in reading this page.
    Fault(PageNo),
    /// This page doesn't hold what an open transaction wrote.
    Damaged(PageNo),
}

/// Why a statement was refused. Fields that its number doesn't use are empty or 0 (numbers are chosen
/// after those of SQL Server; what each means is this project's own).
#[derive(Debug, Drop)]
pub struct Refusal {
    pub number: u16,
    /// The object that isn't there, or is there already.
    pub name: Name,
    /// The key that is there already.
    pub key: u64,
    /// The page that can't be read, or fails its test.
    pub page: PageNo,
    /// What another transaction holds, and which.
    pub resource: Option<Resource>,
    pub by: Tran,
}

impl Refusal {
    ghost use Rattle.spec_script.specs.Refusals.{plain_refusal};

    /// A refusal that names nothing.
    pub fn plain(alloc: Global, number: u16) -> Refusal
        ensures { result ≡ plain_refusal number }
    {
        Refusal {
            number,
            name: Name::empty(alloc),
            key: 0,
            page: PageNo(0),
            resource: None,
            by: Tran(0),
        }
    }
}
