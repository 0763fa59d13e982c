ghost use Rattle.std.specs.Prelude.{◌≡◌};

use sqlite_items::Items;

/// One error of a check. Fields that its number doesn't use are 0. Errors are ordered by their fields
/// in this order (numbers are chosen after those of DBCC CHECKDB; what each means is this project's
/// own).
#[derive(Clone, Copy, Debug, Default, PartialEq, Eq, PartialOrd, Ord)]
pub struct CheckError {
    pub number: u32,
    pub object: u32,
    pub page: u32,
    pub other: u32,
    pub slot: u32,
    pub value: u64,
}

impl CheckError {
    ghost use Rattle.spec_check.specs.Errors.{is_allocation};

    /// Whether the report's last line counts it as an allocation error; all others are consistency
    /// errors.
    pub fn is_allocation(&self) -> bool
        ensures { result ≡ is_allocation self.now }
    {
        matches!(
            self.number,
            2575 | 2577
                | 2579
                | 8903
                | 8904
                | 8905
                | 8906
                | 8910
                | 8913
                | 8914
                | 8946
                | 8947
                | 8948
                | 8959
                | 8968
                | 8969
                | 8998
        )
    }
}

/// How many rows and pages of an object the check has seen.
#[derive(Clone, Copy, Debug, PartialEq, Eq)]
pub struct TableLine {
    pub object: u32,
    pub rows: u64,
    pub pages: u64,
}

/// What a check reports: its errors, sorted and each once, and a line for each object by id.
#[derive(Debug, Drop)]
pub struct CheckReport {
    pub errors: Items<CheckError>,
    pub tables: Items<TableLine>,
}
