use pg_base::Geometry;
use spec_file::Resource;
use spec_log::Values;
use spec_plan::Planned;
use spec_script::Reply;

/// A statement as it was planned.
#[derive(Debug, Drop)]
pub enum Plan {
    /// It only reads, and answers this.
    Read(Reply),
    /// It writes: what it answers, what it takes, and its changes, each in the order of the log.
    Written {
        reply: Reply,
        takes: Values<Resource>,
        changes: Vec<Planned>,
    },
}

/// What a statement is planned by beside its view: the file's form, and the sums that are limited.
#[derive(Clone, Copy, Debug)]
pub struct PlanAt {
    pub geometry: Geometry,
    /// How many pages the file has.
    pub pages: u32,
    /// How many changes its transaction has announced.
    pub used_changes: u64,
    /// How many changes the log announces.
    pub announced_changes: u64,
    /// The bytes of these changes, and of an Undo for each.
    pub announced_bytes: u64,
}
