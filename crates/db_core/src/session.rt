//! What the core keeps of each session.

use ck_facts::AllocMap;
use ck_scan::SteppedScan;
use spec_file::Resource;
use spec_plan::Planned;
use spec_script::{Reply, Statement};
use vol_pool::Frames;

/// How far a check has come.
#[derive(Drop)]
pub enum Phase {
    /// Items are being taken back.
    Back,
    /// It was found that none is left.
    Undone,
    /// The maps are read, and extents are being read by them.
    Scanning { map: AllocMap, scan: SteppedScan },
}

/// A check that is under way.
#[derive(Drop)]
pub struct Check {
    /// The number of its Snap.
    pub point: u64,
    /// The pages, from which the items of open transactions are being taken back.
    pub pages: Frames,
    /// The transactions that were open at the Snap.
    pub ongoing: Vec<u64>,
    /// How many of the log's first items may still have to be taken back.
    pub place: usize,
    pub phase: Phase,
}

/// What a session is in the middle of.
#[derive(Drop)]
pub enum Doing {
    /// Of no statement.
    Idle,
    /// Of changes. The transaction ends behind them where it is the statement's own.
    Changing {
        /// The change to be made next.
        next: Planned,
        /// Those behind it, the last first.
        later: Vec<Planned>,
        own: bool,
        /// What the statement answers behind them.
        reply: Reply,
    },
    /// Of the Commit of its transaction.
    Ending {
        reply: Reply,
    },
    /// Of undoing the changes of its transaction.
    Undoing,
    /// Of a check.
    Checking(Check),
}

/// A session.
#[derive(Drop)]
pub struct Session {
    /// Its statements.
    pub script: Vec<Statement>,
    /// What the finished ones answered.
    pub replies: Vec<Reply>,
    /// Its open transaction, 0 for none.
    pub tran: u64,
    /// The numbers of the changes of its transaction that aren't undone.
    pub left: Vec<u64>,
    /// What its transaction holds.
    pub held: Vec<Resource>,
    /// How many changes its transaction has announced.
    pub used: u64,
    pub doing: Doing,
}
