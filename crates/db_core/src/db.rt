//! The core, as the crates above see it.
ghost use Rattle.std.specs.Prelude.{◌≡◌, ◌+◌, ◌-◌, ◌<◌, ◌≤◌, ◌++◌, [], length, map, reverse, slice_get, Some, IfOk, List, ℕ, true, false};
ghost use Rattle.spec_script.specs.declared.limits.TheConstants.{MOST_LINES};
ghost use Rattle.std.specs.List.{list_any};
ghost use Rattle.law_run.specs.Laws.{IsStart};
ghost use Rattle.spec_log.specs.Cells.{HasWholePages};
ghost use Rattle.spec_log.specs.Images.{final_image};
ghost use Rattle.spec_log.specs.Items.{has_form};
ghost use Rattle.spec_script.specs.Lines.{is_statement};
ghost use Rattle.spec_script.specs.declared.statement.Statement.{Statement as AnyStatement};
ghost use Rattle.spec_run.specs.Entries.{items_of};
ghost use Rattle.spec_run.specs.Turns.{AreTold, told_to, IsLegal, IsWhole};
ghost use Rattle.spec_file.specs.Places.{HasShape};
ghost use Rattle.spec_run.specs.Bounds.{TakesTurn, RunWithin};
ghost use Rattle.spec_run.specs.Answers.{is_terminated};
ghost use Rattle.spec_run.specs.Schedules.{rest_from, turns_of};
ghost use Rattle.spec_run.specs.Openings.{geometry_said, setting_of};
ghost use Rattle.spec_run.specs.Progress.{script_of};
ghost use Rattle.db_core.specs.States.{TurnIn, left_in};
ghost use Rattle.db_core.specs.Store.{SaysOut};
ghost use Rattle.spec_log.specs.declared.item.Record.{Record as AnyRecord};

use crate::TurnOut;
use crate::advance::advance;
use crate::begin::{room_for_all, sessions_of};
use crate::bytes::are_of_bytes;
use crate::replay::{finish_all, run_schedule};
use crate::state::State;
use spec_file::NoMemory;
use spec_log::Record;
use spec_script::{Reply, Statement};
use std::alloc::Global;
use std::marker::Model;
use std::snapshot::Snapshot;
use vol_pool::Frames;

/// Sessions that take turns over one file and one log, which is empty when they begin. All is in memory.
#[derive(Drop)]
pub struct Core {
    state: State,
}

impl Model for Core {
    ghost use Rattle.db_core.specs.States.{Db};
    ghost use Rattle.db_core.specs.Store.{IsGood, db_of};

    ghost Value = { Db };

    ghost view = { λ c. db_of c.state };

    ghost invariant = { λ c. IsGood c.state };
}

impl Core {
    /// Sessions with these scripts that have done nothing yet, over a file of the geometry that its page 0
    /// says. All room that BEGIN, COMMIT, ROLLBACK and a refusal need later is taken here.
    pub fn begin(
        alloc: Global,
        frames: Frames,
        scripts: Vec<Vec<Statement>>,
    ) -> Result<Core, NoMemory>
        requires whole { HasWholePages frames }
        requires shape { HasShape (geometry_said frames) (length frames) }
        requires few { length scripts.items ≤ 16 }
        requires short { (k : ℕ) (script : List AnyStatement) → slice_get (map (λ s. s.items) scripts.items) k ≡ Some script → length script ≤ MOST_LINES }
        requires proper { (k n : ℕ) (script : List AnyStatement) (st : AnyStatement) → slice_get (map (λ s. s.items) scripts.items) k ≡ Some script → slice_get script n ≡ Some st → is_statement st ≡ true }
        ensures { IfOk result (λ core. (core.run ≡ setting_of frames (map (λ s. s.items) scripts.items)) × (core.entries ≡ []) × ((s : ℕ) → left_in core s ≡ 0) × IsStart core.run) }
    {
        are_of_bytes(&frames);
        let sessions = sessions_of(alloc, scripts)?;
        let mut items = Vec::new(alloc);
        let owed = room_for_all(&mut items, &sessions)?;
        Ok(Core {
            state: State {
                alloc,
                base: Snapshot::of(&frames),
                first: Snapshot::of(&sessions),
                items,
                frames,
                sessions,
                last: 0,
                all: 0,
                size: 0,
                owed,
            },
        })
    }

    /// A turn of a session, counted from 1. Want of memory is a statement's answer, never the turn's.
    pub fn turn(&mut self, session: u32) -> TurnOut
        requires above { 0 < session }
        requires within { session ≤ length self.old.run.scripts }
        ensures turn { TurnIn session self.old self.new }
        ensures says { SaysOut self.old.run session (items_of self.old.entries) (items_of self.new.entries) result }
        ensures bound { TakesTurn self.old.run session self.old.entries self.new.entries (left_in self.old) (left_in self.new) }
    {
        advance(&mut self.state, session as usize - 1)
    }

    /// The turns of a schedule, and then each session, rising, to its end.
    pub fn replay(&mut self, schedule: &[(u32, u32)])
        requires { (k : ℕ) (p : ℕ × ℕ) → slice_get schedule.now k ≡ Some p → (0 < p.0) × (p.0 ≤ length self.old.run.scripts) }
        ensures same { self.new.run ≡ self.old.run }
        ensures run { (counts : List ℕ) × (length counts ≡ length self.old.run.scripts) × RunWithin self.old.run (left_in self.old) self.old.entries (turns_of schedule.now ++ rest_from 1 counts) (left_in self.new) self.new.entries }
        ensures whole { IsWhole self.new.run self.new.entries }
    {
        run_schedule(&mut self.state, schedule);
        finish_all(&mut self.state);
    }

    /// How many sessions there are.
    pub fn sessions(&self) -> u32
        ensures { result ≡ length self.now.run.scripts }
    {
        self.state.sessions.len() as u32
    }

    /// The statements of a session.
    pub fn script(&self, session: u32) -> &[Statement]
        requires above { 0 < session }
        requires within { session ≤ length self.now.run.scripts }
        ensures { result.now ≡ script_of self.now.run.scripts session }
    {
        &self.state.sessions[session as usize - 1].script
    }

    /// What the finished statements of a session answered, in order. No check is terminated, since the log
    /// was empty when the sessions began, and all pages are in memory.
    pub fn replies(&self, session: u32) -> &[Reply]
        requires above { 0 < session }
        requires within { session ≤ length self.now.run.scripts }
        ensures told { AreTold self.now.run.geometry (told_to self.now.run session (items_of self.now.entries)) result.now }
        ensures few { length result.now ≤ MOST_LINES }
        ensures reported { list_any is_terminated result.now ≡ false }
    {
        &self.state.sessions[session as usize - 1].replies
    }

    /// The items so far, the oldest first.
    pub fn items(&self) -> &[Record]
        ensures items { reverse result.now ≡ items_of self.now.entries }
        ensures legal { IsLegal self.now.run (items_of self.now.entries) }
        ensures forms { (k : ℕ) (x : AnyRecord) → slice_get result.now k ≡ Some x → has_form x ≡ true }
    {
        &self.state.items
    }

    /// The pages as they stand.
    pub fn frames(&self) -> &Frames
        ensures { result.now ≡ final_image self.now.run.opened (items_of self.now.entries) self.now.run.image }
    {
        &self.state.frames
    }
}
