// A worker of a check: what it has, and what it does with one extent and with all that it draws.
ghost use Rattle.std.specs.Prelude.{◌≡◌, ◌+◌, ◌/◌, true, false, None, OnOk, IsTrue, length};
ghost use Rattle.ck_claim.specs.Shown.{IsOf, with_seat};
ghost use Rattle.ck_facts.specs.Maps.{HasNoSystemErrors};
ghost use Rattle.ck_scan.specs.Found.{AreJoined, IsLike};
ghost use Rattle.ck_scan.specs.Working.{IsGoing, HasDrawn, HasWorked};

use crate::findings::Findings;
use crate::frame::Frame;
use crate::gate::{Gate, Point};
use crate::pages::find_in_extent;
use ck_claim::{ClaimSeat, Claims};
use ck_facts::AllocMap;
use pg_base::{NoMemory, ReadStop, SnapReader};
use std::alloc::Global;

/// What a worker has beside its reader: its right to draw, the page that it read last, what it found, and why it
/// stopped before all was drawn.
#[derive(Drop)]
pub struct Job {
    pub seat: ClaimSeat,
    pub frame: Frame,
    pub found: Findings,
    pub stop: Option<ReadStop>,
}

/// A reader and its job.
pub struct Worker<R> {
    pub reader: R,
    pub job: Job,
}

impl Job {
    /// Takes what another job drew and found. After want of memory it is to be given up.
    pub fn join(&mut self, claims: &Claims, other: Job) -> Result<(), NoMemory>
        requires of { IsOf claims.now self.old.seat }
        requires other { IsOf claims.now other.seat }
        requires like { IsLike self.old.found other.found }
        ensures seat { self.new.seat ≡ with_seat self.old.seat other.seat }
        ensures found { OnOk result (AreJoined self.old.found other.found self.new.found) }
        ensures like { IsLike self.old.found self.new.found }
    {
        let Job {
            seat,
            frame: _frame,
            found,
            stop: _stop,
        } = other;
        claims.join(&mut self.seat, seat);
        self.found.join(found)
    }
}

// Draws an extent and takes what its pages show. Whether there may be more to draw.
fn draw_one<R: SnapReader, G: Gate>(
    alloc: Global,
    claims: &Claims,
    map: &AllocMap,
    gate: &G,
    number: u32,
    worker: &mut Worker<R>,
) -> bool
    requires going { IsGoing R.SnapReader claims.now map.now worker.old }
    requires sound { HasNoSystemErrors map.now }
    requires count { claims.now.count ≡ map.now.pages / 8 }
    ensures drawn { HasDrawn R.SnapReader claims.now map.now worker.old worker.new }
    ensures going { IsTrue result → worker.new.job.stop ≡ None }
    ensures more { IsTrue result → length worker.new.job.seat.draws ≡ length worker.old.job.seat.draws + 1 }
    ensures all { result ≡ false → worker.new.job.stop ≡ None → worker.new.job.seat.knows_all ≡ true }
{
    let Some(e) = claims.draw(&mut worker.job.seat) else {
        return false;
    };
    gate.pass(Point::Extent {
        worker: number,
        extent: e,
    });
    match find_in_extent(
        alloc,
        &mut worker.reader,
        map,
        e,
        &mut worker.job.frame,
        &mut worker.job.found,
    ) {
        Ok(()) => true,
        Err(stop) => {
            worker.job.stop = Some(stop);
            false
        }
    }
}

/// Draws until all extents are drawn or a read stops. Since no two draws give the same extent, one more than there are
/// is never drawn.
pub fn work<R: SnapReader, G: Gate>(
    alloc: Global,
    claims: &Claims,
    map: &AllocMap,
    gate: &G,
    number: u32,
    worker: &mut Worker<R>,
)
    requires going { IsGoing R.SnapReader claims.now map.now worker.old }
    requires sound { HasNoSystemErrors map.now }
    requires count { claims.now.count ≡ map.now.pages / 8 }
    ensures { HasWorked R.SnapReader claims.now map.now worker.old worker.new }
{
    for drawn in 0..map.extents() + 1 {
        if !draw_one(alloc, claims, map, gate, number, worker) {
            return;
        }
    }
}
