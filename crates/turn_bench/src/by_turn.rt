// The copies by turns.
ghost use Rattle.std.specs.Prelude.{◌≡◌, ◌+◌, ◌<◌, ◌^◌, All, IfOk, OnOk, vec_len};
ghost use Rattle.turn_seat.specs.Shown.{IsOf};
ghost use Rattle.turn_bench.specs.Ready.{IsReady};

use crate::page::{Buffer, SharedPage};
use crate::worker::Worker;
use std::alloc::{AllocError, Global};
use std::sync::Wait;
use std::thread;
use std::thread::Threads;
use turn_seat::{Seat, Turn};

// So many turns of one thread, each with a copy inside.
pub fn take_turns<R: Wait>(
    rt: &R,
    turn: &Turn<SharedPage>,
    mut seat: Seat<SharedPage>,
    buffer: &mut Buffer,
    turns: u32,
) -> Seat<SharedPage>
    requires { IsOf turn.now seat }
    ensures { IsOf turn.now result × (result.parts ≡ seat.parts) }
{
    for _ in 0..turns {
        let mut inside = turn.enter(rt, seat);
        inside.state.copy_into(buffer);
        seat = turn.leave(inside);
    }
    seat
}

fn work<R: Wait>(rt: &R, turn: &Turn<SharedPage>, worker: &mut Worker, turns: u32)
    requires { IsReady turn.now worker.old }
    ensures { IsReady turn.now worker.new }
{
    let Some(seat) = worker.seat.take() else {
        unreachable!()
    };
    let seat = take_turns(rt, turn, seat, &mut worker.buffer, turns);
    worker.seat = Some(seat);
}

// A worker for each part of the seat but one.
fn workers(
    alloc: Global,
    turn: &Turn<SharedPage>,
    seat: &mut Seat<SharedPage>,
) -> Result<Vec<Worker>, AllocError>
    requires { IsOf turn.now seat.old }
    ensures seat { OnOk result (IsOf turn.now seat.new × (seat.new.parts ≡ 1)) }
    ensures workers { IfOk result (λ v. All (IsReady turn.now) v.items × (vec_len v + 1 ≡ seat.old.parts)) }
{
    let mut all = Vec::new(alloc);
    'parts: while seat.parts() > 1 {
        let buffer = Buffer::new(alloc)?;
        let Some(given) = turn.split(seat, 1) else {
            return Err(AllocError);
        };
        all.push(Worker {
            seat: Some(given),
            buffer,
        })?;
    }
    Ok(all)
}

// The seat takes in the seats of all workers.
fn gather(turn: &Turn<SharedPage>, seat: &mut Seat<SharedPage>, mut workers: Vec<Worker>)
    requires { IsOf turn.now seat.old × All (IsReady turn.now) workers.items }
    ensures { IsOf turn.now seat.new × (seat.new.parts ≡ seat.old.parts + vec_len workers) }
{
    while let Some(worker) = workers.pop() {
        let Worker {
            seat: given,
            buffer: _,
        } = worker;
        let Some(given) = given else { unreachable!() };
        turn.join(seat, given);
    }
}

fn work_all<R: Threads + Wait + Sync>(
    rt: &R,
    turn: &Turn<SharedPage>,
    workers: &mut [Worker],
    turns: u32,
)
    requires { All (IsReady turn.now) workers.old }
    ensures { All (IsReady turn.now) workers.new }
{
    thread::for_each_mut(rt, workers, 64, &|_, worker| work(rt, turn, worker, turns));
}

/// How many copies so many threads made, each in so many turns.
pub fn copies_by_turn<R: Threads + Wait + Sync>(
    rt: &R,
    alloc: Global,
    threads: u32,
    turns: u32,
) -> Result<u64, AllocError>
    requires { threads + 1 < 2 ^ 32 }
{
    let page = SharedPage::new(alloc)?;
    let Ok((turn, mut seat)) = Turn::begin(alloc, page, threads + 1) else {
        return Err(AllocError);
    };
    let mut all = workers(alloc, &turn, &mut seat)?;
    work_all(rt, &turn, all.as_mut_slice(), turns);
    gather(&turn, &mut seat, all);
    Ok(turn.close(seat).copies)
}
