// What turns and the lock cost, beside each other and beside busy threads.
ghost use Rattle.std.specs.Prelude.{◌+◌, ◌<◌, ◌^◌};

use crate::by_lock::copies_by_lock;
use crate::by_turn::copies_by_turn;
use std::alloc::Global;
use std::sync::Wait;
use std::sync::atomic::AtomicBool;
use std::sync::atomic::Ordering::SeqCst;
use std::thread::Threads;
use std::time::{Clock, Instant};
use std::{io, thread};

/// How many threads take turns at once.
pub const THREADS: u32 = 4;

/// How many threads are busy beside them.
pub const BUSY: usize = 8;

/// Microseconds by turns, and under the lock.
#[derive(Clone, Copy)]
pub struct Times {
    pub by_turn: u64,
    pub by_lock: u64,
}

fn micros_since(rt: &impl Clock, start: Instant) -> io::Result<u64> {
    let micros = start.elapsed(rt)?.as_micros();
    Ok(u64::try_from(micros).unwrap_or(u64::MAX))
}

/// The times of so many threads that copy a page so often each.
pub fn measured<R: Threads + Wait + Clock + Sync>(
    rt: &R,
    alloc: Global,
    threads: u32,
    turns: u32,
) -> io::Result<Times>
    requires { threads + 1 < 2 ^ 32 }
{
    let start = Instant::now(rt)?;
    copies_by_turn(rt, alloc, threads, turns)?;
    let by_turn = micros_since(rt, start)?;
    let start = Instant::now(rt)?;
    copies_by_lock(rt, alloc, threads, turns)?;
    let by_lock = micros_since(rt, start)?;
    Ok(Times { by_turn, by_lock })
}

// Counts until it is told to stop.
fn count_until<R: Wait>(rt: &R, stop: &AtomicBool, counted: &mut u64) {
    for _ in rt.forever() {
        *counted = counted.wrapping_add(1);
        if stop.load(SeqCst) {
            return;
        }
    }
    unreachable!()
}

fn keep_busy<R: Threads + Wait + Sync>(rt: &R, stop: &AtomicBool) {
    let mut counted = [0u64; BUSY];
    thread::for_each_mut(
        rt,
        &mut counted,
        BUSY,
        &|_, counted| count_until(rt, stop, counted),
    );
}

/// The same beside busy threads.
pub fn measured_beside_busy<R: Threads + Wait + Clock + Sync>(
    rt: &R,
    alloc: Global,
    turns: u32,
) -> io::Result<Times> {
    let stop = AtomicBool::new(false);
    let (_, times) = thread::join(
        rt,
        || keep_busy(rt, &stop),
        || {
            let times = measured(rt, alloc, THREADS, turns);
            stop.store(true, SeqCst);
            times
        },
    );
    times
}
