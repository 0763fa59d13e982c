//! Threads copy a page of 8 KB in turns, and under a lock of the standard library.
//!
//! With a word, as `times`, it prints what both cost. Without, it prints how many copies each kind made, which is the
//! same whatever the schedule.
#![tactic(auto)]

mod by_lock;
mod by_turn;
mod page;
mod times;
mod worker;

use by_lock::copies_by_lock;
use by_turn::copies_by_turn;
use std::alloc::Global;
use std::env;
use std::sync::Wait;
use std::thread::Threads;
use std::time::Clock;
use times::{THREADS, Times, measured, measured_beside_busy};

// Turns of a thread where times are measured, and where copies are counted alone.
const MEASURED: u32 = 100_000;

const COUNTED: u32 = 500;

fn print_times(rt: &impl Print, what: &str, times: Times) -> anyhow::Result<()> {
    let Times { by_turn, by_lock } = times;
    println!(rt; "{what}: by turns {by_turn} us, under the lock {by_lock} us")?;
    Ok(())
}

fn print_all_times<R: Threads + Wait + Clock + Print + Sync>(
    rt: &R,
    alloc: Global,
) -> anyhow::Result<()> {
    println!(rt; "{MEASURED} turns a thread, in each a copy of 8192 bytes")?;
    print_times(rt, "1 thread", measured(rt, alloc, 1, MEASURED)?)?;
    print_times(rt, "4 threads", measured(rt, alloc, THREADS, MEASURED)?)?;
    print_times(
        rt,
        "4 threads beside 8 that are busy",
        measured_beside_busy(rt, alloc, MEASURED)?,
    )?;
    Ok(())
}

fn print_counts<R: Threads + Wait + Print + Sync>(rt: &R, alloc: Global) -> anyhow::Result<()> {
    let by_turn = copies_by_turn(rt, alloc, THREADS, COUNTED)?;
    let by_lock = copies_by_lock(rt, alloc, THREADS, COUNTED)?;
    println!(rt; "{THREADS} threads, {COUNTED} turns each")?;
    println!(rt; "copies by turns: {by_turn}")?;
    println!(rt; "copies under the lock: {by_lock}")?;
    Ok(())
}

fn main(rt: HostRuntime) -> anyhow::Result<()> {
    let mut words = env::args(&rt)?;
    let _program = words.next();
    match words.next() {
        Some(_) => print_all_times(&rt, rt.alloc()),
        None => print_counts(&rt, rt.alloc()),
    }
}
