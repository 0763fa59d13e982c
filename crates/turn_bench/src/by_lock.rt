// The same copies under a lock of the standard library.
use crate::page::{Buffer, SharedPage};
use std::alloc::{AllocError, Global};
use std::sync::{Mutex, Wait};
use std::thread;
use std::thread::Threads;

fn take_lock<R: Wait>(rt: &R, lock: &Mutex<SharedPage>, buffer: &mut Buffer, turns: u32) {
    for _ in 0..turns {
        lock.lock(rt).copy_into(buffer);
    }
}

/// How many copies so many threads made, each by taking the lock so often.
pub fn copies_by_lock<R: Threads + Wait + Sync>(
    rt: &R,
    alloc: Global,
    threads: u32,
    turns: u32,
) -> Result<u64, AllocError> {
    let lock = Mutex::new(SharedPage::new(alloc)?);
    let mut buffers = Vec::new(alloc);
    for _ in 0..threads {
        buffers.push(Buffer::new(alloc)?)?;
    }
    let shared = &lock;
    thread::for_each_mut(
        rt,
        buffers.as_mut_slice(),
        64,
        &|_, buffer: &mut Buffer| { take_lock(rt, shared, buffer, turns) },
    );
    Ok(lock.into_inner().copies)
}
