//! Times takes and gives of a `plant_lock`, for `bench/lock.py`.
//!
//! `lock_bench COUNT` prints the nanoseconds of COUNT takes and gives by one thread, and of COUNT by each of four threads
//! at once:
//!
//! ```text
//! lock 1 25150000
//! lock 4 1080180000
//! ```
//!
//! The first line is of one thread, the second of four. `bench/lock.py` sets them beside a ticket lock and a mutex in Rust.
//! That a take waits its turn is a contract of `plant_lock`; how long it waits is what is measured here.
//!
//! The state under the lock is a counter, so what is timed is the lock itself. The program checks at its end that each
//! take was counted. It proves nothing about time, and nothing stands on it. Without an argument it prints nothing.
#![tactic(auto)]

mod turns;

use crate::turns::{Turns, take_all, take_by_four};
use anyhow::{Result, bail};
use plant_lock::PlantLock;
use std::alloc::Global;
use std::env;
use std::rt::Clock;
use std::sync::Wait;
use std::thread::Threads;
use std::time::Instant;

fn report<R: Clock + Print + Threads + Wait + Sync>(
    rt: &R,
    alloc: Global,
    count: u32,
) -> Result<()> {
    let Ok((lock, pass)) = PlantLock::new(rt, alloc, Turns { taken: 0 }, 1) else {
        bail!("lock_bench: no memory")
    };
    let start = Instant::now(rt)?;
    let pass = take_all(rt, &lock, pass, count);
    let nanos = start.elapsed(rt)?.as_nanos();
    println!(rt; "lock 1 {nanos}")?;
    let start = Instant::now(rt)?;
    let pass = take_by_four(rt, &lock, pass, count);
    let nanos = start.elapsed(rt)?.as_nanos();
    println!(rt; "lock 4 {nanos}")?;
    let turns = lock.close(rt, pass);
    if turns.taken != u64::from(count).saturating_mul(5) {
        bail!("lock_bench: {} takes were counted", turns.taken)
    }
    Ok(())
}

fn main(rt: HostRuntime) -> Result<()> {
    let mut words = env::args(&rt)?;
    let _program = words.next();
    if let Some(count) = words.next() {
        report(&rt, rt.alloc(), count.as_str().parse::<u32>()?)?;
    }
    Ok(())
}
