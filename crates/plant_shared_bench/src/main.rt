//! Times updates through a lock round a plant over a disk in memory, for `bench/lock.py`.
//!
//! `plant_shared_bench UPDATES ROWS` prints the nanoseconds of UPDATES updates of one row, logged by a pass that has the plant
//! to itself (`solo`), and by each of one, two and four threads through a lock (`feeds`); the same by one feed and by two,
//! each beside a reader that takes one snapshot after the other, with the number of snapshots (`beside`). Then it logs a day
//! of ROWS rows, and prints the longest update among UPDATES by one feed, without a reader and beside one (`longest`).
//!
//! ```text
//! $ rt run -- 100000 1000000
//! solo 1 NANOSECONDS
//! feeds 1 NANOSECONDS
//! feeds 2 NANOSECONDS
//! feeds 4 NANOSECONDS
//! beside 1 NANOSECONDS SNAPSHOTS
//! beside 2 NANOSECONDS SNAPSHOTS
//! longest 0 NANOSECONDS 0
//! longest 1 NANOSECONDS SNAPSHOTS
//! ```
//!
//! The program checks that each update was logged. It proves nothing about time, and nothing stands on it. Without two
//! arguments it prints nothing.
#![tactic(auto)]

ghost use Rattle.std.specs.Prelude.{◌≡◌, []};
ghost use Rattle.plant_shared.specs.Shared.{IsPass};

mod feeding;
mod plants;
mod reading;
mod request;

use crate::feeding::{feed_as, feed_by_four, feed_by_two, feed_solo};
use crate::plants::{opened, with_day};
use crate::reading::{beside_one, beside_two, longest_alone, longest_beside};
use anyhow::{Result, bail};
use day_rows::Schema;
use outside_mem::MemDisk;
use plant_shared::{Lock, PlantPass};
use std::alloc::Global;
use std::env;
use std::rt::Clock;
use std::sync::{Arc, Wait};
use std::thread::Threads;
use std::time::Instant;

// By the one pass of a plant.
fn solo<R: Clock + Print + Wait>(rt: &R, alloc: Global, count: u32) -> Result<()> {
    let start = Instant::now(rt)?;
    if !feed_solo(rt, alloc, count) {
        bail!("plant_shared_bench: an update was not logged")
    }
    let nanos = start.elapsed(rt)?.as_nanos();
    println!(rt; "solo 1 {nanos}")?;
    Ok(())
}

// Prints what updates by one thread, two or four take.
fn time_feeds<R: Clock + Print + Threads + Wait + Sync>(
    rt: &R,
    alloc: Global,
    lock: &Lock<MemDisk>,
    pass: PlantPass<MemDisk>,
    schema: &Arc<Schema>,
    count: u32,
    threads: u32,
) -> Result<()>
    requires pass { IsPass lock.now.id pass × (pass.mine ≡ []) }
    requires schema { schema.now.value ≡ lock.now.made.memory.frame.schema }
{
    let start = Instant::now(rt)?;
    let logged = match threads {
        1 => feed_as(rt, alloc, lock, pass, schema, count),
        2 => feed_by_two(rt, alloc, lock, pass, schema, count),
        _ => feed_by_four(rt, alloc, lock, pass, schema, count),
    };
    let nanos = start.elapsed(rt)?.as_nanos();
    if !logged {
        bail!("plant_shared_bench: an update was not logged")
    }
    println!(rt; "feeds {threads} {nanos}")?;
    Ok(())
}

// By one thread, two and four, each over a new plant.
fn feeds<R: Clock + Print + Threads + Wait + Sync>(
    rt: &R,
    alloc: Global,
    count: u32,
    threads: u32,
) -> Result<()> {
    let Some((lock, pass, schema)) = opened(rt, alloc)? else {
        bail!("plant_shared_bench: no lock")
    };
    time_feeds(rt, alloc, &lock, pass, &schema, count, threads)
}

// Prints what updates by one feed beside a reader, or by two beside two, take.
fn time_beside<R: Clock + Print + Threads + Wait + Sync>(
    rt: &R,
    alloc: Global,
    lock: &Lock<MemDisk>,
    pass: PlantPass<MemDisk>,
    schema: &Arc<Schema>,
    count: u32,
    pairs: u32,
) -> Result<()>
    requires pass { IsPass lock.now.id pass × (pass.mine ≡ []) }
    requires schema { schema.now.value ≡ lock.now.made.memory.frame.schema }
{
    let start = Instant::now(rt)?;
    let taken = match pairs {
        1 => beside_one(rt, alloc, lock, pass, schema, count),
        _ => beside_two(rt, alloc, lock, pass, schema, count),
    };
    let nanos = start.elapsed(rt)?.as_nanos();
    let Some(taken) = taken else {
        bail!("plant_shared_bench: an update was not logged")
    };
    println!(rt; "beside {pairs} {nanos} {taken}")?;
    Ok(())
}

// By one feed beside a reader, and by two beside two, each over a new plant.
fn beside<R: Clock + Print + Threads + Wait + Sync>(
    rt: &R,
    alloc: Global,
    count: u32,
    pairs: u32,
) -> Result<()> {
    let Some((lock, pass, schema)) = opened(rt, alloc)? else {
        bail!("plant_shared_bench: no lock")
    };
    time_beside(rt, alloc, &lock, pass, &schema, count, pairs)
}

// Prints the longest update of a feed over the plant's day, without a reader or beside one.
fn time_longest<R: Clock + Print + Threads + Wait + Sync>(
    rt: &R,
    alloc: Global,
    lock: &Lock<MemDisk>,
    pass: PlantPass<MemDisk>,
    schema: &Arc<Schema>,
    count: u32,
    readers: u32,
) -> Result<()>
    requires pass { IsPass lock.now.id pass × (pass.mine ≡ []) }
    requires schema { schema.now.value ≡ lock.now.made.memory.frame.schema }
{
    let found = match readers {
        0 => longest_alone(rt, alloc, lock, pass, schema, count),
        _ => longest_beside(rt, alloc, lock, pass, schema, count),
    };
    let Some((nanos, taken)) = found else {
        bail!("plant_shared_bench: an update was not logged")
    };
    println!(rt; "longest {readers} {nanos} {taken}")?;
    Ok(())
}

// The longest update over a day of this many rows, without a reader or beside one.
fn longest<R: Clock + Print + Threads + Wait + Sync>(
    rt: &R,
    alloc: Global,
    count: u32,
    rows: u32,
    readers: u32,
) -> Result<()> {
    let Some((lock, pass, schema)) = opened(rt, alloc)? else {
        bail!("plant_shared_bench: no lock")
    };
    let Some(pass) = with_day(rt, alloc, &lock, pass, &schema, rows) else {
        bail!("plant_shared_bench: the day was not logged")
    };
    time_longest(rt, alloc, &lock, pass, &schema, count, readers)
}

fn report<R: Clock + Print + Threads + Wait + Sync>(
    rt: &R,
    alloc: Global,
    count: u32,
    rows: u32,
) -> Result<()> {
    solo(rt, alloc, count)?;
    for threads in [1, 2, 4] {
        feeds(rt, alloc, count, threads)?;
    }
    for pairs in [1, 2] {
        beside(rt, alloc, count, pairs)?;
    }
    for readers in [0, 1] {
        longest(rt, alloc, count, rows, readers)?;
    }
    Ok(())
}

fn main(rt: HostRuntime) -> Result<()> {
    let mut words = env::args(&rt)?;
    let _program = words.next();
    let (Some(count), Some(rows)) = (words.next(), words.next()) else {
        return Ok(());
    };
    let (count, rows) = (
        count.as_str().parse::<u32>()?,
        rows.as_str().parse::<u32>()?,
    );
    report(&rt, rt.alloc(), count, rows)
}
