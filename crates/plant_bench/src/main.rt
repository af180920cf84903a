//! Times logging updates in a plant and loading that plant, over a disk in memory. `bench/load.py` runs it, and sets its
//! times beside those of loops in Rust that write and decode the same bytes.
//!
//! `plant_bench UPDATES ROWS` makes the log's record of an update of ROWS trades, UPDATES times, keeps the update as often in
//! memory alone, which makes its record too, and then logs it as often in a new plant with the built-in schema. Then it closes
//! the plant and loads it from its disk, three times. It prints one line for the records, with their bytes, one for the
//! updates in memory, with their number, one for those of the plant, with the bytes of their log, and one for each load, with
//! the entries of the plant.
//!
//! ```text
//! $ rt run -- 1000 1000
//! ROWS records NANOSECONDS BYTES
//! ROWS memory NANOSECONDS ENTRIES
//! ROWS log NANOSECONDS BYTES
//! ROWS load NANOSECONDS ENTRIES
//! ```
#![tactic(auto)]

mod memory;
mod records;
mod request;

use crate::memory::keep_timed;
use crate::records::make_timed;
use crate::request::trades;
use anyhow::{Result, bail};
use mem_plant::new_plant;
use outside_mem::MemDisk;
use plant_core::{Access, Plant, Solo, UpdTurn};
use plant_memory::UpdRequest;
use q_values::Limits;
use schema_text::built_in_schema;
use std::alloc::Global;
use std::env;
use std::rt::Clock;
use std::sync::Wait;
use std::time::Instant;

/// The date of the plant: 2024.01.02, in days since 2000.01.01.
const DATE: i32 = 8_767;

/// 2024.01.02D09:30, in nanoseconds since 2000.01.01.
const NOW: i64 = 757_503_000_000_000_000;

/// The file of the log.
const FILE: u64 = 1_008_767;

// Logs the update `count` times, and answers whether each was logged.
fn log_all<R: Wait>(
    rt: &R,
    alloc: Global,
    solo: &mut Solo<MemDisk>,
    request: &UpdRequest,
    count: u32,
) -> bool {
    for _ in 0..count {
        let UpdTurn::Logged { .. } = solo.upd(rt, alloc, request, NOW) else {
            return false;
        };
    }
    true
}

// The only pass of a new plant.
fn begun(alloc: Global) -> Option<Solo<MemDisk>> {
    let schema = built_in_schema(alloc).ok()?;
    let plant = new_plant(alloc, schema, DATE, &Limits::standard()).ok()?;
    if plant.next_by() == 1 {
        Some(Solo::new(plant))
    } else {
        None
    }
}

// The disk of a new plant that has logged the updates.
fn logged<R: Wait>(rt: &R, alloc: Global, request: &UpdRequest, count: u32) -> Option<MemDisk> {
    let mut solo = begun(alloc)?;
    let all = log_all(rt, alloc, &mut solo, request, count);
    let disk = solo.into_plant().close();
    if all { Some(disk) } else { None }
}

// The disk of a plant that has logged the updates. Prints the time that they took.
fn log_timed<R: Clock + Print + Wait>(
    rt: &R,
    alloc: Global,
    request: &UpdRequest,
    count: u32,
    rows: u32,
) -> Result<MemDisk> {
    let start = Instant::now(rt)?;
    let Some(disk) = logged(rt, alloc, request, count) else {
        bail!("an update was not logged");
    };
    let nanos = start.elapsed(rt)?.as_nanos();
    let size = disk.bytes_of(FILE).len();
    println!(rt; "{rows} log {nanos} {size}")?;
    Ok(disk)
}

// The disk of the plant that is loaded from it, and the number of its entries.
fn loaded(alloc: Global, disk: MemDisk) -> Option<(MemDisk, u64)> {
    let schema = built_in_schema(alloc).ok()?;
    let plant = Plant::load(alloc, disk, schema, DATE, &Limits::standard()).ok()?;
    let length = plant.length();
    Some((plant.close(), length))
}

// Loads the plant of the disk, and returns the disk. Prints the time that the load took.
fn load_timed<R: Clock + Print>(
    rt: &R,
    alloc: Global,
    disk: MemDisk,
    rows: u32,
) -> Result<MemDisk> {
    let start = Instant::now(rt)?;
    let Some((disk, length)) = loaded(alloc, disk) else {
        bail!("no plant");
    };
    let nanos = start.elapsed(rt)?.as_nanos();
    println!(rt; "{rows} load {nanos} {length}")?;
    Ok(disk)
}

// Keeps the updates in memory, and returns the disk of a plant that has logged them.
fn keep_and_log<R: Clock + Print + Wait>(
    rt: &R,
    alloc: Global,
    count: u32,
    rows: u32,
) -> Result<MemDisk> {
    let request = trades(alloc, rows as usize)?;
    keep_timed(rt, alloc, &request, count, rows)?;
    log_timed(rt, alloc, &request, count, rows)
}

// Makes the updates' records, keeps them in memory, logs them, and loads their plant three times.
fn time_all<R: Clock + Print + Wait>(rt: &R, alloc: Global, count: u32, rows: u32) -> Result<()> {
    make_timed(rt, alloc, count, rows)?;
    let mut disk = keep_and_log(rt, alloc, count, rows)?;
    for _ in 0..3 {
        disk = load_timed(rt, alloc, disk, rows)?;
    }
    Ok(())
}

fn main(rt: HostRuntime) -> Result<()> {
    let mut arguments = env::args(&rt)?;
    let _program = arguments.next();
    let (Some(count), Some(rows)) = (arguments.next(), arguments.next()) else {
        return Ok(());
    };
    let (count, rows) = (
        count.as_str().parse::<u32>()?,
        rows.as_str().parse::<u32>()?,
    );
    time_all(&rt, rt.alloc(), count, rows)
}
