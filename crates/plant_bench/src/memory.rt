//! The updates in memory alone, without a disk.

use crate::{DATE, NOW};
use anyhow::{Result, bail};
use plant_memory::{Memory, UpdRequest};
use q_values::Limits;
use schema_text::built_in_schema;
use std::alloc::Global;
use std::rt::Clock;
use std::time::Instant;

// Keeps the update `count` times, and answers whether each was kept.
fn keep_all(alloc: Global, memory: &mut Memory, request: &UpdRequest, count: u32) -> bool {
    for _ in 0..count {
        let Ok(update) = memory.prepare(alloc, 1, request, NOW) else {
            return false;
        };
        if update.rolls() {
            return false;
        }
        memory.commit(update);
    }
    true
}

// The number of entries once the updates are kept in memory, if each was.
fn kept(alloc: Global, request: &UpdRequest, count: u32) -> Option<u64> {
    let schema = built_in_schema(alloc).ok()?;
    let mut memory = Memory::begin(alloc, schema, DATE, &Limits::standard()).ok()?;
    if keep_all(alloc, &mut memory, request, count) {
        Some(memory.length())
    } else {
        None
    }
}

/// Prints the time that the updates take in memory alone, with their log records made and not written, and the entries.
pub fn keep_timed<R: Clock + Print>(
    rt: &R,
    alloc: Global,
    request: &UpdRequest,
    count: u32,
    rows: u32,
) -> Result<()> {
    let start = Instant::now(rt)?;
    let Some(length) = kept(alloc, request, count) else {
        bail!("an update was not kept");
    };
    let nanos = start.elapsed(rt)?.as_nanos();
    println!(rt; "{rows} memory {nanos} {length}")?;
    Ok(())
}
