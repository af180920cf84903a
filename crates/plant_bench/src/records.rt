//! The log's records of the updates, made and not written.
ghost use Rattle.tick_log.specs.Chunk.{IsLoggable};

use crate::request::trades_entry;
use anyhow::{Result, bail};
use day_rows::{Entry, Schema};
use schema_text::built_in_schema;
use std::alloc::Global;
use std::rt::Clock;
use std::time::Instant;
use tick_log::{chunk_of, is_loggable};

// Makes the record of the entry `count` times, and gives the bytes of all; none where memory runs out.
fn make_all(alloc: Global, schema: &Schema, entry: &Entry, count: u32) -> Option<usize>
    requires { IsLoggable schema.now entry.now }
{
    let mut bytes = 0usize;
    for _ in 0..count {
        let chunk = chunk_of(alloc, schema, entry).ok()?;
        bytes = bytes.saturating_add(chunk.len());
    }
    Some(bytes)
}

// The bytes of the records of the updates, where each can be made.
fn made(alloc: Global, count: u32, rows: u32) -> Option<usize> {
    let schema = built_in_schema(alloc).ok()?;
    let entry = trades_entry(alloc, rows as usize).ok()?;
    if is_loggable(&schema, &entry) {
        make_all(alloc, &schema, &entry, count)
    } else {
        None
    }
}

/// Prints the time that the records of the updates take, and their bytes.
pub fn make_timed<R: Clock + Print>(rt: &R, alloc: Global, count: u32, rows: u32) -> Result<()> {
    let start = Instant::now(rt)?;
    let Some(bytes) = made(alloc, count, rows) else {
        bail!("a record was not made");
    };
    let nanos = start.elapsed(rt)?.as_nanos();
    println!(rt; "{rows} records {nanos} {bytes}")?;
    Ok(())
}
