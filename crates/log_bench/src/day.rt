//! A day that a log is replayed into, and the same day made without a log.

ghost use Rattle.std.specs.Prelude.{◌≡◌, [], ◌∷◌, length, map, IfOk};

use crate::updates::trades;
use anyhow::{Result, bail};
use day_rows::{Entries, Entry, OpenDay, Schema};
use gated_journal::Records;
use schema_text::built_in_schema;
use std::alloc::Global;
use std::rt::Clock;
use std::time::Instant;
use tick_log::replay_into;

/// The date of the days.
const DATE: i32 = 8_767;

/// Replays the records into a day.
pub fn day_timed<R: Clock + Print>(
    rt: &R,
    alloc: Global,
    schema: &Schema,
    records: &Records,
    rows: u32,
) -> Result<()> {
    let mut day = OpenDay::new(alloc, schema, DATE)?;
    let start = Instant::now(rt)?;
    replay_into(alloc, schema, records, &mut day)?;
    let nanos = start.elapsed(rt)?.as_nanos();
    let count = records.len();
    println!(rt; "{rows} day {nanos} {count}")?;
    Ok(())
}

// The one entry of a list.
fn entry_of(entries: Entries) -> Entry
    requires { length entries ≡ 1 }
    ensures { entries ≡ result ∷ [] }
{
    let mut items = entries.into_vec();
    items.swap_remove(0)
}

// A list of an update.
fn sole(alloc: Global, rows: u32) -> Result<Entries>
    ensures { IfOk result (λ entries. length entries ≡ 1) }
{
    let mut entries = Entries::new(alloc);
    entries.push(trades(alloc, rows as usize)?)?;
    Ok(entries)
}

// Adds an update to the day.
fn add(alloc: Global, day: &mut OpenDay, rows: u32) -> Result<()> {
    let entries = sole(alloc, rows)?;
    if !day.admits(&entries) {
        bail!("an update that no day can hold");
    }
    day.reserve(&entries)?;
    day.push(entry_of(entries));
    Ok(())
}

/// Makes the day of `count` updates of `rows` rows.
pub fn made_timed<R: Clock + Print>(rt: &R, alloc: Global, count: u32, rows: u32) -> Result<()> {
    let schema = built_in_schema(alloc)?;
    let mut day = OpenDay::new(alloc, &schema, DATE)?;
    let start = Instant::now(rt)?;
    for _ in 0..count {
        add(alloc, &mut day, rows)?;
    }
    let nanos = start.elapsed(rt)?.as_nanos();
    println!(rt; "{rows} made {nanos} {count}")?;
    Ok(())
}
