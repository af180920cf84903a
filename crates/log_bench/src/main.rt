//! Times logging updates and replaying them, over a journal in a disk in memory. `bench/log.py` runs it, and sets its times
//! beside those of the same loops in Rust.
//!
//! `log_bench UPDATES ROWS` makes the chunk of an update of ROWS trades and appends it, UPDATES times, each chunk in the memory
//! of the one before; then it loads the journal and replays its records. It prints one line for each of the three: its name,
//! nanoseconds, and a number that no compiler can leave out.
//!
//! ```text
//! $ rt run -- 1000 1000
//! ROWS log NANOSECONDS BYTES
//! ROWS load NANOSECONDS RECORDS
//! ROWS replay NANOSECONDS UPDATES
//! ```
//!
//! A third argument says what else to do, so that the caller can compare the most memory that was taken: with `load` it doesn't
//! replay; with `day` it replays into a day, which it times in place of the replay; with `made` it makes that day of the
//! updates, without a log, and nothing else.
#![tactic(auto)]

ghost use Rattle.std.specs.Prelude.{◌≡◌};
ghost use Rattle.gated_journal.specs.Journal.{HasLastGate};
ghost use Rattle.outside_mem.specs.MemDisk.{shown_by};
ghost use Rattle.tick_log.specs.Chunk.{IsLoggable};

mod day;
mod updates;

use crate::day::{day_timed, made_timed};
use crate::updates::trades;
use anyhow::{Result, bail};
use day_rows::{Entry, Schema};
use gated_journal::{Journal, Records, State};
use outside_mem::MemDisk;
use q_values::NoMemory;
use schema_text::built_in_schema;
use std::alloc::Global;
use std::env;
use std::rt::Clock;
use std::time::Instant;
use tick_log::{chunk_into, chunk_of, is_loggable, replay};

/// The file of the log.
const FILE: u64 = 1_008_767;

// Logs the entry `count` times.
fn log_all(
    alloc: Global,
    disk: &mut MemDisk,
    journal: &mut Journal,
    schema: &Schema,
    entry: &Entry,
    count: u32,
) -> Result<bool, NoMemory>
    requires clean { journal.old.state ≡ State.Clean }
    requires has_gate { HasLastGate (shown_by disk.old) journal.old }
    requires loggable { IsLoggable schema.now entry.now }
{
    let mut chunk = chunk_of(alloc, schema, entry)?;
    for _ in 0..count {
        chunk = chunk_into(chunk, schema, entry)?;
        if chunk.is_empty() || journal.append(disk, &chunk).is_err() {
            return Ok(false);
        }
    }
    Ok(true)
}

// A disk with the log.
fn logged(alloc: Global, schema: &Schema, entry: &Entry, count: u32) -> Result<MemDisk> {
    let mut disk = MemDisk::new(alloc);
    let Ok(mut journal) = Journal::fresh(&mut disk, FILE) else {
        bail!("the disk failed");
    };
    if !is_loggable(schema, entry) {
        bail!("an update that no log can hold");
    }
    if !log_all(alloc, &mut disk, &mut journal, schema, entry, count)? {
        bail!("an append failed");
    }
    Ok(disk)
}

fn log_timed<R: Clock + Print>(
    rt: &R,
    alloc: Global,
    schema: &Schema,
    count: u32,
    rows: u32,
) -> Result<MemDisk> {
    let entry = trades(alloc, rows as usize)?;
    let start = Instant::now(rt)?;
    let disk = logged(alloc, schema, &entry, count)?;
    let nanos = start.elapsed(rt)?.as_nanos();
    let size = disk.bytes_of(FILE).len();
    println!(rt; "{rows} log {nanos} {size}")?;
    Ok(disk)
}

fn load_timed<R: Clock + Print>(
    rt: &R,
    alloc: Global,
    disk: &mut MemDisk,
    rows: u32,
) -> Result<Records> {
    let start = Instant::now(rt)?;
    let Ok((_journal, records)) = Journal::load(alloc, disk, FILE) else {
        bail!("no journal");
    };
    let nanos = start.elapsed(rt)?.as_nanos();
    let count = records.len();
    println!(rt; "{rows} load {nanos} {count}")?;
    Ok(records)
}

fn replay_timed<R: Clock + Print>(
    rt: &R,
    alloc: Global,
    schema: &Schema,
    records: &Records,
    rows: u32,
) -> Result<()> {
    let start = Instant::now(rt)?;
    let entries = replay(alloc, schema, records)?;
    let nanos = start.elapsed(rt)?.as_nanos();
    let count = entries.len();
    println!(rt; "{rows} replay {nanos} {count}")?;
    Ok(())
}

// Logs the updates and loads their journal, and then replays it as the word says.
fn log_and_read<R: Clock + Print>(
    rt: &R,
    alloc: Global,
    count: u32,
    rows: u32,
    word: Option<&str>,
) -> Result<()> {
    let schema = built_in_schema(alloc)?;
    let mut disk = log_timed(rt, alloc, &schema, count, rows)?;
    let records = load_timed(rt, alloc, &mut disk, rows)?;
    match word {
        None => replay_timed(rt, alloc, &schema, &records, rows),
        Some("day") => day_timed(rt, alloc, &schema, &records, rows),
        Some(_) => Ok(()),
    }
}

fn main(rt: HostRuntime) -> Result<()> {
    let mut arguments = env::args(&rt)?;
    let _program = arguments.next();
    let (Some(count), Some(rows)) = (arguments.next(), arguments.next()) else {
        return Ok(());
    };
    let (count, rows) = (
        count.as_str().parse::<u32>()?,
        rows.as_str().parse::<u32>()?,
    );
    let word = arguments.next();
    let word = word.as_ref().map(|word| word.as_str());
    if word == Some("made") {
        return made_timed(&rt, rt.alloc(), count, rows);
    }
    log_and_read(&rt, rt.alloc(), count, rows, word)
}
