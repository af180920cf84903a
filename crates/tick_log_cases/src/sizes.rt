//! Logs of a real size, written and replayed a second time.
ghost use Rattle.std.specs.Prelude.{◌≡◌};
ghost use Rattle.gated_journal.specs.Journal.{HasLastGate};
ghost use Rattle.outside_mem.specs.MemDisk.{shown_by};
ghost use Rattle.tick_log.specs.Chunk.{IsLoggable};

use crate::update::{FILE, Found, found_on, trades};
use day_rows::{Entry, Schema};
use gated_journal::{Journal, State};
use outside_mem::MemDisk;
use schema_text::built_in_schema;
use std::alloc::Global;
use std::process::Abort;
use tick_log::{chunk_into, chunk_of, is_loggable};

// Logs the entry this many times, each chunk in the memory of the one before.
fn log_all(
    rt: &impl Abort,
    alloc: Global,
    disk: &mut MemDisk,
    journal: &mut Journal,
    schema: &Schema,
    entry: &Entry,
    count: usize,
) -> bool
    requires clean { journal.old.state ≡ State.Clean }
    requires has_gate { HasLastGate (shown_by disk.old) journal.old }
    requires loggable { IsLoggable schema.now entry.now }
{
    let mut chunk = chunk_of(alloc, schema, entry).expect(rt, "memory");
    for _ in 0..count {
        chunk = chunk_into(chunk, schema, entry).expect(rt, "memory");
        if chunk.is_empty() || journal.append(disk, &chunk).is_err() {
            return false;
        }
    }
    true
}

// A disk with a log of `count` updates of `rows` rows each.
fn logged(
    rt: &impl Abort,
    alloc: Global,
    schema: &Schema,
    count: usize,
    rows: usize,
) -> Option<MemDisk> {
    let entry = trades(rt, alloc, rows);
    let mut disk = MemDisk::new(alloc);
    let Ok(mut journal) = Journal::fresh(&mut disk, FILE) else {
        return None;
    };
    if !is_loggable(schema, &entry) {
        return None;
    }
    if log_all(rt, alloc, &mut disk, &mut journal, schema, &entry, count) {
        Some(disk)
    } else {
        None
    }
}

// What two replays of such a log find.
fn found_twice(rt: &impl Abort, alloc: Global, count: usize, rows: usize) -> (Found, Found) {
    let schema = built_in_schema(alloc).expect(rt, "memory");
    let Some(mut disk) = logged(rt, alloc, &schema, count, rows) else {
        return (Found::NoJournal, Found::NoJournal);
    };
    let first = found_on(rt, alloc, &mut disk, &schema);
    let second = found_on(rt, alloc, &mut disk, &schema);
    (first, second)
}

#[test]
fn a_hundred_thousand_updates(rt: HostRuntime) {
    let all = Found::Entries(100_000);
    assert!(rt; found_twice(&rt, rt.alloc(), 100_000, 1) == (all, all));
}

#[test]
fn a_hundred_updates_of_a_thousand_rows(rt: HostRuntime) {
    let all = Found::Entries(100);
    assert!(rt; found_twice(&rt, rt.alloc(), 100, 1_000) == (all, all));
}
