//! Replaying a log's records into a day.
ghost use Rattle.std.specs.Prelude.{◌≡◌, ◌≤◌, ◌+◌, [], ◌∷◌, ◌++◌, ℕ, length, map, take, IfOk, OnOk, OnErr};
ghost use Rattle.day_rows.specs.Day.{IsUpdate, entry_rows, total_rows};
ghost use Rattle.tick_log.specs.Replay.{AreChunks, NoChunkAt, IfCorrupt, AreCounts, by_of};

use crate::reading::entry_of;
use crate::refusal::{ChunkFault, ReplayRefusal};
use day_rows::{Entries, Entry, OpenDay, Schema};
use gated_journal::Records;
use q_values::NoMemory;
use std::alloc::Global;

/// What a replay counted.
#[derive(Clone, Copy, Debug, PartialEq, Eq)]
pub struct Replayed {
    /// The number of updates.
    pub updates: u64,
    /// The number of their rows, of all tables together.
    pub rows: u64,
    /// The greatest pass number of the updates, 0 where there are none.
    pub top_by: u64,
}

// The number of the pass that made an entry.
fn maker_of(entry: &Entry) -> u64
    ensures { result ≡ by_of entry.now }
{
    match entry {
        Entry::Upd { by, .. } | Entry::Roll { by, .. } | Entry::Fault { by } => *by,
    }
}

// A list of one entry.
fn sole(alloc: Global, entry: Entry) -> Result<Entries, NoMemory>
    ensures { IfOk result (λ entries. entries ≡ entry ∷ []) }
{
    let mut entries = Entries::with_capacity(alloc, 1)?;
    entries.push(entry)?;
    Ok(entries)
}

// The entry of a list of one.
fn sole_of(entries: Entries) -> Entry
    requires { length entries ≡ 1 }
    ensures { entries ≡ result ∷ [] }
{
    let mut items = entries.into_vec();
    items.swap_remove(0)
}

// Adds an update to a day.
fn add(alloc: Global, day: &mut OpenDay, entry: Entry) -> Result<(), NoMemory>
    requires update { IsUpdate day.old.day.kinds entry }
    requires bounded { total_rows day.old.day.updates + entry_rows entry ≤ 4294967295 }
    ensures ok { OnOk result (day.new.day ≡ record day.old.day { updates = day.old.day.updates ++ entry ∷ [] }) }
    ensures err { OnErr result (day.new.day ≡ day.old.day) }
{
    let entries = sole(alloc, entry)?;
    day.reserve(&entries)?;
    day.push(sole_of(entries));
    Ok(())
}

/// Adds the updates of a log's records, in order, to a day that has none, and counts them. Each is decoded straight into its
/// columns and then stored, so that beside the day only one update's columns are in memory; time is linear in the bytes of the
/// records.
///
/// The answer is [`ReplayRefusal::Corrupt`] exactly where a record is no chunk: with the number of chunks before it, and the
/// offset of its gate in the log's file. After an error the day has the updates of some first records.
pub fn replay_into(
    alloc: Global,
    schema: &Schema,
    records: &Records,
    day: &mut OpenDay,
) -> Result<Replayed, ReplayRefusal>
    requires kinds { day.old.day.kinds ≡ map (λ shape. shape.kinds) schema.now }
    requires none { day.old.day.updates ≡ [] }
    ensures updates { OnOk result (AreChunks schema.now 0 records.now day.new.day.updates) }
    ensures counts { IfOk result (AreCounts day.new.day.updates) }
    ensures corrupt { IfCorrupt result (λ chunks bytes. NoChunkAt schema.now records.now chunks bytes) }
    ensures some { OnErr result ((n : ℕ) × AreChunks schema.now 0 (take n records.now) day.new.day.updates) }
    ensures same { day.new.day ≡ record day.old.day { updates = day.new.day.updates } }
{
    let mut rows = 0;
    let mut top_by: u64 = 0;
    for i in 0..records.len() {
        match entry_of(alloc, schema, rows, records.at(i)) {
            Ok((entry, after)) => {
                let by = maker_of(&entry);
                add(alloc, day, entry)?;
                rows = after;
                top_by = top_by.max(by);
            }
            Err(ChunkFault::NoChunk) => {
                return Err(ReplayRefusal::Corrupt {
                    chunks: i as u64,
                    bytes: records.gate_of(i),
                });
            }
            Err(ChunkFault::NoMemory) => return Err(ReplayRefusal::NoMemory),
        }
    }
    Ok(Replayed {
        updates: records.len() as u64,
        rows,
        top_by,
    })
}
