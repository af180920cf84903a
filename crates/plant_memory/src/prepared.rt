//! What is prepared before a plant changes, so that the change itself takes no memory and can't fail.
ghost use Rattle.std.specs.Prelude.{◌≡◌, ◌+◌, ◌<◌, ◌≤◌, ◌^◌, ◌<ℤ◌, ◌≤ℤ◌, ℕ, pos, [], ◌∷◌, length, IfOk, if◌then◌else◌};
ghost use Rattle.day_rows.specs.Chronicle.{date_of};
ghost use Rattle.day_rows.specs.Day.{IsUpdate, entry_rows, total_rows};
ghost use Rattle.plant_memory.specs.Chronicle.{by_of, today};
ghost use Rattle.plant_memory.specs.Memory.{kinds_of};
ghost use Rattle.tick_log.specs.Chunk.{IsChunk};

use crate::history::History;
use crate::memory::Memory;
use day_rows::{Entries, Entry, OpenDay};
use q_values::NoMemory;
use std::alloc::Global;
use std::marker::Model;
use std::snapshot::Snapshot;
use tick_log::Chunk;

/// An update that may be logged, with its log record and the room for it.
#[derive(Drop)]
pub struct Prepared {
    /// The plant as it was when the update was prepared; takes no memory.
    pub(crate) of: Snapshot<Memory>,
    /// The number of the pass that asked for the update.
    pub(crate) by: u64,
    /// The entry to log.
    pub(crate) entry: Entry,
    /// Its log record.
    pub(crate) chunk: Chunk,
    /// Where a roll is due before the update: the next date, with room for the entry.
    pub(crate) fresh: Option<OpenDay>,
}

impl Model for Prepared {
    ghost use Rattle.std.specs.Prelude.{is_some};
    ghost use Rattle.plant_memory.specs.Memory.{PreparedView, IsPrepared};

    ghost Value = { PreparedView };

    ghost view = { λ p. record { frame = p.of.value.frame; entries = p.of.value.entries; rolls = is_some p.fresh; by = p.by; entry = p.entry } };

    ghost invariant = { λ p. IsPrepared p.of.value p.by p.entry p.fresh p.chunk.bytes };
}

impl Prepared {
    /// Whether the open date ends before the update, since the update's moment lies in the next one.
    pub fn rolls(&self) -> bool
        ensures { result ≡ self.now.rolls }
    {
        self.fresh.is_some()
    }

    /// The number of the pass that asked for the update.
    pub fn by(&self) -> u64
        ensures value { result ≡ self.now.by }
        ensures few { self.now.by + 1 < 2 ^ 64 }
        ensures short { length self.now.entries < 2 ^ 63 }
    {
        self.by
    }

    /// The update's log record, which has bytes.
    pub fn chunk(&self) -> &Chunk
        ensures chunk { (before : ℕ) → before + entry_rows self.now.entry ≤ 4294967295
            → IsChunk self.now.frame.schema before result.now.bytes self.now.entry }
        ensures some { 0 < length result.now.bytes }
        ensures bounded { (if self.now.rolls then 0 else total_rows (today self.now.entries)) + entry_rows self.now.entry ≤ 4294967295 }
        ensures update { IsUpdate (kinds_of self.now.frame.schema) self.now.entry }
        ensures own { by_of self.now.entry ≡ self.now.by }
        ensures by { self.now.by + 1 < 2 ^ 64 }
    {
        &self.chunk
    }
}

/// The end of the open date, and the dates as they are after it.
#[derive(Drop)]
pub struct PreparedRoll {
    /// The plant as it was when the roll was prepared; takes no memory.
    pub(crate) of: Snapshot<Memory>,
    /// The number of the pass that asked for the roll.
    pub(crate) by: u64,
    /// The later date that it opens, in days since 2000.01.01.
    pub(crate) date: i32,
    /// The dates after the roll.
    pub(crate) next: History,
}

impl Model for PreparedRoll {
    ghost use Rattle.plant_memory.specs.Memory.{PreparedRollView, IsPreparedRoll};

    ghost Value = { PreparedRollView };

    ghost view = { λ p. record { frame = p.of.value.frame; entries = p.of.value.entries; by = p.by; date = p.date } };

    ghost invariant = { λ p. IsPreparedRoll p.of.value p.by p.date p.next };
}

impl PreparedRoll {
    /// The number of the pass that asked for the roll.
    pub fn by(&self) -> u64
        ensures value { result ≡ self.now.by }
        ensures few { self.now.by + 1 < 2 ^ 64 }
        ensures short { length self.now.entries < 2 ^ 63 }
    {
        self.by
    }

    /// The date that the roll opens, in days since 2000.01.01.
    pub fn date(&self) -> i32
        ensures value { result ≡ self.now.date }
        ensures later { date_of self.now.frame.first self.now.entries <ℤ self.now.date }
        ensures last { self.now.date ≤ℤ pos 106751 }
    {
        self.date
    }
}

/// A list of one entry.
pub fn sole(alloc: Global, entry: Entry) -> Result<Entries, NoMemory>
    ensures { IfOk result (λ entries. entries ≡ entry ∷ []) }
{
    let mut entries = Entries::new(alloc);
    entries.push(entry)?;
    Ok(entries)
}

/// The one entry of a list.
pub fn entry_of(entries: Entries) -> Entry
    requires { length entries ≡ 1 }
    ensures { entries ≡ result ∷ [] }
{
    let mut items = entries.into_vec();
    items.swap_remove(0)
}
