//! A plant: one list of updates and rolls, to which entries are only ever appended, in memory and on a disk.
ghost use Rattle.std.specs.Prelude.{◌≡◌, ◌<◌, ◌≤◌, ◌+◌, ◌^◌, ◌<ℤ◌, ◌≤ℤ◌, ◌+ℤ◌, pos, true, length, IfOk, IfErr, OnOk, OnErr, Option};
ghost use Rattle.q_values.specs.Limits.{AreLimits};
ghost use Rattle.q_values.specs.Tree.{trees};
ghost use Rattle.day_rows.specs.Chronicle.{date_of};
ghost use Rattle.plant_memory.specs.Chronicle.{top_by, index_after_roll};
ghost use Rattle.plant_memory.specs.Memory.{Prepares};
ghost use Rattle.plant_memory.specs.Turns.{IsRefusal};
ghost use Rattle.plant_memory.specs.Verdict.{verdict};
ghost use Rattle.plant_core.specs.Plant.{IsSound, LeavesDisk, shown_by};

use date_logs::DateLogs;
use day_rows::Schema;
use outside_api::Disk;
use plant_memory::{Memory, Prepared, PreparedRoll, Snapshot, Tail, UpdRefusal, UpdRequest};
use q_values::{Limits, NoMemory};
use std::alloc::Global;
use std::marker::Model;

/// A plant over a disk (KX, tick.q and r.q). Contracts see its entries in memory, its logs, and the disk as it is and as it
/// was when the plant was loaded.
///
/// Its log is its chronicle without the faults. Whatever a restart finds of the disk, at any moment, is that log, or the log
/// and one late entry: that of a commit that failed, and after which none succeeded. `IsSound` says so.
#[derive(Drop)]
pub struct Plant<D: Disk> {
    /// The entries in memory, faults included.
    pub(crate) memory: Memory,
    /// The log on the disk.
    pub(crate) logs: DateLogs,
    /// The disk, to which nobody else writes.
    pub(crate) disk: D,
    /// The disk as it was when the plant was loaded, for contracts alone; takes no memory.
    pub(crate) origin: std::snapshot::Snapshot<D>,
}

impl<D: Disk> Model for Plant<D> {
    ghost use Rattle.plant_core.specs.Plant.{PlantView, IsPlant};

    ghost Value = { PlantView D };

    ghost view = { λ p. record { memory = p.memory; logs = p.logs; disk = p.disk; origin = p.origin.value } };

    ghost invariant = { λ p. IsPlant (record { memory = p.memory; logs = p.logs; disk = D.shown p.disk; origin = D.shown p.origin.value }) };
}

// The date after this one.
fn next_date(date: i32) -> i32
    requires { date <ℤ pos 106751 }
    ensures value { result ≡ date +ℤ pos 1 }
    ensures last { result ≤ℤ pos 106751 }
{
    date + 1
}

impl<D: Disk> Plant<D> {
    /// 1 plus the greatest pass number of the chronicle.
    pub fn next_by(&self) -> u64
        ensures { result ≡ top_by self.now.memory.entries + 1 }
    {
        self.memory.next_by()
    }

    /// The open date, in days since 2000.01.01.
    pub fn date(&self) -> i32
        ensures { result ≡ date_of self.now.memory.frame.first self.now.memory.entries }
    {
        self.memory.date()
    }

    /// The number of entries.
    pub fn length(&self) -> u64
        ensures value { result ≡ length self.now.memory.entries }
        ensures sound { IsSound (shown_by D.shown self.now) }
    {
        date_logs::stored_entries_restart();
        self.memory.length()
    }

    /// The index of the first entry after the last roll, or 0 where there is no roll.
    pub fn opened_at(&self) -> u64
        ensures { result ≡ index_after_roll self.now.memory.entries }
    {
        self.memory.opened_at()
    }

    /// The tables.
    pub fn schema(&self) -> &Schema
        ensures { result.now ≡ self.now.memory.frame.schema }
    {
        self.memory.schema()
    }

    /// The limits.
    pub fn limits(&self) -> Limits
        ensures value { result ≡ self.now.memory.frame.limits }
        ensures lawful { AreLimits self.now.memory.frame.limits }
    {
        self.memory.limits()
    }

    /// Judges an update of the pass `by`, and makes its log record and room for it, for the roll that may be due before it, and
    /// for the fault that may come in its place. The chronicle and the disk stay as they are.
    /// `now` is in nanoseconds since 2000.01.01.
    pub fn prepare(
        &mut self,
        alloc: Global,
        by: u64,
        request: &UpdRequest,
        now: i64,
    ) -> Result<Prepared, UpdRefusal>
        requires { by + 1 < 2 ^ 64 }
        ensures ok { IfOk result (λ update. Prepares self.old.memory self.new.memory by request.now.table (trees request.now.items) now update) }
        ensures refused { IfErr result (λ why.
            IsRefusal (verdict self.old.memory.frame by self.old.memory.entries request.now.table (trees request.now.items) now) why) }
        ensures err { OnErr result (self.new.memory ≡ record self.old.memory { spare = self.new.memory.spare }) }
        ensures disk { LeavesDisk (shown_by D.shown self.old) (shown_by D.shown self.new) }
        ensures origin { self.new.origin ≡ self.old.origin }
    {
        self.memory.prepare(alloc, by, request, now)
    }

    /// Prepares the end of the open date by the pass `by`, and makes room for the fault that may come in its place. The
    /// chronicle and the disk stay as they are.
    pub fn prepare_roll(&mut self, alloc: Global, by: u64) -> Result<PreparedRoll, NoMemory>
        requires by { by + 1 < 2 ^ 64 }
        requires date { date_of self.old.memory.frame.first self.old.memory.entries <ℤ pos 106751 }
        ensures ok { IfOk result (λ roll. roll ≡ record {
          frame = self.old.memory.frame;
          entries = self.old.memory.entries;
          by = by;
          date = date_of self.old.memory.frame.first self.old.memory.entries +ℤ pos 1;
        }) }
        ensures spare { OnOk result (self.new.memory.spare ≡ true) }
        ensures room { OnOk result (0 < self.new.logs.manifest.room) }
        ensures unchanged { self.new.memory ≡ record self.old.memory { spare = self.new.memory.spare } }
        ensures disk { LeavesDisk (shown_by D.shown self.old) (shown_by D.shown self.new) }
        ensures origin { self.new.origin ≡ self.old.origin }
    {
        self.logs.reserve()?;
        let date = next_date(self.memory.date());
        self.memory.prepare_roll(alloc, by, date)
    }

    /// The whole chronicle as it is now. It shares the dates that have ended: no row of them is copied.
    pub fn snapshot(&self, alloc: Global) -> Result<Snapshot, NoMemory>
        ensures { IfOk result (λ s. s ≡ record { frame = self.now.memory.frame; entries = self.now.memory.entries }) }
    {
        self.memory.snapshot(alloc)
    }

    /// The chronicle as it is now, from the index `from` on. It shares the dates that have ended, and the blocks of the open
    /// one that are full: no row of them is copied.
    pub fn tail(&self, alloc: Global, from: u64) -> Result<Tail, NoMemory>
        requires { from ≤ length self.now.memory.entries }
        ensures { IfOk result (λ t. t ≡ record { frame = self.now.memory.frame; entries = self.now.memory.entries; from = from }) }
    {
        self.memory.tail(alloc, from)
    }

    /// The disk. It takes no memory.
    pub fn close(self) -> D
        ensures disk { result ≡ self.disk }
        ensures sound { IsSound (shown_by D.shown self) }
    {
        date_logs::stored_entries_restart();
        let Plant { disk, .. } = self;
        disk
    }
}
