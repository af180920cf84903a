//! A plant's entries in memory: one list, to which entries are only ever appended.
ghost use Rattle.std.specs.Prelude.{◌≡◌, ◌<◌, ◌≤◌, ◌+◌, ◌^◌, ◌<ℤ◌, ◌≤ℤ◌, ◌+ℤ◌, pos, negsuc, true, false, if◌then◌else◌};
ghost use Rattle.std.specs.Prelude.{[], ◌∷◌, ◌++◌, length, Some, None, IfOk, IfErr, OnOk, OnErr};
ghost use Rattle.std.specs.List.{AllByRecursion};
ghost use Rattle.q_values.specs.Limits.{AreLimits};
ghost use Rattle.q_values.specs.Tree.{trees};
ghost use Rattle.day_rows.specs.Chronicle.{date_of, DatesAscend};
ghost use Rattle.day_rows.specs.Day.{IsUpdate, opened_of, entry_rows, total_rows};
ghost use Rattle.plant_memory.specs.Chronicle.{by_of, today, top_by, index_after_roll};
ghost use Rattle.plant_memory.specs.Memory.{Prepares, due, kinds_of};
ghost use Rattle.plant_memory.specs.Turns.{IsRefusal};
ghost use Rattle.tick_log.specs.Chunk.{IsLoggable};
ghost use Rattle.plant_memory.specs.Verdict.{verdict};

use crate::history::History;
use crate::judge::{Judged, Standing, judge};
use crate::prepared::{Prepared, PreparedRoll, entry_of, sole};
use crate::refusal::UpdRefusal;
use crate::request::UpdRequest;
use crate::snapshot::Snapshot;
use crate::tail::Tail;
use day_rows::{Entries, Entry, OpenDay, Schema};
use q_values::{Limits, NoMemory};
use std::alloc::Global;
use std::marker::Model;
use std::sync::Arc;
use tick_log::chunk_of;

/// The number of entries from which on nothing more is prepared. No run reaches it.
const LONGEST_CHRONICLE: u64 = 9_223_372_036_854_775_808;

/// A plant's entries in memory (KX, tick.q and r.q). Contracts see its frame, which no call changes, and its chronicle.
#[derive(Drop)]
pub struct Memory {
    /// The tables, which tails share.
    pub(crate) schema: Arc<Schema>,
    /// The limits that updates are judged by.
    pub(crate) limits: Limits,
    /// The chronicle, kept date by date; its columns are of the schema's kinds.
    pub(crate) history: History,
}

impl Model for Memory {
    ghost use Rattle.plant_memory.specs.Memory.{MemoryView, IsMemory, memory_of};

    ghost Value = { MemoryView };

    ghost view = { λ p. memory_of p.schema.value p.limits p.history };

    ghost invariant = { λ p. IsMemory p.schema.value p.limits p.history };
}

impl Memory {
    /// A memory without entries, open at this date, in days since 2000.01.01.
    pub fn begin(
        alloc: Global,
        schema: Schema,
        date: i32,
        limits: &Limits,
    ) -> Result<Memory, NoMemory>
        requires limits { AreLimits limits.now }
        requires first { negsuc 106751 ≤ℤ date }
        requires last { date ≤ℤ pos 106751 }
        ensures { IfOk result (λ memory. memory ≡ record {
          frame = record { schema = schema; first = date; limits = limits.now };
          entries = [];
          room = [];
          spare = true;
        }) }
    {
        let history = History::new(alloc, &schema, date)?;
        Ok(Memory {
            schema: Arc::new(alloc, schema)?,
            limits: *limits,
            history,
        })
    }

    /// 1 plus the greatest pass number of the chronicle.
    pub fn next_by(&self) -> u64
        ensures { result ≡ top_by self.now.entries + 1 }
    {
        self.history.top_by() + 1
    }

    /// The open date, in days since 2000.01.01. Each date is later than the one before it.
    pub fn date(&self) -> i32
        ensures value { result ≡ date_of self.now.frame.first self.now.entries }
        ensures first { negsuc 106751 ≤ℤ result }
        ensures last { result ≤ℤ pos 106751 }
        ensures ascend { DatesAscend self.now.frame.first self.now.entries }
    {
        self.history.date()
    }

    /// The number of entries.
    pub fn length(&self) -> u64
        ensures { result ≡ length self.now.entries }
    {
        self.history.length()
    }

    /// The index of the first entry after the last roll, or 0 where there is no roll.
    pub fn opened_at(&self) -> u64
        ensures { result ≡ index_after_roll self.now.entries }
    {
        self.history.opened_at()
    }

    /// The tables.
    pub fn schema(&self) -> &Schema
        ensures { result.now ≡ self.now.frame.schema }
    {
        &self.schema
    }

    /// The limits.
    pub fn limits(&self) -> Limits
        ensures value { result ≡ self.now.frame.limits }
        ensures lawful { AreLimits self.now.frame.limits }
    {
        self.limits
    }

    // The date after the open one, with room for the entries.
    fn begun(&self, alloc: Global, entries: &Entries) -> Result<OpenDay, NoMemory>
        requires date { date_of self.now.frame.first self.now.entries <ℤ pos 106751 }
        requires updates { AllByRecursion (IsUpdate (kinds_of self.now.frame.schema)) entries.now }
        requires bounded { total_rows entries.now ≤ 4294967295 }
        ensures { IfOk result (λ fresh. fresh ≡ opened_of (date_of self.now.frame.first self.now.entries +ℤ pos 1)
            (kinds_of self.now.frame.schema) [] entries.now) }
    {
        let mut fresh = OpenDay::new(alloc, &self.schema, self.history.date() + 1)?;
        fresh.reserve(entries)?;
        Ok(fresh)
    }

    // Makes room for these entries: in the next date, which is answered, where a roll is due before them, and else in
    // the open date.
    fn room_for(
        &mut self,
        alloc: Global,
        entries: &Entries,
        rolls: bool,
    ) -> Result<Option<OpenDay>, NoMemory>
        requires date { rolls ≡ true → date_of self.old.frame.first self.old.entries <ℤ pos 106751 }
        requires updates { AllByRecursion (IsUpdate (kinds_of self.old.frame.schema)) entries.now }
        requires bounded { (if rolls then 0 else total_rows (today self.old.entries)) + total_rows entries.now ≤ 4294967295 }
        ensures fresh { IfOk result (λ fresh. fresh ≡ (if rolls
            then Some (opened_of (date_of self.old.frame.first self.old.entries +ℤ pos 1) (kinds_of self.old.frame.schema) [] entries.now)
            else None)) }
        ensures after { OnOk result (self.new ≡ record self.old { room = if rolls then self.old.room else entries.now }) }
        ensures err { OnErr result (self.new ≡ self.old) }
    {
        if rolls {
            return Ok(Some(self.begun(alloc, entries)?));
        }
        self.history.reserve(entries)?;
        Ok(None)
    }

    // Makes room for an update that may be logged, in the open date or in a next one where a roll is due, and for a
    // fault.
    fn make_room(&mut self, alloc: Global, by: u64, judged: Judged) -> Result<Prepared, NoMemory>
        requires few { length self.old.entries < 2 ^ 63 }
        requires by { by + 1 < 2 ^ 64 }
        requires own { by_of judged.update ≡ by }
        requires update { IsUpdate (kinds_of self.old.frame.schema) judged.update }
        requires loggable { IsLoggable self.old.frame.schema judged.update }
        requires bounded { (if judged.rolls then 0 else total_rows (today self.old.entries)) + entry_rows judged.update ≤ 4294967295 }
        requires date { judged.rolls ≡ true → date_of self.old.frame.first self.old.entries <ℤ pos 106751 }
        ensures ok { IfOk result (λ p. p ≡ record {
          frame = self.old.frame;
          entries = self.old.entries;
          rolls = judged.rolls;
          by = by;
          entry = judged.update;
        }) }
        ensures after { OnOk result (self.new ≡ record self.old {
          room = if judged.rolls then self.old.room else judged.update ∷ [];
          spare = true;
        }) }
        ensures err { OnErr result (self.new ≡ record self.old { spare = self.new.spare }) }
    {
        self.history.reserve_fault()?;
        let of = std::snapshot::Snapshot::of(&*self);
        let Judged { rolls, update } = judged;
        let chunk = chunk_of(alloc, &self.schema, &update)?;
        let entries = sole(alloc, update)?;
        let fresh = self.room_for(alloc, &entries, rolls)?;
        Ok(Prepared {
            of,
            by,
            entry: entry_of(entries),
            chunk,
            fresh,
        })
    }

    /// Judges an update of the pass `by`, and makes its log record and room for it, and for the fault that may come
    /// in its place. The chronicle stays as it is. An error changes nothing, but that there may be room for a fault.
    /// `now` is in nanoseconds since 2000.01.01.
    pub fn prepare(
        &mut self,
        alloc: Global,
        by: u64,
        request: &UpdRequest,
        now: i64,
    ) -> Result<Prepared, UpdRefusal>
        requires { by + 1 < 2 ^ 64 }
        ensures ok { IfOk result (λ update. Prepares self.old self.new by request.now.table (trees request.now.items) now update) }
        ensures refused { IfErr result (λ why.
            IsRefusal (verdict self.old.frame by self.old.entries request.now.table (trees request.now.items) now) why) }
        ensures err { OnErr result (self.new ≡ record self.old { spare = self.new.spare }) }
    {
        if self.history.length() >= LONGEST_CHRONICLE {
            return Err(UpdRefusal::NoMemory);
        }
        let standing = Standing {
            by,
            date: self.history.date(),
            rows: self.history.rows(),
            moment: now,
        };
        let judged = judge(alloc, &self.schema, &self.limits, &standing, request)?;
        Ok(self.make_room(alloc, by, judged)?)
    }

    /// Prepares the end of the open date by the pass `by`, which opens the later date `date`, and makes room for the
    /// fault that may come in its place. The chronicle stays as it is. The date is in days since 2000.01.01.
    pub fn prepare_roll(
        &mut self,
        alloc: Global,
        by: u64,
        date: i32,
    ) -> Result<PreparedRoll, NoMemory>
        requires by { by + 1 < 2 ^ 64 }
        requires later { date_of self.old.frame.first self.old.entries <ℤ date }
        requires last { date ≤ℤ pos 106751 }
        ensures ok { IfOk result (λ roll. roll ≡ record {
          frame = self.old.frame;
          entries = self.old.entries;
          by = by;
          date = date;
        }) }
        ensures room { OnOk result (self.new.spare ≡ true) }
        ensures unchanged { self.new ≡ record self.old { spare = self.new.spare } }
    {
        if self.history.length() >= LONGEST_CHRONICLE {
            return Err(NoMemory);
        }
        self.history.reserve_fault()?;
        let next = self.history.rolled(alloc, &self.schema, by, date)?;
        Ok(PreparedRoll {
            of: std::snapshot::Snapshot::of(&*self),
            by,
            date,
            next,
        })
    }

    /// Ends the open date, and returns the index of the roll's entry. The chronicle has gained nothing since the roll
    /// was prepared. It takes no memory.
    pub fn commit_roll(&mut self, roll: PreparedRoll) -> u64
        requires frame { roll.frame ≡ self.old.frame }
        requires same { roll.entries ≡ self.old.entries }
        ensures place { result ≡ length self.old.entries }
        ensures after { self.new ≡ record self.old {
          entries = self.old.entries ++ Entry.Roll roll.by roll.date ∷ [];
          room = [];
          spare = true;
        } }
    {
        let place = self.history.length();
        let PreparedRoll { next, .. } = roll;
        self.history = next;
        place
    }

    /// Appends an update, and returns the index of its entry. Since it was prepared, no other update was, and the
    /// chronicle has gained exactly the roll that was due, or nothing where none was. It takes no memory.
    pub fn commit(&mut self, update: Prepared) -> u64
        requires frame { update.frame ≡ self.old.frame }
        requires follows { self.old.entries ≡ update.entries ++ due update }
        requires room { update.rolls ≡ false → self.old.room ≡ update.entry ∷ [] }
        ensures place { result ≡ length self.old.entries }
        ensures after { self.new ≡ record self.old {
          entries = self.old.entries ++ update.entry ∷ [];
          room = [];
        } }
    {
        let place = self.history.length();
        let Prepared { entry, fresh, .. } = update;
        match fresh {
            Some(fresh) => {
                self.history.replace(fresh);
                self.history.push(entry);
            }
            None => self.history.push(entry),
        }
        place
    }

    /// Notes a disk fault of the pass `by`, and returns the index of its entry. The room for it was made by `prepare`
    /// or `prepare_roll`. It takes no memory.
    pub fn note_fault(&mut self, by: u64) -> u64
        requires room { self.old.spare ≡ true }
        requires few { length self.old.entries + 1 < 2 ^ 64 }
        requires by { by + 1 < 2 ^ 64 }
        ensures place { result ≡ length self.old.entries }
        ensures after { self.new ≡ record self.old {
          entries = self.old.entries ++ Entry.Fault by ∷ [];
          spare = self.new.spare;
        } }
    {
        let place = self.history.length();
        self.history.push_fault(by);
        place
    }

    /// Takes over a day of updates, which was read from a log, as the open date's, which has no entries yet.
    /// `updates`, `rows` and `top` are the number of its updates, the number of its rows, and its greatest pass
    /// number, 0 where it has none. It takes no memory.
    pub fn adopt(&mut self, day: OpenDay, updates: u64, rows: u64, top: u64)
        requires date { day.day.date ≡ date_of self.old.frame.first self.old.entries }
        requires kinds { day.day.kinds ≡ kinds_of self.old.frame.schema }
        requires begun { today self.old.entries ≡ [] }
        requires updates { updates ≡ length day.day.updates }
        requires rows { rows ≡ total_rows day.day.updates }
        requires top { top ≡ top_by day.day.updates }
        requires few { length self.old.entries + updates < 2 ^ 64 }
        requires by { top + 1 < 2 ^ 64 }
        ensures { self.new ≡ record self.old {
          entries = self.old.entries ++ day.day.updates;
          room = day.room;
        } }
    {
        self.history.adopt(day, updates, rows, top);
    }

    /// The whole chronicle as it is now. It shares the dates that have ended: no row of them is copied.
    pub fn snapshot(&self, alloc: Global) -> Result<Snapshot, NoMemory>
        ensures { IfOk result (λ s. s ≡ record { frame = self.now.frame; entries = self.now.entries }) }
    {
        Ok(Snapshot {
            schema: std::snapshot::Snapshot::of(self.schema()),
            limits: self.limits,
            history: self.history.copy(alloc)?,
        })
    }

    /// The chronicle as it is now, from the index `from` on. It shares the dates that have ended, and the blocks of the open
    /// one that are full: no row of them is copied.
    pub fn tail(&self, alloc: Global, from: u64) -> Result<Tail, NoMemory>
        requires { from ≤ length self.now.entries }
        ensures { IfOk result (λ t. t ≡ record { frame = self.now.frame; entries = self.now.entries; from = from }) }
    {
        let history = self.history.copy(alloc)?;
        Ok(Tail {
            schema: self.schema.clone()?,
            limits: self.limits,
            history,
            from,
        })
    }
}
