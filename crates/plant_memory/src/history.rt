//! The dates of a plant: those that have ended, which snapshots share, and the open one.
ghost use Rattle.std.specs.Prelude.{◌≡◌, ◌<◌, ◌≤◌, ◌+◌, ◌-◌, ◌^◌, ◌<ℤ◌, ◌≤ℤ◌, pos, negsuc, [], ◌∷◌, ◌++◌, length, map, take, drop, true};
ghost use Rattle.std.specs.Prelude.{IfOk, OnOk, OnErr, Some, slice_get, slice_index_or};
ghost use Rattle.std.specs.List.{AllByRecursion, flat_map};
ghost use Rattle.q_values.specs.declared.kind.Kind.{Kind};
ghost use Rattle.day_rows.specs.Chronicle.{date_of, DatesAscend};
ghost use Rattle.day_rows.specs.Day.{IsUpdate, HasColumn, entry_rows, total_rows, settled};
ghost use Rattle.day_rows.specs.Rows.{column_of};
ghost use Rattle.plant_memory.specs.Chronicle.{by_of, index_after_roll, today, top_by, dates_of, date_at, rows_at, update_count};
ghost use Rattle.plant_memory.specs.History.{IsColumn, IsOfTables, entries_of};

use crate::faults::Faults;
use crate::weaving::{place_of, weave};
use day_rows::{ClosedDay, Entries, Entry, OpenDay, Schema};
use q_values::{NoMemory, Vector};
use std::alloc::Global;
use std::marker::Model;
use std::sync::Arc;

/// A date that has ended, and its end.
#[derive(Drop)]
pub struct Ended {
    // the date's updates and columns, shared with snapshots
    day: Arc<ClosedDay>,
    // the date's faults, shared too
    faults: Arc<Faults>,
    // the number of the pass that ended it
    by: u64,
    // the later date that was opened then, in days since 2000.01.01
    next: i32,
}

impl Model for Ended {
    ghost use Rattle.plant_memory.specs.History.{Past};

    ghost Value = { Past };

    ghost view = { λ d. record { day = d.day.value; marks = d.faults.value.marks; by = d.by; next = d.next } };
}

impl Ended {
    // The date's updates and columns.
    fn day(&self) -> &ClosedDay
        ensures { result.now ≡ self.now.day }
    {
        &self.day
    }

    // The number of its entries, its roll included.
    fn len(&self) -> u64
        requires { length (entries_of self.now) < 2 ^ 64 }
        ensures { result ≡ length (entries_of self.now) }
    {
        self.day.update_count() as u64 + self.faults.len() as u64 + 1
    }

    // Appends its entries from the index `from` on.
    fn add_entries(
        &self,
        alloc: Global,
        from: u64,
        entries: &mut Vec<Entry>,
    ) -> Result<(), NoMemory>
        requires { from < length (entries_of self.now) }
        ensures { OnOk result (entries.new.items ≡ entries.old.items ++ drop from (entries_of self.now)) }
    {
        let place = place_of(self.faults.marks(), self.day.update_count(), from);
        let updates = self.day.updates_from(alloc, place.updates)?;
        let marks = &self.faults.marks()[place.faults..];
        weave(marks, place.since, updates, entries)?;
        entries.push(Entry::Roll {
            by: self.by,
            date: self.next,
        })?;
        Ok(())
    }

    // The same date, whose content is shared and not copied.
    fn share(&self) -> Result<Ended, NoMemory>
        ensures { IfOk result (λ shared. shared ≡ self.now) }
    {
        Ok(Ended {
            day: self.day.clone()?,
            faults: self.faults.clone()?,
            by: self.by,
            next: self.next,
        })
    }
}

/// The dates of a plant, in order. Contracts see the chronicle that they hold.
#[derive(Drop)]
pub struct History {
    // the first date, in days since 2000.01.01
    first: i32,
    // the dates that have ended, in order; each opened the one after it
    ended: Vec<Ended>,
    // the open date
    current: OpenDay,
    // the faults of the open date
    faults: Faults,
    // the number of entries of the chronicle, rolls and faults included
    length: u64,
    // the index of the first entry after the last roll, or 0 where there is no roll
    opened_at: u64,
    // the number of rows of the open date, in all tables
    rows: u64,
    // the greatest pass number of the chronicle, 0 where it is empty; it and its successor fit 64 bits
    top_by: u64,
}

impl Model for History {
    ghost use Rattle.plant_memory.specs.History.{HistoryView, IsHistory, history_of};

    ghost Value = { HistoryView };

    ghost view = { λ h. history_of h.first h.ended.items h.current h.faults };

    ghost invariant = { λ h. IsHistory h.first h.ended.items h.current.day h.faults.marks h.faults.since h.length h.opened_at h.rows h.top_by };
}

fn by_of(entry: &Entry) -> u64
    ensures { result ≡ by_of entry.now }
{
    match entry {
        Entry::Upd { by, .. } | Entry::Roll { by, .. } | Entry::Fault { by } => *by,
    }
}

fn rows_of(entry: &Entry) -> usize
    ensures { result ≡ entry_rows entry.now }
{
    match entry {
        Entry::Upd { columns, .. } if columns.len() > 0 => columns.at(0).len(),
        _ => 0,
    }
}

// The ended form of an open day, whose content is copied.
fn closed(alloc: Global, opened: &OpenDay) -> Result<Arc<ClosedDay>, NoMemory>
    ensures { IfOk result (λ day. day.value ≡ opened.now.day) }
{
    let order = opened.close_order(alloc)?;
    let copied = opened.copy(alloc)?;
    let day = copied.close(order);
    Ok(Arc::new(alloc, day)?)
}

// The same dates, whose contents are shared, with room for `more` of them.
fn shared(alloc: Global, ended: &[Ended], more: usize) -> Result<Vec<Ended>, NoMemory>
    requires { length ended.now + more < 2 ^ 64 }
    ensures items { IfOk result (λ dates. dates.items ≡ ended.now) }
{
    let mut dates = Vec::with_capacity(alloc, ended.len() + more)?;
    for day in ended {
        dates.push(day.share()?)?;
    }
    Ok(dates)
}

// The same dates, whose contents are shared, and one more.
fn shared_with(alloc: Global, ended: &[Ended], last: Ended) -> Result<Vec<Ended>, NoMemory>
    requires { length ended.now + 1 < 2 ^ 64 }
    ensures { IfOk result (λ dates. dates.items ≡ ended.now ++ last ∷ []) }
{
    let mut dates = shared(alloc, ended, 1)?;
    dates.push(last)?;
    Ok(dates)
}

// Of the dates that have ended and the open one: the index of the one that has the entry with the index `from`, and the
// number of entries before that date. `opened_at` is the number of entries of the ended dates. The dates before it cost
// nothing.
fn date_with(ended: &[Ended], opened_at: u64, from: u64) -> (usize, u64)
    requires { opened_at ≡ length (flat_map entries_of ended.now) }
    ensures date { result.0 ≤ length ended.now }
    ensures start { result.1 ≡ length (flat_map entries_of (take result.0 ended.now)) }
    ensures after { result.1 ≤ from }
    ensures within { result.0 < length ended.now → from < length (flat_map entries_of (take (result.0 + 1) ended.now)) }
{
    let mut date = ended.len();
    let mut start = opened_at;
    while from < start {
        date -= 1;
        start -= ended[date].len();
    }
    (date, start)
}

impl History {
    /// A history without updates, open at this date, in days since 2000.01.01.
    pub fn new(alloc: Global, schema: &Schema, date: i32) -> Result<History, NoMemory>
        requires first { negsuc 106751 ≤ℤ date }
        requires last { date ≤ℤ pos 106751 }
        ensures { IfOk result (λ begun. begun ≡ record {
          first = date;
          kinds = map (λ shape. shape.kinds) schema.now;
          entries = [];
          room = [];
          spare = true;
        }) }
    {
        let current = OpenDay::new(alloc, schema, date)?;
        Ok(History {
            first: current.date(),
            ended: Vec::new(alloc),
            current,
            faults: Faults::new(alloc)?,
            length: 0,
            opened_at: 0,
            rows: 0,
            top_by: 0,
        })
    }

    /// The first date, in days since 2000.01.01.
    pub fn first(&self) -> i32
        ensures { result ≡ self.now.first }
    {
        self.first
    }

    /// The open date, in days since 2000.01.01.
    pub fn date(&self) -> i32
        ensures value { result ≡ date_of self.now.first self.now.entries }
        ensures first { negsuc 106751 ≤ℤ result }
        ensures last { result ≤ℤ pos 106751 }
        ensures ascend { DatesAscend self.now.first self.now.entries }
    {
        self.current.date()
    }

    /// The number of entries.
    pub fn length(&self) -> u64
        ensures { result ≡ length self.now.entries }
    {
        self.length
    }

    /// The index of the first entry after the last roll, or 0 where there is no roll.
    pub fn opened_at(&self) -> u64
        ensures { result ≡ index_after_roll self.now.entries }
    {
        self.opened_at
    }

    /// The number of rows of the open date, in all tables.
    pub fn rows(&self) -> u64
        ensures { result ≡ total_rows (today self.now.entries) }
    {
        self.rows
    }

    /// The greatest pass number, 0 where there are no entries.
    pub fn top_by(&self) -> u64
        ensures value { result ≡ top_by self.now.entries }
        ensures few { result + 1 < 2 ^ 64 }
    {
        self.top_by
    }

    /// Makes room for these entries in the open date, which replaces any former room. An error changes nothing.
    pub fn reserve(&mut self, entries: &Entries) -> Result<(), NoMemory>
        requires updates { AllByRecursion (IsUpdate self.old.kinds) entries.now }
        requires bounded { total_rows (today self.old.entries) + total_rows entries.now ≤ 4294967295 }
        ensures ok { OnOk result (self.new ≡ record self.old { room = entries.now }) }
        ensures err { OnErr result (self.new ≡ self.old) }
    {
        self.current.reserve(entries)
    }

    /// Makes room for a fault. An error changes nothing.
    pub fn reserve_fault(&mut self) -> Result<(), NoMemory>
        ensures ok { OnOk result (self.new ≡ record self.old { spare = true }) }
        ensures err { OnErr result (self.new ≡ self.old) }
    {
        self.faults.reserve()
    }

    /// Appends an entry: the next of those that room was made for. It takes no memory.
    pub fn push(&mut self, entry: Entry)
        requires room { take 1 self.old.room ≡ entry ∷ [] }
        requires few { length self.old.entries + 1 < 2 ^ 64 }
        requires by { by_of entry + 1 < 2 ^ 64 }
        ensures { self.new ≡ record self.old {
          entries = self.old.entries ++ entry ∷ [];
          room = drop 1 self.old.room;
        } }
    {
        let by = by_of(&entry);
        let rows = rows_of(&entry) as u64;
        self.current.push(entry);
        // The contract of this call says that the day's rows fit 32 bits.
        let _date = self.current.date();
        self.faults.count_updates(1);
        self.length += 1;
        self.rows += rows;
        self.top_by = self.top_by.max(by);
    }

    /// Appends a fault of this pass, for which room was made. It takes no memory.
    pub fn push_fault(&mut self, by: u64)
        requires room { self.old.spare ≡ true }
        requires few { length self.old.entries + 1 < 2 ^ 64 }
        requires by { by + 1 < 2 ^ 64 }
        ensures { self.new ≡ record self.old {
          entries = self.old.entries ++ Entry.Fault by ∷ [];
          spare = self.new.spare;
        } }
    {
        self.faults.push(by);
        self.length += 1;
        self.top_by = self.top_by.max(by);
    }

    /// The dates as they will be once this pass has ended the open one and opened `date`, with room for a fault. The
    /// contents of ended dates are shared. The date is in days since 2000.01.01.
    pub fn rolled(
        &self,
        alloc: Global,
        schema: &Schema,
        by: u64,
        date: i32,
    ) -> Result<History, NoMemory>
        requires schema { self.now.kinds ≡ map (λ shape. shape.kinds) schema.now }
        requires later { date_of self.now.first self.now.entries <ℤ date }
        requires last { date ≤ℤ pos 106751 }
        requires few { length self.now.entries + 1 < 2 ^ 64 }
        requires by { by + 1 < 2 ^ 64 }
        ensures { IfOk result (λ rolled. rolled ≡ record self.now {
          entries = self.now.entries ++ Entry.Roll by date ∷ [];
          room = [];
          spare = true;
        }) }
    {
        let last = Ended {
            day: closed(alloc, &self.current)?,
            faults: Arc::new(alloc, self.faults.copy(alloc)?)?,
            by,
            next: date,
        };
        let ended = shared_with(alloc, &self.ended, last)?;
        let current = OpenDay::new(alloc, schema, date)?;
        Ok(History {
            first: self.first,
            ended,
            current,
            faults: Faults::new(alloc)?,
            length: self.length + 1,
            opened_at: self.length + 1,
            rows: 0,
            top_by: self.top_by.max(by),
        })
    }

    /// Replaces the open day, which has no entries yet. Both days are of one date, and without updates. It takes no
    /// memory.
    pub fn replace(&mut self, fresh: OpenDay)
        requires date { fresh.day.date ≡ date_of self.old.first self.old.entries }
        requires kinds { fresh.day.kinds ≡ self.old.kinds }
        requires none { fresh.day.updates ≡ [] }
        requires begun { today self.old.entries ≡ [] }
        ensures { self.new ≡ record self.old { room = fresh.room } }
    {
        let _date = fresh.date();
        self.current = fresh;
    }

    /// Takes over a day of updates as the open date's, which has no entries yet. Both days are of one date.
    /// `updates`, `rows` and `top` are the number of its updates, the number of its rows, and its greatest pass
    /// number, 0 where it has none. It takes no memory.
    pub fn adopt(&mut self, day: OpenDay, updates: u64, rows: u64, top: u64)
        requires date { day.day.date ≡ date_of self.old.first self.old.entries }
        requires kinds { day.day.kinds ≡ self.old.kinds }
        requires begun { today self.old.entries ≡ [] }
        requires updates { updates ≡ length day.day.updates }
        requires rows { rows ≡ total_rows day.day.updates }
        requires top { top ≡ top_by day.day.updates }
        requires few { length self.old.entries + updates < 2 ^ 64 }
        requires by { top + 1 < 2 ^ 64 }
        ensures { self.new ≡ record self.old {
          entries = self.old.entries ++ day.day.updates;
          room = day.room;
        } }
    {
        let _date = day.date();
        self.current = day;
        self.faults.count_updates(updates);
        self.length += updates;
        self.rows = rows;
        self.top_by = self.top_by.max(top);
    }

    /// Equal dates, without room for updates. The contents of ended dates are shared.
    pub fn copy(&self, alloc: Global) -> Result<History, NoMemory>
        ensures { IfOk result (λ copied. copied ≡ record self.now { room = []; spare = copied.spare }) }
    {
        let ended = shared(alloc, &self.ended, 0)?;
        let current = self.current.copy(alloc)?;
        Ok(History {
            first: self.first,
            ended,
            current,
            faults: self.faults.copy(alloc)?,
            length: self.length,
            opened_at: self.opened_at,
            rows: self.rows,
            top_by: self.top_by,
        })
    }

    /// The number of dates.
    pub fn dates(&self) -> usize
        ensures count { result ≡ length (dates_of self.now.first self.now.entries) }
        ensures ascend { DatesAscend self.now.first self.now.entries }
    {
        self.ended.len() + 1
    }

    /// The date with the index `k`, in days since 2000.01.01.
    pub fn date_at(&self, k: usize) -> i32
        requires { k < length (dates_of self.now.first self.now.entries) }
        ensures { result ≡ date_at self.now.first self.now.entries k }
    {
        if k == 0 {
            return self.first;
        }
        self.ended[k - 1].next
    }

    /// The number of a table's rows on the date with the index `k`.
    pub fn rows_at(&self, k: usize, table: u32) -> u32
        requires date { k < length (dates_of self.now.first self.now.entries) }
        requires table { table < length self.now.kinds }
        ensures { result ≡ length (rows_at self.now.first self.now.entries k table) }
    {
        if k < self.ended.len() {
            return self.ended[k].day().rows(table);
        }
        self.current.rows(table)
    }

    /// The number of updates of the open date.
    pub fn updates_today(&self) -> u64
        ensures { result ≡ update_count (today self.now.entries) }
    {
        self.length - self.opened_at - self.faults.len() as u64
    }

    /// The `n` atoms of a table's column from the row `from` on, on the date with the index `k`, in the documented
    /// order.
    pub fn column(
        &self,
        alloc: Global,
        k: usize,
        table: u32,
        column: u32,
        from: u32,
        n: u32,
    ) -> Result<Vector, NoMemory>
        requires date { k < length (dates_of self.now.first self.now.entries) }
        requires exists { (kind : Kind) × IsColumn self.now.kinds table column kind }
        requires within { from + n ≤ length (rows_at self.now.first self.now.entries k table) }
        ensures { IfOk result (λ part. (kind : Kind) → IsColumn self.now.kinds table column kind
            → part ≡ record { kind = kind; atoms = take n (drop from (column_of kind column (rows_at self.now.first self.now.entries k table)).atoms) }) }
    {
        if k < self.ended.len() {
            return self.ended[k].day().column(alloc, table, column, from, n);
        }
        self.current.column(alloc, table, column, from, n)
    }

    // Appends the entries of the open date from the index `from` on.
    fn add_today(&self, alloc: Global, from: u64, entries: &mut Vec<Entry>) -> Result<(), NoMemory>
        requires { from ≤ length (today self.now.entries) }
        ensures { OnOk result (entries.new.items ≡ entries.old.items ++ drop from (today self.now.entries)) }
    {
        let place = place_of(self.faults.marks(), self.current.update_count(), from);
        let updates = self.current.updates_from(alloc, place.updates)?;
        let marks = &self.faults.marks()[place.faults..];
        weave(marks, place.since, updates, entries)
    }

    /// Whoever calls it knows that each update is of one of the tables. It takes no memory and changes nothing.
    pub fn learn_tables(&self)
        ensures { AllByRecursion (IsOfTables self.now.kinds) self.now.entries }
    {
        let _dates = self.ended.len();
    }

    /// Copies of the entries from the index `from` on, in order: updates, faults and rolls. The dates before the one that
    /// has the first of them cost nothing, and neither do the blocks of updates before it on that date.
    pub fn entries_from(&self, alloc: Global, from: u64) -> Result<Entries, NoMemory>
        requires { from ≤ length self.now.entries }
        ensures { IfOk result (λ entries. entries ≡ drop from self.now.entries) }
    {
        let (first, start) = date_with(&self.ended, self.opened_at, from);
        let mut entries = Vec::with_capacity(alloc, (self.length - from) as usize)?;
        let mut skip = from - start;
        for date in first..self.ended.len() {
            self.ended[date].add_entries(alloc, skip, &mut entries)?;
            skip = 0;
        }
        self.add_today(alloc, skip, &mut entries)?;
        let found = Entries::from_vec(alloc, entries)?;
        Ok(found)
    }

    /// The date that was open before the entry with the index `from`, in days since 2000.01.01.
    pub fn date_before(&self, from: u64) -> i32
        requires { from ≤ length self.now.entries }
        ensures { result ≡ date_of self.now.first (take from self.now.entries) }
    {
        let (date, _) = date_with(&self.ended, self.opened_at, from);
        self.date_at(date)
    }
}
