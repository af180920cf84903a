//! A plant of two dates, and what a load finds of it.
ghost use Rattle.std.specs.Prelude.{◌≡◌, length, IfOk, IfSome};
ghost use Rattle.outside_mem.specs.MemDisk.{shown_by};
ghost use Rattle.date_logs.specs.Stores.{IsReady};
ghost use Rattle.date_loading.specs.Loading.{HasGates};

use date_loading::{Finished, LoadRefusal, LoadedDay, Loading};
use date_logs::{DateLogs, format};
use day_rows::{Entry, Schema};
use outside_mem::MemDisk;
use partition_set::Manifest;
use q_values::{Column, Columns, LongKind, Sequence, Symbols, Vector};
use std::alloc::Global;
use std::process::Abort;
use tick_log::{chunk_of, is_loggable};

/// 2024.01.02, the first date.
pub const FIRST: i32 = 8767;

/// The file of its log.
pub const FIRST_LOG: u64 = 1_008_767;

/// 2024.01.03, the second date.
pub const SECOND: i32 = 8768;

// The index of `trade` in the built-in schema.
const TRADE: u32 = 1;

fn longs(rt: &impl Abort, alloc: Global, kind: LongKind, item: i64, rows: usize) -> Vector {
    let items = vec![in alloc; item; rows].expect(rt, "memory");
    Vector::from_column(Column::Longs(kind, items))
}

fn symbols(rt: &impl Abort, alloc: Global, rows: usize) -> Vector {
    let mut items = Symbols::new(alloc);
    for _ in 0..rows {
        items.push(b"KX").expect(rt, "memory");
    }
    Vector::from_column(Column::Symbols(items))
}

// This many rows of `trade`, each `(0D09:30;`KX;10050;200)`.
fn trades(rt: &impl Abort, alloc: Global, by: u64, rows: usize) -> Entry {
    let mut columns = Columns::new(alloc);
    columns
        .push(longs(rt, alloc, LongKind::Timespan, 34_200_000_000_000, rows))
        .expect(rt, "memory");
    columns.push(symbols(rt, alloc, rows)).expect(rt, "memory");
    columns
        .push(longs(rt, alloc, LongKind::Long, 10_050, rows))
        .expect(rt, "memory");
    columns
        .push(longs(rt, alloc, LongKind::Long, 200, rows))
        .expect(rt, "memory");
    Entry::Upd {
        by,
        table: TRADE,
        columns,
    }
}

/// Adds an update of this pass to the open date; whether that succeeded.
pub fn add(
    rt: &impl Abort,
    alloc: Global,
    disk: &mut MemDisk,
    logs: &mut DateLogs,
    schema: &Schema,
    by: u64,
    rows: usize,
) -> bool
    requires { IsReady (shown_by disk.old) logs.old }
    ensures { IsReady (shown_by disk.new) logs.new }
{
    let entry = trades(rt, alloc, by, rows);
    if !is_loggable(schema, &entry) {
        return false;
    }
    let chunk = chunk_of(alloc, schema, &entry).expect(rt, "memory");
    if chunk.is_empty() {
        return false;
    }
    logs.append(disk, &chunk).is_ok()
}

// A disk with the schema's tables, and the logs of its first date.
fn started(rt: &impl Abort, alloc: Global, schema: &Schema) -> Option<(MemDisk, DateLogs)>
    ensures { IfSome result (λ x. IsReady (shown_by x.0) x.1) }
{
    let mut disk = MemDisk::new(alloc);
    if format(alloc, &mut disk, schema).is_err() {
        return None;
    }
    let Ok(mut manifest) = Manifest::load(alloc, &mut disk) else {
        return None;
    };
    manifest.reserve().expect(rt, "memory");
    if !manifest.may_open(0, FIRST) {
        return None;
    }
    match DateLogs::begin(manifest, &mut disk, 0, FIRST) {
        Ok(logs) => Some((disk, logs)),
        Err(_fault) => None,
    }
}

/// A disk with the schema's tables and one date, which has this many updates of the pass 3, each of as many rows.
pub fn one_date(
    rt: &impl Abort,
    alloc: Global,
    schema: &Schema,
    updates: usize,
    rows: usize,
) -> Option<(MemDisk, DateLogs)>
    ensures { IfSome result (λ x. IsReady (shown_by x.0) x.1) }
{
    let Some((mut disk, mut logs)) = started(rt, alloc, schema) else {
        return None;
    };
    for _ in 0..updates {
        if !add(rt, alloc, &mut disk, &mut logs, schema, 3, rows) {
            return None;
        }
    }
    Some((disk, logs))
}

/// The same disk after the pass 7 has opened a second date, with one row of the pass 5.
pub fn two_dates(
    rt: &impl Abort,
    alloc: Global,
    schema: &Schema,
    updates: usize,
    rows: usize,
) -> Option<MemDisk> {
    let Some((mut disk, mut logs)) = one_date(rt, alloc, schema, updates, rows) else {
        return None;
    };
    logs.reserve().expect(rt, "memory");
    if !logs.may_open(7, SECOND) || logs.roll(&mut disk, 7, SECOND).is_err() {
        return None;
    }
    if !add(rt, alloc, &mut disk, &mut logs, schema, 5, 1) {
        return None;
    }
    Some(disk)
}

/// What was loaded of a date: the pass that opened it, the date, the rows of `trade` in its day, and its counts.
#[derive(Clone, Copy, Debug, PartialEq, Eq)]
pub struct Found {
    pub by: u64,
    pub date: i32,
    pub trades: u32,
    pub updates: u64,
    pub rows: u64,
    pub top_by: u64,
}

/// The dates that were found, in order.
pub type Founds = Sequence<Found>;

fn found_of(loaded: &LoadedDay) -> Found
    requires { length loaded.now.day.day.kinds ≡ 2 }
{
    Found {
        by: loaded.by,
        date: loaded.day.date(),
        trades: loaded.day.rows(TRADE),
        updates: loaded.counts.updates,
        rows: loaded.counts.rows,
        top_by: loaded.counts.top_by,
    }
}

// Loads each date that is left.
fn all_dates(
    alloc: Global,
    disk: &mut MemDisk,
    loading: &mut Loading,
    schema: &Schema,
) -> Result<Founds, LoadRefusal>
    requires tables { length schema.now ≡ 2 }
    requires gates { HasGates (shown_by disk.old) loading.old }
    ensures gates { IfOk result (λ _. HasGates (shown_by disk.new) loading.new) }
    ensures all { IfOk result (λ _. loading.new.next ≡ length loading.new.manifest.records) }
{
    let mut founds = Founds::new(alloc);
    for _ in 0..1000 {
        match loading.next_day(alloc, disk, schema)? {
            Some(loaded) => founds.push(found_of(&loaded))?,
            None => return Ok(founds),
        }
    }
    Err(LoadRefusal::NumbersSpent)
}

/// The dates of a plant, and its logs, if it has opened a date. The schema has two tables.
pub fn load(
    alloc: Global,
    disk: &mut MemDisk,
    schema: &Schema,
    date: i32,
) -> Result<(Founds, Option<DateLogs>), LoadRefusal>
    requires { length schema.now ≡ 2 }
    ensures { IfOk result (λ x. IfSome x.1 (λ logs. IsReady (shown_by disk.new) logs)) }
{
    let mut loading = Loading::open(alloc, disk, schema, date)?;
    let founds = all_dates(alloc, disk, &mut loading, schema)?;
    match loading.finish() {
        Finished::Dated(logs) => Ok((founds, Some(logs))),
        Finished::Undated(_manifest) => Ok((founds, None)),
    }
}
