//! Judges updates: the first refusal that holds, or the update as it may be logged.
ghost use Rattle.std.specs.Prelude.{◌≡◌, ◌<◌, ◌≤◌, ◌+◌, ℕ, [], ◌∷◌, length, map, nat_lt, Some, None, slice_get, MatchOption, IfOk};
ghost use Rattle.q_values.specs.Tree.{tree, trees};
ghost use Rattle.q_values.specs.Limits.{AreLimits};
ghost use Rattle.day_rows.specs.declared.schema.Shape.{Shape};
ghost use Rattle.day_rows.specs.Day.{AreTableKinds};
ghost use Rattle.plant_memory.specs.Chronicle.{time_of_day};
ghost use Rattle.std.specs.Str.{bytes_eq};
ghost use Rattle.plant_memory.specs.Items.{timed};
ghost use Rattle.plant_memory.specs.Limit.{HasLogRecord, holds_too_much};
ghost use Rattle.tick_log.specs.Chunk.{IsLoggable, chunk_bytes, no_pass};
ghost use Rattle.plant_memory.specs.Turns.{IsRefusal, Rules, RulesItems, FitsLimits, FindsTable};
ghost use Rattle.plant_memory.specs.Verdict.{is_next_day, is_past_next_day, table_from, refuses};

use crate::items::{
    count_atoms, has_long_symbol, have_matching_lengths, is_of_kind, spread_all, time_beside,
    vector_length, wrong_column,
};
use crate::refusal::UpdRefusal;
use crate::request::UpdRequest;
use day_rows::{Entry, Kinds, Schema};
use q_values::{Columns, Kind, Limits, NANOSECONDS_PER_DAY, Sym, Value, Vector};
use std::alloc::Global;
use tick_log::chunk_length;

/// What an update is judged by, besides the request itself.
#[derive(Clone, Copy)]
pub struct Standing {
    /// The number of the pass that asks.
    pub by: u64,
    /// The open date.
    pub date: i32,
    /// The number of rows of the open date.
    pub rows: u64,
    /// The moment, in nanoseconds since 2000.01.01.
    pub moment: i64,
}

/// The table of an update.
#[derive(Clone, Copy)]
pub struct Target<'a> {
    /// Its name.
    pub name: &'a Sym,
    /// Its index in the schema.
    pub index: u32,
    /// The kinds of its columns.
    pub kinds: &'a [Kind],
}

/// An update that may be logged.
#[derive(Drop)]
pub struct Judged {
    /// Whether it is the first of the next date, so that a roll is due before it.
    pub rolls: bool,
    /// Its entry, an `Upd`.
    pub update: Entry,
}

/// Whether the moment lies in the day after the date. `now` is in nanoseconds since 2000.01.01.
pub fn is_next_day(date: i32, now: i64) -> bool
    ensures { result ≡ is_next_day date now }
{
    now.div_euclid(NANOSECONDS_PER_DAY) == i64::from(date) + 1
}

fn is_past_next_day(date: i32, now: i64) -> bool
    ensures { result ≡ is_past_next_day date now }
{
    now.div_euclid(NANOSECONDS_PER_DAY) > i64::from(date) + 1
}

fn holds_too_much(limits: &Limits, rows: u64, first: &Value, others: &[Value]) -> bool
    requires { AreLimits limits.now }
    ensures { result ≡ holds_too_much limits.now rows (tree first.now ∷ map tree others.now) }
{
    if has_long_symbol(limits.symbol as usize, first, others) {
        return true;
    }
    let more = count_atoms(first) as u64;
    rows > limits.day_rows || more > limits.day_rows - rows
}

// Whether the log record of an update of this table with these columns would be longer than the limit.
fn is_long_record(limits: &Limits, name: &Sym, columns: &[Vector]) -> bool
    requires { AreLimits limits.now }
    ensures { result ≡ nat_lt limits.now.chunk (length (chunk_bytes 0 name.now columns.now)) }
{
    chunk_length(name, columns) > limits.chunk as usize
}

// The columns that the items make, where the update is within the limits for a date that already has `rows` rows.
fn columns_within(
    alloc: Global,
    limits: &Limits,
    rows: u64,
    name: &Sym,
    first: &Value,
    others: &[Value],
) -> Result<Columns, UpdRefusal>
    requires lawful { AreLimits limits.now }
    requires few { length others.now < 48 }
    ensures { FitsLimits limits.now rows name.now (tree first.now ∷ map tree others.now) result }
{
    if holds_too_much(limits, rows, first, others) {
        return Err(UpdRefusal::Limit);
    }
    let columns = spread_all(alloc, count_atoms(first), first, others)?;
    if is_long_record(limits, name, columns.as_slice()) {
        return Err(UpdRefusal::Limit);
    }
    Ok(columns)
}

// The update that the items make, or the first refusal. The first item is the time.
fn judge_items(
    alloc: Global,
    limits: &Limits,
    standing: &Standing,
    target: &Target,
    first: &Value,
    others: &[Value],
) -> Result<Judged, UpdRefusal>
    requires lawful { AreLimits limits.now }
    requires few { length target.now.kinds.now ≤ 48 }
    ensures rules { RulesItems limits.now standing.now.by standing.now.date standing.now.rows standing.now.moment
        target.now.name.now target.now.index target.now.kinds.now (tree first.now ∷ map tree others.now) result }
    ensures fits { IfOk result (HasLogRecord standing.now.by target.now.name.now target.now.index target.now.kinds.now) }
{
    if !have_matching_lengths(target.kinds.len(), first, others) {
        return Err(UpdRefusal::Length);
    }
    if let Some(column) = wrong_column(target.kinds, first, others) {
        return Err(UpdRefusal::WrongType {
            column: column as u32,
        });
    }
    if is_past_next_day(standing.date, standing.moment) {
        return Err(UpdRefusal::MoreThanOneDay);
    }
    let rolls = is_next_day(standing.date, standing.moment);
    let rows = if rolls { 0 } else { standing.rows };
    let columns = columns_within(alloc, limits, rows, target.name, first, others)?;
    Ok(Judged {
        rolls,
        update: Entry::Upd {
            by: standing.by,
            table: target.index,
            columns,
        },
    })
}

// The update that the items make, or the first refusal. The time is prepended where the first item is no timespan.
fn judge_timed(
    alloc: Global,
    limits: &Limits,
    standing: &Standing,
    target: &Target,
    items: &[Value],
) -> Result<Judged, UpdRefusal>
    requires lawful { AreLimits limits.now }
    requires few { length target.now.kinds.now ≤ 48 }
    ensures rules { RulesItems limits.now standing.now.by standing.now.date standing.now.rows standing.now.moment
        target.now.name.now target.now.index target.now.kinds.now (timed (time_of_day standing.now.moment) (map tree items.now)) result }
    ensures fits { IfOk result (HasLogRecord standing.now.by target.now.name.now target.now.index target.now.kinds.now) }
{
    match items {
        [] => Err(UpdRefusal::Length),
        [first, others @ ..] => {
            if is_of_kind(first, Kind::Timespan) {
                return judge_items(alloc, limits, standing, target, first, others);
            }
            let time = standing.moment.rem_euclid(NANOSECONDS_PER_DAY);
            let time = time_beside(alloc, time, vector_length(first))?;
            judge_items(alloc, limits, standing, target, &time, items)
        }
    }
}

fn has_name(name: &Sym, other: &Sym) -> bool
    ensures { result ≡ bytes_eq name.now other.now }
{
    name.bytes() == other.bytes()
}

// The index of the table with this name.
fn table_of(schema: &Schema, name: &Sym) -> Option<usize>
    ensures { FindsTable schema.now name.now result }
{
    for i in 0..schema.len() {
        if has_name(&schema.at(i).table, name) {
            return Some(i);
        }
    }
    None
}

// The refusal that names the missing table, or `NoMemory` where its name can't be copied.
fn no_table(alloc: Global, name: &Sym) -> UpdRefusal
    ensures { IsRefusal (refuses (UpdRefusal.NoTable name.now)) result }
{
    match Sym::copied(alloc, name.bytes()) {
        Ok(name) => UpdRefusal::NoTable(name),
        Err(_) => UpdRefusal::NoMemory,
    }
}

/// The requested update, as it may be logged, or the first refusal.
pub fn judge(
    alloc: Global,
    schema: &Schema,
    limits: &Limits,
    standing: &Standing,
    request: &UpdRequest,
) -> Result<Judged, UpdRefusal>
    requires { AreLimits limits.now }
    ensures rules { Rules schema.now limits.now standing.now.by standing.now.date standing.now.rows
        request.now.table (trees request.now.items) standing.now.moment result }
    ensures loggable { standing.now.by < no_pass → IfOk result (λ judged. IsLoggable schema.now judged.update) }
{
    let Some(table) = table_of(schema, &request.table) else {
        return Err(no_table(alloc, &request.table));
    };
    let kinds = schema.at(table).kinds.as_slice();
    let target = Target {
        name: &request.table,
        index: table as u32,
        kinds,
    };
    let items = request.items.as_slice();
    judge_timed(alloc, limits, standing, &target, items)
}
