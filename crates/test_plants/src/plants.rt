//! Plants over a disk in memory: updates of `trade` by one pass, and what a snapshot shows of them.
ghost use Rattle.std.specs.Prelude.{◌≡◌, ◌≤ℤ◌, negsuc, pos};

use date_loading::LoadRefusal;
use day_rows::Schema;
use outside_mem::{Calling, Callings, MemDisk};
use plant_core::{Access, LoadFailure, Plant, Solo, UpdTurn};
use plant_memory::{Snapshot, UpdRequest};
use q_values::{Atom, Column, Limits, NoMemory, Sym, Value, Values, Vector};
use schema_text::built_in_schema;
use std::alloc::Global;
use std::sync::Wait;

/// 2024.01.02, in days since 2000.01.01: the first date.
pub const FIRST: i32 = 8_767;

/// The index of `trade` in the built-in schema.
pub const TRADE: u32 = 1;

/// `0D09:30`, in nanoseconds.
pub const NINE_THIRTY: i64 = 34_200_000_000_000;

/// 2024.01.02D09:30, in nanoseconds since 2000.01.01.
pub const NOW: i64 = 757_503_000_000_000_000;

/// The number of calls of the disk that the load of a plant without a date makes.
pub const LOAD_CALLS: u64 = 10;

/// One row of `trade`: its time, symbol, price and size.
pub type Row = (i64, &'static str, i64, i64);

/// Calls that succeed, but for one after `place` others, which goes as `how` says.
pub fn one_failing(alloc: Global, place: u64, how: Calling) -> Result<Callings, NoMemory> {
    let mut callings = Callings::new(alloc);
    for _ in 0..place {
        callings.push(Calling::Succeeds)?;
    }
    callings.push(how)?;
    Ok(callings)
}

/// A symbol of this name.
pub fn symbol(alloc: Global, name: &str) -> Result<Sym, NoMemory> {
    match Sym::of(alloc, name.as_bytes()) {
        Ok(symbol) => Ok(symbol),
        Err(_) => Err(NoMemory),
    }
}

/// An update of one row.
pub fn request_of(alloc: Global, row: Row) -> Result<UpdRequest, NoMemory> {
    let (time, name, price, size) = row;
    let mut items = Values::new(alloc);
    items.push(Value::Atom(Atom::Timespan(time)))?;
    items.push(Value::Atom(Atom::Symbol(symbol(alloc, name)?)))?;
    items.push(Value::Atom(Atom::Long(price)))?;
    items.push(Value::Atom(Atom::Long(size)))?;
    Ok(UpdRequest {
        table: symbol(alloc, "trade")?,
        items,
    })
}

/// What becomes of an update of one row.
pub fn sent<R: Wait>(
    rt: &R,
    alloc: Global,
    solo: &mut Solo<MemDisk>,
    row: Row,
    now: i64,
) -> Result<UpdTurn, NoMemory> {
    let request = request_of(alloc, row)?;
    Ok(solo.upd(rt, alloc, &request, now))
}

/// Whether an update of one row is logged.
pub fn logs<R: Wait>(
    rt: &R,
    alloc: Global,
    solo: &mut Solo<MemDisk>,
    row: Row,
    now: i64,
) -> Result<bool, NoMemory> {
    Ok(matches!(sent(rt, alloc, solo, row, now)?, UpdTurn::Logged { .. }))
}

/// A disk with the built-in tables, where there is memory for one.
pub fn formatted(alloc: Global) -> Result<Option<MemDisk>, NoMemory> {
    let mut disk = MemDisk::new(alloc);
    let schema = built_in_schema(alloc)?;
    match Plant::<MemDisk>::format(alloc, &mut disk, &schema) {
        Ok(()) => Ok(Some(disk)),
        Err(_) => Ok(None),
    }
}

/// The plant of this disk, which has the built-in tables.
pub fn load(alloc: Global, disk: MemDisk, date: i32) -> Result<Plant<MemDisk>, LoadFailure<MemDisk>>
    requires first { negsuc 106751 ≤ℤ date }
    requires last { date ≤ℤ pos 106751 }
{
    match built_in_schema(alloc) {
        Ok(schema) => Plant::load(alloc, disk, schema, date, &Limits::standard()),
        Err(_) => Err(LoadFailure {
            disk,
            why: LoadRefusal::NoMemory,
        }),
    }
}

/// The pass that has the plant to itself, if a number is left for it.
pub fn alone(plant: Plant<MemDisk>) -> Option<Solo<MemDisk>> {
    if plant.next_by() == u64::MAX {
        return None;
    }
    Some(Solo::new(plant))
}

/// The pass that has a plant on this disk to itself, if the plant is loaded.
pub fn solo_at(alloc: Global, disk: MemDisk, date: i32) -> Option<Solo<MemDisk>>
    requires first { negsuc 106751 ≤ℤ date }
    requires last { date ≤ℤ pos 106751 }
{
    match load(alloc, disk, date) {
        Ok(plant) => alone(plant),
        Err(_) => None,
    }
}

/// The pass that has a new plant to itself, at the first date.
pub fn new_solo(alloc: Global) -> Result<Option<Solo<MemDisk>>, NoMemory> {
    match formatted(alloc)? {
        Some(disk) => Ok(solo_at(alloc, disk, FIRST)),
        None => Ok(None),
    }
}

/// A column of `trade` on the date with the index `k`, if they exist.
pub fn shown(
    alloc: Global,
    snapshot: &Snapshot,
    schema: &Schema,
    k: usize,
    column: u32,
) -> Result<Option<Vector>, NoMemory>
    requires { snapshot.now.frame.schema ≡ schema.now }
{
    if schema.len() <= TRADE as usize || k >= snapshot.dates() {
        return Ok(None);
    }
    let kinds = &schema.at(TRADE as usize).kinds;
    if kinds.len() <= column as usize {
        return Ok(None);
    }
    let _kind = *kinds.at(column as usize);
    let rows = snapshot.rows_at(k, TRADE);
    let part = snapshot.column(alloc, k, TRADE, column, 0, rows)?;
    Ok(Some(part))
}

/// Whether the column has these symbols.
pub fn are_symbols(column: &Vector, names: &[&str]) -> bool {
    match column.column() {
        Column::Symbols(symbols) if symbols.len() == names.len() => {
            (0..names.len()).all(|i| symbols.at(i) == names[i].as_bytes())
        }
        _ => false,
    }
}

/// Whether the column has these numbers.
pub fn are_longs(column: &Vector, items: &[i64]) -> bool {
    match column.column() {
        Column::Longs(_, own) => own.as_slice() == items,
        _ => false,
    }
}
