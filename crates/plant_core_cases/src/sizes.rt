//! Many rows and many updates, closed and loaded again.

use crate::closed::loaded;
use outside_mem::MemDisk;
use plant_core::{Access, Plant, Solo, UpdTurn};
use plant_memory::UpdRequest;
use q_values::{Column, LongKind, Symbols, Value, Values, Vector};
use std::alloc::Global;
use std::process::Abort;
use std::sync::Wait;
use test_plants::{FIRST, NINE_THIRTY, NOW, TRADE, new_solo, symbol};

fn longs(rt: &impl Abort, alloc: Global, kind: LongKind, item: i64, rows: usize) -> Value {
    let items = vec![in alloc; item; rows].expect(rt, "memory");
    Value::Vector(Vector::from_column(Column::Longs(kind, items)))
}

fn symbols(rt: &impl Abort, alloc: Global, rows: usize) -> Value {
    let mut items = Symbols::new(alloc);
    for _ in 0..rows {
        items.push(b"KX").expect(rt, "memory");
    }
    Value::Vector(Vector::from_column(Column::Symbols(items)))
}

// An update of this many rows of `trade`.
fn trades(rt: &impl Abort, alloc: Global, rows: usize) -> UpdRequest {
    let mut items = Values::new(alloc);
    items
        .push(longs(rt, alloc, LongKind::Timespan, NINE_THIRTY, rows))
        .expect(rt, "memory");
    items.push(symbols(rt, alloc, rows)).expect(rt, "memory");
    items
        .push(longs(rt, alloc, LongKind::Long, 10_050, rows))
        .expect(rt, "memory");
    items
        .push(longs(rt, alloc, LongKind::Long, 200, rows))
        .expect(rt, "memory");
    UpdRequest {
        table: symbol(alloc, "trade").expect(rt, "memory"),
        items,
    }
}

// Logs this many updates of as many rows each; whether each was logged.
fn logs_all<R: Abort + Wait>(
    rt: &R,
    alloc: Global,
    solo: &mut Solo<MemDisk>,
    updates: usize,
    rows: usize,
) -> bool {
    let request = trades(rt, alloc, rows);
    for _ in 0..updates {
        if !matches!(solo.upd(rt, alloc, &request, NOW), UpdTurn::Logged { .. }) {
            return false;
        }
    }
    true
}

// The disk of a plant after these updates, closed.
fn closed<R: Abort + Wait>(rt: &R, alloc: Global, updates: usize, rows: usize) -> Option<MemDisk> {
    let Some(mut solo) = new_solo(alloc).expect(rt, "memory") else {
        return None;
    };
    let logged = logs_all(rt, alloc, &mut solo, updates, rows);
    let disk = solo.into_plant().close();
    if logged { Some(disk) } else { None }
}

// The numbers of entries and of rows of `trade` on the first date.
fn counted(rt: &impl Abort, alloc: Global, plant: &Plant<MemDisk>) -> Option<(u64, u32)> {
    let snapshot = plant.snapshot(alloc).expect(rt, "memory");
    if plant.schema().len() <= TRADE as usize || snapshot.dates() != 1 {
        return None;
    }
    Some((plant.length(), snapshot.rows_at(0, TRADE)))
}

// The same numbers, of the plant of this disk.
fn counted_at(rt: &impl Abort, alloc: Global, disk: MemDisk) -> Option<(u64, u32)> {
    match loaded(alloc, disk, FIRST) {
        Some(plant) => counted(rt, alloc, &plant),
        None => None,
    }
}

// The same numbers, where this many updates of as many rows each are logged, and the plant is loaded again.
fn counts<R: Abort + Wait>(
    rt: &R,
    alloc: Global,
    updates: usize,
    rows: usize,
) -> Option<(u64, u32)> {
    match closed(rt, alloc, updates, rows) {
        Some(disk) => counted_at(rt, alloc, disk),
        None => None,
    }
}

#[test]
fn many_rows(rt: HostRuntime) {
    let alloc = rt.alloc();
    assert_eq!(rt; counts(&rt, alloc, 1, 1_000), Some((1, 1_000)));
    assert_eq!(rt; counts(&rt, alloc, 1, 100_000), Some((1, 100_000)));
}

#[test]
fn many_updates(rt: HostRuntime) {
    let alloc = rt.alloc();
    assert_eq!(rt; counts(&rt, alloc, 1_000, 1), Some((1_000, 1_000)));
}
