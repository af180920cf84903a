//! A plant that is closed and loaded again from its disk.
ghost use Rattle.std.specs.Prelude.{◌≡◌, ◌≤ℤ◌, negsuc, pos};

use date_loading::LoadRefusal;
use date_logs::FormatRefusal;
use day_rows::{Schema, Shape};
use outside_mem::MemDisk;
use plant_core::{Access, LoadFailure, Plant, Solo, TickTurn};
use plant_memory::Snapshot;
use q_values::{Kind, Limits, NANOSECONDS_PER_DAY};
use schema_text::{built_in_schema, read_schema};
use std::alloc::Global;
use std::process::Abort;
use std::sync::Wait;
use test_plants::{
    FIRST, NINE_THIRTY, NOW, Row, are_longs, are_symbols, load, logs, new_solo, shown,
};

// 2024.01.03
const SECOND: i32 = 8_768;

const NEXT_DAY: i64 = NOW + NANOSECONDS_PER_DAY;

const NINE_THIRTY_ONE: i64 = NINE_THIRTY + 60_000_000_000;

const NINE_THIRTY_TWO: i64 = NINE_THIRTY + 120_000_000_000;

const FIRST_ROWS: [Row; 3] = [
    (NINE_THIRTY, "b", 10, 100),
    (NINE_THIRTY_ONE, "a", 20, 5),
    (NINE_THIRTY_TWO, "b", 11, 7),
];

const SECOND_ROWS: [Row; 2] = [(NINE_THIRTY, "c", 30, 1), (NINE_THIRTY_ONE, "a", 21, 9)];

// The built-in tables, but `size` is an int.
const INTEGER_SIZE: &[u8] =
    b"quote:([]time:`timespan$();sym:`symbol$();bid:`long$();ask:`long$();bsize:`long$();asize:`long$())
trade:([]time:`timespan$();sym:`symbol$();price:`long$();size:`int$())";

// Columns of `trade`.
#[derive(Drop)]
struct Shown {
    times: &'static [i64],
    names: &'static [&'static str],
    prices: &'static [i64],
    sizes: &'static [i64],
}

// The first date once it has ended: by symbol and arrival.
const FIRST_SHOWN: Shown = Shown {
    times: &[NINE_THIRTY_ONE, NINE_THIRTY, NINE_THIRTY_TWO],
    names: &["a", "b", "b"],
    prices: &[20, 10, 11],
    sizes: &[5, 100, 7],
};

// The open date: by arrival.
const SECOND_SHOWN: Shown = Shown {
    times: &[NINE_THIRTY, NINE_THIRTY_ONE],
    names: &["c", "a"],
    prices: &[30, 21],
    sizes: &[1, 9],
};

fn shows_symbols(
    rt: &impl Abort,
    alloc: Global,
    snapshot: &Snapshot,
    schema: &Schema,
    k: usize,
    names: &[&str],
) -> bool
    requires { snapshot.now.frame.schema ≡ schema.now }
{
    match shown(alloc, snapshot, schema, k, 1).expect(rt, "memory") {
        Some(column) => are_symbols(&column, names),
        None => false,
    }
}

fn shows_longs(
    rt: &impl Abort,
    alloc: Global,
    snapshot: &Snapshot,
    schema: &Schema,
    k: usize,
    column: u32,
    items: &[i64],
) -> bool
    requires { snapshot.now.frame.schema ≡ schema.now }
{
    match shown(alloc, snapshot, schema, k, column).expect(rt, "memory") {
        Some(column) => are_longs(&column, items),
        None => false,
    }
}

// Whether these are the four columns on the date with the index `k`.
fn shows(
    rt: &impl Abort,
    alloc: Global,
    snapshot: &Snapshot,
    schema: &Schema,
    k: usize,
    columns: &Shown,
) -> bool
    requires { snapshot.now.frame.schema ≡ schema.now }
{
    shows_longs(rt, alloc, snapshot, schema, k, 0, columns.times)
        && shows_symbols(rt, alloc, snapshot, schema, k, columns.names)
        && shows_longs(rt, alloc, snapshot, schema, k, 2, columns.prices)
        && shows_longs(rt, alloc, snapshot, schema, k, 3, columns.sizes)
}

fn logs_all<R: Abort + Wait>(
    rt: &R,
    alloc: Global,
    solo: &mut Solo<MemDisk>,
    rows: &[Row],
    now: i64,
) -> bool {
    for row in rows {
        if !logs(rt, alloc, solo, *row, now).expect(rt, "memory") {
            return false;
        }
    }
    true
}

// The plant of this disk, if it is loaded.
fn loaded(alloc: Global, disk: MemDisk, date: i32) -> Option<Plant<MemDisk>>
    requires first { negsuc 106751 ≤ℤ date }
    requires last { date ≤ℤ pos 106751 }
{
    load(alloc, disk, date).ok()
}

// Three updates, a roll and two updates.
fn feeds<R: Abort + Wait>(rt: &R, alloc: Global, solo: &mut Solo<MemDisk>) -> bool {
    let first = logs_all(rt, alloc, solo, &FIRST_ROWS, NOW);
    let rolled = solo.tick(rt, alloc, NEXT_DAY) == TickTurn::Rolled { place: 3 };
    let second = logs_all(rt, alloc, solo, &SECOND_ROWS, NEXT_DAY);
    first && rolled && second && solo.by() == 1
}

// Whether the snapshot has the rows of both dates.
fn shows_both(rt: &impl Abort, alloc: Global, snapshot: &Snapshot, schema: &Schema) -> bool
    requires { snapshot.now.frame.schema ≡ schema.now }
{
    shows(rt, alloc, snapshot, schema, 0, &FIRST_SHOWN)
        && shows(rt, alloc, snapshot, schema, 1, &SECOND_SHOWN)
}

// Whether the plant has the updates of both dates.
fn has_both(rt: &impl Abort, alloc: Global, plant: &Plant<MemDisk>) -> bool {
    if plant.length() != 6 || plant.next_by() != 2 || plant.date() != SECOND {
        return false;
    }
    let snapshot = plant.snapshot(alloc).expect(rt, "memory");
    shows_both(rt, alloc, &snapshot, plant.schema())
}

// The disk of the plant, if it has the updates of both dates.
fn closed(rt: &impl Abort, alloc: Global, plant: Plant<MemDisk>) -> Option<MemDisk> {
    let both = has_both(rt, alloc, &plant);
    let disk = plant.close();
    if both { Some(disk) } else { None }
}

// The disk of a new plant after three updates, a roll and two updates, if it has them.
fn fed<R: Abort + Wait>(rt: &R, alloc: Global) -> Option<MemDisk> {
    let Some(mut solo) = new_solo(alloc).expect(rt, "memory") else {
        return None;
    };
    let logged = feeds(rt, alloc, &mut solo);
    let back = closed(rt, alloc, solo.into_plant());
    if logged { back } else { None }
}

// The disk, if a plant that is loaded from it has the updates of both dates.
fn reloads(rt: &impl Abort, alloc: Global, disk: MemDisk) -> Option<MemDisk> {
    match loaded(alloc, disk, SECOND) {
        Some(plant) => closed(rt, alloc, plant),
        None => None,
    }
}

// Whether this is `trade`, with this kind of size.
fn is_trade(shape: &Shape, size: Kind) -> bool {
    let named = shape.table.bytes() == b"trade".as_slice();
    named && shape.names.len() == 4 && shape.kinds.get(3) == Some(&size)
}

// Whether the schema differs in the size of `trade`, which is kept as a long and given as an int.
fn is_size(why: &LoadRefusal) -> bool {
    match why {
        LoadRefusal::SchemaDiffers { table, kept, given } => {
            table.bytes() == b"trade".as_slice()
                && is_trade(kept, Kind::Long)
                && is_trade(given, Kind::Integer)
        }
        _ => false,
    }
}

// The disk that came back, where the refusal is as expected.
fn disk_of(failure: LoadFailure<MemDisk>, expected: bool) -> Option<MemDisk> {
    let LoadFailure { disk, why: _ } = failure;
    if expected { Some(disk) } else { None }
}

// What refuses to load a plant with a size that is an int.
fn with_integers(alloc: Global, disk: MemDisk) -> Option<LoadFailure<MemDisk>> {
    match read_schema(alloc, INTEGER_SIZE) {
        Ok(schema) => Plant::load(alloc, disk, schema, SECOND, &Limits::standard()).err(),
        Err(_) => None,
    }
}

// The disk, if it isn't loaded with a size that is an int.
fn differs(alloc: Global, disk: MemDisk) -> Option<MemDisk> {
    let failure = with_integers(alloc, disk)?;
    let expected = is_size(&failure.why);
    disk_of(failure, expected)
}

// What refuses to load a plant at the first date.
fn at_first(alloc: Global, disk: MemDisk) -> Option<LoadFailure<MemDisk>> {
    load(alloc, disk, FIRST).err()
}

// The disk, if it isn't loaded at the first date.
fn is_later(alloc: Global, disk: MemDisk) -> Option<MemDisk> {
    let failure = at_first(alloc, disk)?;
    let expected = matches!(&failure.why, LoadRefusal::EarlierDate { kept: SECOND });
    disk_of(failure, expected)
}

// The disk, if it isn't formatted again.
fn is_made(rt: &impl Abort, alloc: Global, mut disk: MemDisk) -> Option<MemDisk> {
    let schema = built_in_schema(alloc).expect(rt, "memory");
    match Plant::<MemDisk>::format(alloc, &mut disk, &schema) {
        Err(FormatRefusal::AlreadyMade) => Some(disk),
        _ => None,
    }
}

fn answers_are_same<R: Abort + Wait>(rt: &R, alloc: Global) -> bool {
    match fed(rt, alloc) {
        Some(disk) => reloads(rt, alloc, disk).is_some(),
        None => false,
    }
}

// The disk, if it loads after it came back with a refusal.
fn reloads_after(rt: &impl Abort, alloc: Global, back: Option<MemDisk>) -> Option<MemDisk> {
    match back {
        Some(disk) => reloads(rt, alloc, disk),
        None => None,
    }
}

// The disk, if it comes back with each refusal, and loads.
fn comes_back(rt: &impl Abort, alloc: Global, disk: MemDisk) -> Option<MemDisk> {
    let Some(disk) = reloads_after(rt, alloc, differs(alloc, disk)) else {
        return None;
    };
    let Some(disk) = reloads_after(rt, alloc, is_later(alloc, disk)) else {
        return None;
    };
    reloads_after(rt, alloc, is_made(rt, alloc, disk))
}

fn refusals_keep<R: Abort + Wait>(rt: &R, alloc: Global) -> bool {
    match fed(rt, alloc) {
        Some(disk) => comes_back(rt, alloc, disk).is_some(),
        None => false,
    }
}

#[test]
fn reload_same_answers(rt: HostRuntime) {
    assert!(rt; answers_are_same(&rt, rt.alloc()));
    assert!(rt; refusals_keep(&rt, rt.alloc()));
}

// Whether the snapshot has the update on its first date, and a second date with nothing in it.
fn shows_one(rt: &impl Abort, alloc: Global, snapshot: &Snapshot, schema: &Schema) -> bool
    requires { snapshot.now.frame.schema ≡ schema.now }
{
    snapshot.dates() == 2
        && shows_symbols(rt, alloc, snapshot, schema, 0, &["b"])
        && shows_symbols(rt, alloc, snapshot, schema, 1, &[])
}

// Whether the plant opened a date five days later, with nothing in it.
fn has_rolled(rt: &impl Abort, alloc: Global, plant: &Plant<MemDisk>) -> bool {
    if plant.length() != 2 || plant.opened_at() != 2 || plant.date() != FIRST + 5 {
        return false;
    }
    let snapshot = plant.snapshot(alloc).expect(rt, "memory");
    shows_one(rt, alloc, &snapshot, plant.schema())
}

// The disk of a new plant after one update, closed.
fn one_update<R: Abort + Wait>(rt: &R, alloc: Global) -> Option<MemDisk> {
    let Some(mut solo) = new_solo(alloc).expect(rt, "memory") else {
        return None;
    };
    let logged = logs(rt, alloc, &mut solo, FIRST_ROWS[0], NOW).expect(rt, "memory");
    let disk = solo.into_plant().close();
    if logged { Some(disk) } else { None }
}

// Loads a plant of one update five days later.
fn rolls_once(rt: &impl Abort, alloc: Global, disk: MemDisk) -> bool {
    match loaded(alloc, disk, FIRST + 5) {
        Some(plant) => has_rolled(rt, alloc, &plant),
        None => false,
    }
}

fn loads_later<R: Abort + Wait>(rt: &R, alloc: Global) -> bool {
    match one_update(rt, alloc) {
        Some(disk) => rolls_once(rt, alloc, disk),
        None => false,
    }
}

#[test]
fn reload_days_later(rt: HostRuntime) {
    assert!(rt; loads_later(&rt, rt.alloc()));
}
