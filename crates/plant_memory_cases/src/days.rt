//! A day that a memory takes over, and a roll over days without updates.
ghost use Rattle.std.specs.Prelude.{◌≡◌, []};
ghost use Rattle.q_values.specs.Table.{rows_of};

use crate::plants::{DATE, HALF_PAST_NINE, NOW, begun, logs_trade, shows_symbols, symbol};
use day_rows::{Entries, Entry, OpenDay};
use plant_memory::Memory;
use q_values::{Column, Columns, Kind, LongKind, NANOSECONDS_PER_DAY, Vector};
use std::alloc::Global;
use std::process::Abort;

fn longs(rt: &impl Abort, alloc: Global, kind: LongKind, items: &[i64]) -> Vector {
    Vector::from_column(Column::Longs(kind, Vec::from_slice(alloc, items).expect(rt, "memory")))
}

fn symbols(rt: &impl Abort, alloc: Global, names: &[&str]) -> Vector {
    let mut vector = Vector::new(alloc, Kind::Symbol);
    for name in names {
        if vector.push(symbol(rt, alloc, name.as_bytes())).is_err() {
            panic!(rt; "no memory");
        }
    }
    vector
}

// Two rows of `trade`, of `c` and `b`.
fn two_rows(rt: &impl Abort, alloc: Global) -> Columns {
    let mut columns = Vec::new(alloc);
    let times = [HALF_PAST_NINE, HALF_PAST_NINE];
    columns
        .push(longs(rt, alloc, LongKind::Timespan, &times))
        .expect(rt, "memory");
    columns
        .push(symbols(rt, alloc, &["c", "b"]))
        .expect(rt, "memory");
    columns
        .push(longs(rt, alloc, LongKind::Long, &[10, 20]))
        .expect(rt, "memory");
    columns
        .push(longs(rt, alloc, LongKind::Long, &[1, 2]))
        .expect(rt, "memory");
    Columns::from_vec(alloc, columns).expect(rt, "memory")
}

fn rows_of(columns: &Columns) -> u64
    ensures { result ≡ rows_of columns.now }
{
    if columns.len() == 0 {
        return 0;
    }
    columns.at(0).len() as u64
}

// Takes over a day of one update of `trade`, which the pass 7 made.
fn adopts(rt: &impl Abort, alloc: Global, memory: &mut Memory) -> bool
    requires { memory.old.entries ≡ [] }
{
    let columns = two_rows(rt, alloc);
    let rows = rows_of(&columns);
    let mut entries = Entries::new(alloc);
    entries
        .push(Entry::Upd {
            by: 7,
            table: 1,
            columns,
        })
        .expect(rt, "memory");
    let mut day = OpenDay::new(alloc, memory.schema(), memory.date()).expect(rt, "memory");
    if !day.admits(&entries) {
        return false;
    }
    day.reserve(&entries).expect(rt, "memory");
    let mut items = entries.into_vec();
    day.push(items.swap_remove(0));
    memory.adopt(day, 1, rows, 7);
    rows == 2 && memory.length() == 1 && memory.next_by() == 8
}

// After the day was taken over, its rows are read before those of an update that follows.
fn goes_on(rt: &impl Abort, alloc: Global, memory: &mut Memory) -> bool {
    let arrived = shows_symbols(rt, alloc, memory, 0, &["c", "b"]);
    let more = logs_trade(rt, alloc, memory, HALF_PAST_NINE, b"a", 30, NOW);
    let all = shows_symbols(rt, alloc, memory, 0, &["c", "b", "a"]);
    let next = logs_trade(
        rt,
        alloc,
        memory,
        HALF_PAST_NINE,
        b"d",
        40,
        NOW + NANOSECONDS_PER_DAY,
    );
    let ended = shows_symbols(rt, alloc, memory, 0, &["a", "b", "c"]);
    let updates = memory.snapshot(alloc).expect(rt, "memory").updates_today() == 1;
    arrived && more && all && next && ended && updates && memory.length() == 4
}

fn day_is_adopted(rt: &impl Abort, alloc: Global) -> bool {
    match begun(rt, alloc) {
        Some(mut memory) => adopts(rt, alloc, &mut memory) && goes_on(rt, alloc, &mut memory),
        None => false,
    }
}

#[test]
fn day_of_a_log(rt: HostRuntime) {
    assert!(rt; day_is_adopted(&rt, rt.alloc()));
}

// Ends the open date and opens the one three days after it.
fn skips_days(rt: &impl Abort, alloc: Global, memory: &mut Memory) -> bool {
    let next = memory.date() + 3;
    if next > 106_751 {
        return false;
    }
    let roll = memory.prepare_roll(alloc, 0, next).expect(rt, "memory");
    let told = roll.by() == 0 && roll.date() == DATE + 3;
    let place = memory.commit_roll(roll);
    told && place == 1 && memory.date() == DATE + 3
}

fn is_rolled(rt: &impl Abort, alloc: Global, memory: &mut Memory) -> bool {
    let first = logs_trade(rt, alloc, memory, HALF_PAST_NINE, b"b", 10, NOW);
    let skipped = skips_days(rt, alloc, memory);
    let later = NOW + 3 * NANOSECONDS_PER_DAY;
    let second = logs_trade(rt, alloc, memory, HALF_PAST_NINE, b"a", 20, later);
    let snapshot = memory.snapshot(alloc).expect(rt, "memory");
    let dates = snapshot.dates() == 2 && snapshot.date_at(1) == DATE + 3;
    let ended = shows_symbols(rt, alloc, memory, 0, &["b"]);
    let open = shows_symbols(rt, alloc, memory, 1, &["a"]);
    first && skipped && second && dates && ended && open
}

fn days_are_skipped(rt: &impl Abort, alloc: Global) -> bool {
    match begun(rt, alloc) {
        Some(mut memory) => is_rolled(rt, alloc, &mut memory),
        None => false,
    }
}

#[test]
fn roll_over_three_days(rt: HostRuntime) {
    assert!(rt; days_are_skipped(&rt, rt.alloc()));
}
