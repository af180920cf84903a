//! Days of many rows: when blocks are sealed, and that what a day gives back is what was logged.
ghost use Rattle.std.specs.Prelude.{◌≡◌};

use crate::days::{begun, ended, log};
use day_rows::{Entry, OpenDay};
use q_values::{Column, Columns, LongKind, Symbols, Vector};
use std::alloc::Global;
use std::process::Abort;

fn longs(rt: &impl Abort, alloc: Global, kind: LongKind, first: i64, n: i64) -> Vector {
    let mut items = Vec::new(alloc);
    for i in 0..n {
        items.push(first.wrapping_add(i)).expect(rt, "memory");
    }
    Vector::from_column(Column::Longs(kind, items))
}

// `n` symbols, in turn `b` and `a`.
fn names(rt: &impl Abort, alloc: Global, first: i64, n: i64) -> Vector {
    let mut symbols = Symbols::new(alloc);
    for i in 0..n {
        let name: &[u8] = if first.wrapping_add(i) % 2 == 0 {
            b"b"
        } else {
            b"a"
        };
        symbols.push(name).expect(rt, "memory");
    }
    Vector::from_column(Column::Symbols(symbols))
}

/// The index of `quote` in the schema, and the number of its columns.
pub(crate) const QUOTE: (u32, usize) = (0, 6);

/// The same of `trade`.
pub(crate) const TRADE: (u32, usize) = (1, 4);

/// An update of a table by a pass, with `n` rows, the numbers of which count from `first` on in each column.
pub(crate) fn update(
    rt: &impl Abort,
    alloc: Global,
    by: u64,
    of: (u32, usize),
    first: i64,
    n: i64,
) -> Entry {
    let mut columns = Columns::new(alloc);
    columns
        .push(longs(rt, alloc, LongKind::Timespan, first, n))
        .expect(rt, "memory");
    columns
        .push(names(rt, alloc, first, n))
        .expect(rt, "memory");
    for _ in 2..of.1 {
        columns
            .push(longs(rt, alloc, LongKind::Long, first, n))
            .expect(rt, "memory");
    }
    Entry::Upd {
        by,
        table: of.0,
        columns,
    }
}

// Adds an update of `trade` to the day.
fn log_trades(rt: &impl Abort, alloc: Global, day: &mut OpenDay, first: i64, n: i64) {
    log(rt, alloc, day, update(rt, alloc, 1, TRADE, first, n));
}

// A day with this many updates of one row, and then one update of each of the larger sizes.
fn filled(rt: &impl Abort, alloc: Global, singles: i64, larger: &[i64]) -> OpenDay {
    let mut day = begun(rt, alloc);
    for i in 0..singles {
        log_trades(rt, alloc, &mut day, i, 1);
    }
    let mut first = singles;
    for n in larger {
        log_trades(rt, alloc, &mut day, first, *n);
        first = first.wrapping_add(*n);
    }
    day
}

// Whether the prices of the updates count from 0, and how many they are.
fn prices(entries: &[Entry]) -> Option<i64> {
    let mut next = 0;
    for entry in entries {
        next = prices_from(entry, next)?;
    }
    Some(next)
}

fn prices_from(entry: &Entry, first: i64) -> Option<i64> {
    let Entry::Upd { columns, .. } = entry else {
        return None;
    };
    let Column::Longs(_, items) = columns.get(2)?.column() else {
        return None;
    };
    let mut next = first;
    for item in items {
        if *item != next {
            return None;
        }
        next = next.wrapping_add(1);
    }
    Some(next)
}

// The sealed blocks of a day with these updates, and its rows that are in none.
fn sealed(rt: &impl Abort, alloc: Global, singles: i64, larger: &[i64]) -> (usize, usize) {
    let day = filled(rt, alloc, singles, larger);
    (day.blocks(), day.loose_rows())
}

#[test]
fn rows_below_block(rt: HostRuntime) {
    assert_eq!(rt; sealed(&rt, rt.alloc(), 1023, &[]), (0, 1023));
}

#[test]
fn block_seals(rt: HostRuntime) {
    assert_eq!(rt; sealed(&rt, rt.alloc(), 1024, &[]), (1, 0));
}

#[test]
fn large_update_seals(rt: HostRuntime) {
    assert_eq!(rt; sealed(&rt, rt.alloc(), 1024, &[5000]), (2, 0));
}

// The updates of a day, and how many prices they have, if these count from 0.
fn kept(rt: &impl Abort, alloc: Global, day: &OpenDay) -> (usize, Option<i64>) {
    let entries = day.updates(alloc).expect(rt, "memory");
    (entries.len(), prices(entries.as_slice()))
}

#[test]
fn empty_update_keeps_blocks(rt: HostRuntime) {
    let alloc = rt.alloc();
    assert_eq!(rt; sealed(&rt, alloc, 1024, &[5000, 0]), (2, 0));
    let day = filled(&rt, alloc, 1024, &[5000, 0]);
    assert_eq!(rt; kept(&rt, alloc, &day), (1026, Some(6024)));
}

// The same of a day that ends.
fn kept_at_the_end(rt: &impl Abort, alloc: Global, day: OpenDay) -> (usize, Option<i64>) {
    let entries = ended(rt, alloc, day).updates(alloc).expect(rt, "memory");
    (entries.len(), prices(entries.as_slice()))
}

#[test]
fn many_rows_are_given_back(rt: HostRuntime) {
    let alloc = rt.alloc();
    let day = filled(&rt, alloc, 5000, &[100000, 3, 20000]);
    let copied = day.copy(alloc).expect(&rt, "memory");
    let wanted = (5003, Some(125003));
    let found = [
        kept(&rt, alloc, &day),
        kept(&rt, alloc, &copied),
        kept_at_the_end(&rt, alloc, copied),
    ];
    assert_eq!(rt; found, [wanted; 3]);
}

// A full block in each update.
const FULL: [i64; 300] = [1024; 300];

// Whether a copy of a day with this many blocks has the same updates, and stays as it is while the day goes on.
fn copy_stands(rt: &impl Abort, alloc: Global, count: usize) -> bool {
    let full = &FULL[..count.min(FULL.len())];
    let rows = 1024 * full.len() as i64;
    let mut day = filled(rt, alloc, 0, full);
    let copied = day.copy(alloc).expect(rt, "memory");
    log_trades(rt, alloc, &mut day, rows, 5);
    let counted = copied.blocks() == count && copied.loose_rows() == 0 && day.loose_rows() == 5;
    let before = kept(rt, alloc, &copied).1 == Some(rows);
    let after = kept(rt, alloc, &day).1 == Some(rows + 5);
    counted && before && after
}

#[test]
fn copies_of_many_blocks_stand(rt: HostRuntime) {
    let alloc = rt.alloc();
    for count in [1usize, 127, 128, 129, 256, 300] {
        assert!(rt; copy_stands(&rt, alloc, count));
    }
}
