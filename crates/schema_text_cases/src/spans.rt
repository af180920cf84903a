//! The updates of a day from an index on: spans that begin anywhere, and that what they give back is what was logged.

use crate::blocks::{QUOTE, TRADE, update};
use crate::days::{begun, ended, log};
use day_rows::{ClosedDay, Entry, OpenDay};
use q_values::{Column, Vector};
use std::alloc::Global;
use std::process::Abort;

// How the updates of a day differ in size.
#[derive(Clone, Copy)]
enum Sizes {
    // one row each
    Ones,
    // one row, none or 300
    Mixed,
}

// The number of rows of the update with the index `i`.
fn rows_of(sizes: Sizes, i: usize) -> i64 {
    match (sizes, i % 100) {
        (Sizes::Mixed, 7) => 0,
        (Sizes::Mixed, 50) => 300,
        _ => 1,
    }
}

// The first number in each column of the update with the index `i`.
fn first_of(i: usize) -> i64 {
    (i % 1_000_000 * 1_000) as i64
}

// The table of the update with the index `i`.
fn table_of(i: usize) -> (u32, usize) {
    if i % 3 == 0 { QUOTE } else { TRADE }
}

// A day of this many updates, each by the pass with its index.
fn filled(rt: &impl Abort, alloc: Global, sizes: Sizes, count: usize) -> OpenDay {
    let mut day = begun(rt, alloc);
    for i in 0..count {
        let (of, first, n) = (table_of(i), first_of(i), rows_of(sizes, i));
        log(
            rt,
            alloc,
            &mut day,
            update(rt, alloc, i as u64, of, first, n),
        );
    }
    day
}

// Whether the column has `n` numbers, which count from `first` on; a column of symbols is passed over.
fn counts_from(column: &Vector, first: i64, n: i64) -> bool {
    let Column::Longs(_, items) = column.column() else {
        return true;
    };
    let mut next = first;
    for item in items {
        if *item != next {
            return false;
        }
        next = next.wrapping_add(1);
    }
    next == first.wrapping_add(n)
}

fn is_update(entry: &Entry, sizes: Sizes, i: usize) -> bool {
    let Entry::Upd { by, table, columns } = entry else {
        return false;
    };
    let (first, n) = (first_of(i), rows_of(sizes, i));
    let own = (*table, columns.len()) == table_of(i) && *by == i as u64;
    own && columns.iter().all(|column| counts_from(column, first, n))
}

// Whether these are the updates from the index `from` on, of `count` in all.
fn are_updates(entries: &[Entry], sizes: Sizes, from: usize, count: usize) -> bool {
    let mut next = from;
    for entry in entries {
        if !is_update(entry, sizes, next) {
            return false;
        }
        next = next.wrapping_add(1);
    }
    next == count
}

// Whether a day of `count` updates gives back those from each of these indices on.
fn gives(
    rt: &impl Abort,
    alloc: Global,
    day: &OpenDay,
    sizes: Sizes,
    count: usize,
    spans: &[usize],
) -> bool {
    for from in spans {
        if day.update_count() != count || *from > count {
            return false;
        }
        let found = day.updates_from(alloc, *from).expect(rt, "memory");
        if !are_updates(found.as_slice(), sizes, *from, count) {
            return false;
        }
    }
    true
}

// The same of a day that has ended.
fn gives_ended(
    rt: &impl Abort,
    alloc: Global,
    day: &ClosedDay,
    sizes: Sizes,
    count: usize,
    spans: &[usize],
) -> bool {
    for from in spans {
        if day.update_count() != count || *from > count {
            return false;
        }
        let found = day.updates_from(alloc, *from).expect(rt, "memory");
        if !are_updates(found.as_slice(), sizes, *from, count) {
            return false;
        }
    }
    true
}

// The same while the day is open, of a copy, and after its end.
fn gives_all(rt: &impl Abort, alloc: Global, sizes: Sizes, count: usize, spans: &[usize]) -> bool {
    let day = filled(rt, alloc, sizes, count);
    let copied = day.copy(alloc).expect(rt, "memory");
    gives(rt, alloc, &day, sizes, count, spans)
        && gives(rt, alloc, &copied, sizes, count, spans)
        && gives_ended(rt, alloc, &ended(rt, alloc, copied), sizes, count, spans)
}

#[test]
fn span_of_no_updates(rt: HostRuntime) {
    assert!(rt; gives_all(&rt, rt.alloc(), Sizes::Ones, 0, &[0]));
}

#[test]
fn spans_of_loose_rows(rt: HostRuntime) {
    let spans = [0, 1, 2, 500, 998, 999, 1_000];
    assert!(rt; gives_all(&rt, rt.alloc(), Sizes::Ones, 1_000, &spans));
}

#[test]
fn spans_over_blocks(rt: HostRuntime) {
    let spans = [
        0, 1, 1_023, 1_024, 1_025, 50_000, 98_303, 98_304, 98_305, 99_327, 99_328, 99_999, 100_000,
    ];
    assert!(rt; gives_all(&rt, rt.alloc(), Sizes::Ones, 100_000, &spans));
}

// Every third index up to this one, and the last ten.
fn many_spans(rt: &impl Abort, alloc: Global, count: usize) -> Vec<usize> {
    let mut spans = Vec::new(alloc);
    for from in 0..=count {
        if from % 3 == 0 || count - from < 10 {
            spans.push(from).expect(rt, "memory");
        }
    }
    spans
}

#[test]
fn spans_of_mixed_sizes(rt: HostRuntime) {
    let alloc = rt.alloc();
    assert!(rt;
        gives_all(
            &rt,
            alloc,
            Sizes::Mixed,
            1_210,
            &many_spans(&rt, alloc, 1_210)
        )
    );
}
