//! What the log of a plant has, as updates of the feeds and the end of a date.
use crate::plants::FIRST;
use crate::trades::{Feed, Row, rows_of};
use day_rows::{Entries, Entry};
use q_values::{Column, Columns};
use std::alloc::Global;
use std::process::Abort;

/// An entry of the log.
#[derive(Clone, Copy, PartialEq, Eq)]
pub(crate) enum Mark {
    /// The update of a feed with this number.
    Update(Feed, u32),
    /// The end of the first date.
    Ended,
}

fn long_at(columns: &Columns, column: usize, row: usize) -> Option<i64> {
    match columns.get(column)?.column() {
        Column::Longs(_, items) => items.get(row).copied(),
        _ => None,
    }
}

fn has_symbol(columns: &Columns, row: usize, symbol: &[u8]) -> bool {
    let Some(vector) = columns.get(1) else {
        return false;
    };
    match vector.column() {
        Column::Symbols(symbols) => symbols.get(row) == Some(symbol),
        _ => false,
    }
}

// How many rows an update has.
fn rows_in(columns: &Columns) -> usize {
    match columns.get(0) {
        Some(times) => times.len(),
        None => 0,
    }
}

// Whether the columns have these rows.
fn are_rows(columns: &Columns, rows: &[Row]) -> bool {
    let mut at = 0usize;
    for row in rows {
        let whole = long_at(columns, 0, at) == Some(row.time())
            && has_symbol(columns, at, row.symbol)
            && long_at(columns, 2, at) == Some(row.price)
            && long_at(columns, 3, at) == Some(row.number);
        if !whole {
            return false;
        }
        at = at.wrapping_add(1);
    }
    rows_in(columns) == rows.len()
}

// How many updates of a feed these are.
fn count_of(marks: &[Mark], feed: Feed) -> u32 {
    let mut count = 0u32;
    for mark in marks {
        if let Mark::Update(of, _) = mark
            && *of == feed
        {
            count = count.wrapping_add(1);
        }
    }
    count
}

// The entry after these, where it is the next update of a feed, row by row, or the end of the first date.
fn mark_of(rt: &impl Abort, alloc: Global, before: &[Mark], entry: &Entry) -> Option<Mark> {
    let columns = match entry {
        Entry::Upd { columns, .. } => columns,
        Entry::Roll { date, .. } if *date == FIRST + 1 => return Some(Mark::Ended),
        _ => return None,
    };
    let feed = if rows_in(columns) == 2 {
        Feed::Pairs
    } else {
        Feed::Singles
    };
    let number = count_of(before, feed);
    let rows = rows_of(rt, alloc, feed, number);
    are_rows(columns, rows.as_slice()).then_some(Mark::Update(feed, number))
}

/// The entries of the log, where it has what the feeds sent and the end of the first date, and nothing else.
pub(crate) fn marks_of(rt: &impl Abort, alloc: Global, entries: &Entries) -> Option<Vec<Mark>> {
    let mut marks = Vec::new(alloc);
    for entry in entries.as_slice() {
        let mark = mark_of(rt, alloc, marks.as_slice(), entry)?;
        marks.push(mark).expect(rt, "memory");
    }
    Some(marks)
}
