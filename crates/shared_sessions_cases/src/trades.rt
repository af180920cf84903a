//! What the feeds send, and what subscribers are told of it, byte by byte (KX, IPC reference).
use std::alloc::Global;
use std::process::Abort;

/// A feed of `trade`.
#[derive(Clone, Copy, PartialEq, Eq)]
pub(crate) enum Feed {
    /// Each of its updates has two rows, of `AB` and of `KX`.
    Pairs,
    /// Each of its updates has one row, of `CD`.
    Singles,
}

/// The symbols of the rows.
pub(crate) const AB: &[u8] = b"AB";

pub(crate) const CD: &[u8] = b"CD";

pub(crate) const KX: &[u8] = b"KX";

/// A row of `trade`.
#[derive(Clone, Copy)]
pub(crate) struct Row {
    pub(crate) symbol: &'static [u8],
    pub(crate) price: i64,
    // the number of its update, which is its size, and is in its time
    pub(crate) number: i64,
}

// 0D09:30, in nanoseconds.
const HALF_PAST_NINE: i64 = 34_200_000_000_000;

impl Row {
    pub(crate) fn time(&self) -> i64 {
        self.number.saturating_add(HALF_PAST_NINE)
    }
}

// The front of an update of `trade` by vectors, and of its publication.
const UPDATE: &[u8] = b"\0\0\x03\0\0\0\xf5.u.upd\0\xf5trade\0\0\0\x04\0\0\0";

const TOLD: &[u8] =
    b"\0\0\x03\0\0\0\xf5upd\0\xf5trade\0b\0c\x0b\0\x04\0\0\0time\0sym\0price\0size\0\0\0\x04\0\0\0";

fn row_of(symbol: &'static [u8], base: i64, number: u32) -> Row {
    let number = i64::from(number);
    Row {
        symbol,
        price: base.saturating_add(number),
        number,
    }
}

/// The rows of a feed's update, by its number.
pub(crate) fn rows_of(rt: &impl Abort, alloc: Global, feed: Feed, number: u32) -> Vec<Row> {
    let mut rows = Vec::new(alloc);
    match feed {
        Feed::Pairs => {
            rows.push(row_of(AB, 10_000, number)).expect(rt, "memory");
            rows.push(row_of(KX, 20_000, number)).expect(rt, "memory");
        }
        Feed::Singles => rows.push(row_of(CD, 30_000, number)).expect(rt, "memory"),
    }
    rows
}

/// Puts these bytes at the end.
pub(crate) fn put(rt: &impl Abort, out: &mut Vec<u8>, bytes: &[u8]) {
    out.extend_from_slice(bytes).expect(rt, "memory");
}

// The front of a vector of this kind and length.
fn put_head(rt: &impl Abort, out: &mut Vec<u8>, kind: u8, count: usize) {
    put(rt, out, &[kind, 0]);
    let count = u32::try_from(count).unwrap_or(u32::MAX);
    put(rt, out, &count.to_le_bytes());
}

fn put_times(rt: &impl Abort, out: &mut Vec<u8>, rows: &[Row]) {
    put_head(rt, out, 16, rows.len());
    for row in rows {
        put(rt, out, &row.time().to_le_bytes());
    }
}

fn put_symbols(rt: &impl Abort, out: &mut Vec<u8>, rows: &[Row]) {
    put_head(rt, out, 11, rows.len());
    for row in rows {
        put(rt, out, row.symbol);
        put(rt, out, &[0]);
    }
}

fn put_prices(rt: &impl Abort, out: &mut Vec<u8>, rows: &[Row]) {
    put_head(rt, out, 7, rows.len());
    for row in rows {
        put(rt, out, &row.price.to_le_bytes());
    }
}

fn put_sizes(rt: &impl Abort, out: &mut Vec<u8>, rows: &[Row]) {
    put_head(rt, out, 7, rows.len());
    for row in rows {
        put(rt, out, &row.number.to_le_bytes());
    }
}

// A message of these rows after this front; `kind` is 1 for a sync one and 0 for an async one.
fn message(rt: &impl Abort, alloc: Global, kind: u8, front: &[u8], rows: &[Row]) -> Vec<u8> {
    let mut body = Vec::from_slice(alloc, front).expect(rt, "memory");
    put_times(rt, &mut body, rows);
    put_symbols(rt, &mut body, rows);
    put_prices(rt, &mut body, rows);
    put_sizes(rt, &mut body, rows);
    let length = u32::try_from(body.len().saturating_add(8)).unwrap_or(u32::MAX);
    let mut message = Vec::from_slice(alloc, &[1, kind, 0, 0]).expect(rt, "memory");
    put(rt, &mut message, &length.to_le_bytes());
    put(rt, &mut message, body.as_slice());
    message
}

/// A feed's update, by its number: a sync `.u.upd`.
pub(crate) fn update_of(rt: &impl Abort, alloc: Global, feed: Feed, number: u32) -> Vec<u8> {
    let rows = rows_of(rt, alloc, feed, number);
    message(rt, alloc, 1, UPDATE, rows.as_slice())
}

/// The publication of these rows of one update: an async `upd`.
pub(crate) fn told_of(rt: &impl Abort, alloc: Global, rows: &[Row]) -> Vec<u8> {
    message(rt, alloc, 0, TOLD, rows)
}
