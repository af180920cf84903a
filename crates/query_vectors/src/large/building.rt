//! The bytes of large messages: updates of `trade` by many rows, and the answers that show them.
use std::alloc::Global;
use std::process::Abort;
use test_sessions::bytes::{GREETING, QUERY};

/// The date of the first day of the tests, in days since 2000.01.01, and its bytes.
const FIRST_DATE: i32 = 8767;

/// A column of `trade`, as the tests fill it: the row i of an update has the time i milliseconds, the symbol KX, the price
/// i and the size 2 i.
#[derive(Clone, Copy)]
enum Filling {
    Time,
    Symbol,
    Price,
    Size,
}

/// What an update consists of: the same rows, a number of times.
#[derive(Clone, Copy)]
pub struct Rows {
    /// The number of rows of one update.
    pub rows: u32,
    /// The number of updates.
    pub updates: u32,
}

impl Rows {
    fn count(self) -> u32 {
        self.rows.saturating_mul(self.updates)
    }
}

fn put_element(rt: &impl Abort, out: &mut Vec<u8>, filling: Filling, i: u32) {
    let number = i64::from(i);
    match filling {
        Filling::Time => out
            .extend_from_slice(&(number * 1_000_000).to_le_bytes())
            .expect(rt, "memory"),
        Filling::Symbol => out.extend_from_slice(b"KX\0").expect(rt, "memory"),
        Filling::Price => out
            .extend_from_slice(&number.to_le_bytes())
            .expect(rt, "memory"),
        Filling::Size => out
            .extend_from_slice(&(number * 2).to_le_bytes())
            .expect(rt, "memory"),
    }
}

fn put_elements(rt: &impl Abort, out: &mut Vec<u8>, filling: Filling, rows: u32) {
    for i in 0..rows {
        put_element(rt, out, filling, i);
    }
}

// A vector: its type byte, no attribute, its count, and the elements of each update.
fn put_column(rt: &impl Abort, out: &mut Vec<u8>, filling: Filling, shown: Rows) {
    let kind: u8 = match filling {
        Filling::Time => 16,
        Filling::Symbol => 11,
        Filling::Price | Filling::Size => 7,
    };
    out.extend_from_slice(&[kind, 0]).expect(rt, "memory");
    out.extend_from_slice(&shown.count().to_le_bytes())
        .expect(rt, "memory");
    for _ in 0..shown.updates {
        put_elements(rt, out, filling, shown.rows);
    }
}

fn put_columns(rt: &impl Abort, out: &mut Vec<u8>, shown: Rows) {
    put_column(rt, out, Filling::Time, shown);
    put_column(rt, out, Filling::Symbol, shown);
    put_column(rt, out, Filling::Price, shown);
    put_column(rt, out, Filling::Size, shown)
}

// A message of this kind: its header and its body.
fn message_of(rt: &impl Abort, alloc: Global, kind: u8, body: &[u8]) -> Vec<u8> {
    let length = u32::try_from(body.len().saturating_add(8)).unwrap_or(u32::MAX);
    let mut message = Vec::from_slice(alloc, &[1, kind, 0, 0]).expect(rt, "memory");
    message
        .extend_from_slice(&length.to_le_bytes())
        .expect(rt, "memory");
    message.extend_from_slice(body).expect(rt, "memory");
    message
}

/// A sync update of `trade` by this number of rows.
pub fn update_of(rt: &impl Abort, alloc: Global, rows: u32) -> Vec<u8> {
    let mut body = Vec::from_slice(
        alloc,
        b"\0\0\x03\0\0\0\xf5.u.upd\0\xf5trade\0\0\0\x04\0\0\0",
    )
    .expect(rt, "memory");
    put_columns(rt, &mut body, Rows { rows, updates: 1 });
    message_of(rt, alloc, 1, body.as_slice())
}

/// A sync update of a table whose third item is a vector, of these bytes.
pub fn update_by(rt: &impl Abort, alloc: Global, table: &[u8], items: &[u8]) -> Vec<u8> {
    let mut body = Vec::from_slice(alloc, b"\0\0\x03\0\0\0\xf5.u.upd\0\xf5").expect(rt, "memory");
    body.extend_from_slice(table).expect(rt, "memory");
    body.extend_from_slice(b"\0").expect(rt, "memory");
    body.extend_from_slice(items).expect(rt, "memory");
    message_of(rt, alloc, 1, body.as_slice())
}

// The front of a table of `trade` with its date: names, and the number of columns.
const TABLE: &[u8] = b"b\0c\x0b\0\x05\0\0\0date\0time\0sym\0price\0size\0\0\0\x05\0\0\0\x0e\0";

/// The answer that shows these rows on each of this number of dates, from the first on.
pub fn answer_of(rt: &impl Abort, alloc: Global, daily: Rows, dates: u16) -> Vec<u8> {
    let shown = Rows {
        rows: daily.rows,
        updates: daily.updates.saturating_mul(u32::from(dates)),
    };
    let mut body = Vec::from_slice(alloc, TABLE).expect(rt, "memory");
    body.extend_from_slice(&shown.count().to_le_bytes())
        .expect(rt, "memory");
    for day in 0..dates {
        put_dates(rt, &mut body, FIRST_DATE + i32::from(day), daily.count());
    }
    put_columns(rt, &mut body, shown);
    message_of(rt, alloc, 2, body.as_slice())
}

fn put_dates(rt: &impl Abort, out: &mut Vec<u8>, date: i32, count: u32) {
    let bytes = date.to_le_bytes();
    for _ in 0..count {
        out.extend_from_slice(&bytes).expect(rt, "memory");
    }
}

/// The handshake, and an update a number of times.
pub fn input_before(rt: &impl Abort, alloc: Global, update: &[u8], times: u32) -> Vec<u8> {
    let mut input = Vec::from_slice(alloc, GREETING).expect(rt, "memory");
    for _ in 0..times {
        input.extend_from_slice(update).expect(rt, "memory");
    }
    input
}

/// The handshake, an update a number of times, and the text `select from trade`.
pub fn input_of(rt: &impl Abort, alloc: Global, update: &[u8], times: u32) -> Vec<u8> {
    let mut input = input_before(rt, alloc, update, times);
    input.extend_from_slice(QUERY).expect(rt, "memory");
    input
}

/// A sync query of a text.
pub fn query_of(rt: &impl Abort, alloc: Global, text: &[u8]) -> Vec<u8> {
    let mut body = Vec::from_slice(alloc, &[10, 0]).expect(rt, "memory");
    let length = u32::try_from(text.len()).unwrap_or(u32::MAX);
    body.extend_from_slice(&length.to_le_bytes())
        .expect(rt, "memory");
    body.extend_from_slice(text).expect(rt, "memory");
    message_of(rt, alloc, 1, body.as_slice())
}

/// The answer that is one long: its type byte -7 and its bytes.
pub fn answer_of_long(rt: &impl Abort, alloc: Global, number: i64) -> Vec<u8> {
    let mut body = Vec::from_slice(alloc, &[0xf9]).expect(rt, "memory");
    body.extend_from_slice(&number.to_le_bytes())
        .expect(rt, "memory");
    message_of(rt, alloc, 2, body.as_slice())
}
