//! The bytes of messages (KX, IPC reference).
use std::alloc::Global;
use std::process::Abort;

/// One minute, in nanoseconds.
const MINUTE: i64 = 60_000_000_000;

/// Appends these bytes.
pub fn put(rt: &impl Abort, out: &mut Vec<u8>, bytes: &[u8]) {
    out.extend_from_slice(bytes).expect(rt, "memory");
}

/// A message: its header and its body. The byte `kind` is 0 for async, 1 for sync, 2 for a response.
pub fn message_of(rt: &impl Abort, alloc: Global, kind: u8, body: &[u8]) -> Vec<u8> {
    let length = u32::try_from(body.len().saturating_add(8)).unwrap_or(u32::MAX);
    let mut message = Vec::from_slice(alloc, &[1, kind, 0, 0]).expect(rt, "memory");
    put(rt, &mut message, &length.to_le_bytes());
    put(rt, &mut message, body);
    message
}

/// A text, as a char vector.
pub fn text_of(rt: &impl Abort, alloc: Global, kind: u8, text: &[u8]) -> Vec<u8> {
    let count = u32::try_from(text.len()).unwrap_or(u32::MAX);
    let mut body = Vec::from_slice(alloc, &[10u8, 0]).expect(rt, "memory");
    put(rt, &mut body, &count.to_le_bytes());
    put(rt, &mut body, text);
    message_of(rt, alloc, kind, body.as_slice())
}

/// Appends a long atom.
fn put_long(rt: &impl Abort, out: &mut Vec<u8>, number: i64) {
    put(rt, out, &[0xf9]);
    put(rt, out, &number.to_le_bytes());
}

/// A row of `trade` or `quote`: minutes after midnight, a symbol, and the numbers of the columns after it.
#[derive(Clone, Copy)]
pub struct Row<'a> {
    /// The time, in minutes.
    pub minute: i64,
    /// The symbol.
    pub sym: &'a [u8],
    /// `price` and `size`, or `bid`, `ask`, `bsize` and `asize`.
    pub numbers: &'a [i64],
}

/// An update of a table by one row.
pub fn update_of(rt: &impl Abort, alloc: Global, kind: u8, table: &[u8], row: Row) -> Vec<u8> {
    let count = u32::try_from(row.numbers.len().saturating_add(2)).unwrap_or(u32::MAX);
    let mut body = Vec::from_slice(alloc, b"\0\0\x03\0\0\0\xf5.u.upd\0\xf5").expect(rt, "memory");
    put(rt, &mut body, table);
    put(rt, &mut body, b"\0\0\0");
    put(rt, &mut body, &count.to_le_bytes());
    put(rt, &mut body, &[0xf0]);
    put(
        rt,
        &mut body,
        &row.minute.saturating_mul(MINUTE).to_le_bytes(),
    );
    put(rt, &mut body, b"\xf5");
    put(rt, &mut body, row.sym);
    put(rt, &mut body, b"\0");
    for number in row.numbers {
        put_long(rt, &mut body, *number);
    }
    message_of(rt, alloc, kind, body.as_slice())
}

/// Appends a sync update of a table for each of these rows.
pub fn put_updates(rt: &impl Abort, alloc: Global, out: &mut Vec<u8>, table: &[u8], rows: &[Row]) {
    for row in rows {
        let update = update_of(rt, alloc, 1, table, *row);
        put(rt, out, update.as_slice());
    }
}

/// The items of an update of `trade`, in the sync message that calls for it.
pub fn update_by(rt: &impl Abort, alloc: Global, items: &[u8]) -> Vec<u8> {
    let mut body = Vec::from_slice(alloc, b"\0\0\x03\0\0\0\xf5.u.upd\0\xf5trade\0").expect(
        rt, "memory",
    );
    put(rt, &mut body, items);
    message_of(rt, alloc, 1, body.as_slice())
}
