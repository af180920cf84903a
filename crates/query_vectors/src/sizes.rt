//! Answers over a hundred thousand rows, and the limit on a response, with ample memory.
use crate::building::{message_of, put, text_of, update_by};
use crate::sitting::{Asked, Given, answers, done_times};
use q_values::{Limits, Turn};
use session::End;
use std::alloc::Global;
use std::process::Abort;
use std::sync::Wait;
use test_sessions::bytes::{GREETED, GREETING};
use test_sessions::{NOW, Outcome, sat};

/// The number of rows.
const ROWS: u32 = 100_000;

/// The symbols, which the rows have in turn.
const SYMBOLS: [&[u8]; 4] = [b"A\0", b"B\0", b"C\0", b"D\0"];

// The front of a vector: its type, no attribute, and its count.
fn put_head(rt: &impl Abort, out: &mut Vec<u8>, kind: u8) {
    put(rt, out, &[kind, 0]);
    put(rt, out, &ROWS.to_le_bytes());
}

// Longs that are a multiple of the row's number.
fn put_longs(rt: &impl Abort, out: &mut Vec<u8>, kind: u8, by: i64) {
    put_head(rt, out, kind);
    for i in 0..ROWS {
        put(rt, out, &i64::from(i).wrapping_mul(by).to_le_bytes());
    }
}

fn put_symbols(rt: &impl Abort, out: &mut Vec<u8>) {
    put_head(rt, out, 11);
    for i in 0..ROWS {
        put(rt, out, SYMBOLS[(i % 4) as usize]);
    }
}

/// The update of `trade` whose row i has the time i, the symbol A, B, C or D in turn, the price i and the size 2 i.
fn large_update(rt: &impl Abort, alloc: Global) -> Vec<u8> {
    let mut items = Vec::from_slice(alloc, b"\0\0\x04\0\0\0").expect(rt, "memory");
    put_longs(rt, &mut items, 16, 1);
    put_symbols(rt, &mut items);
    put_longs(rt, &mut items, 7, 1);
    put_longs(rt, &mut items, 7, 2);
    update_by(rt, alloc, items.as_slice())
}

/// The table of the last price and the sum of sizes by symbol. The sums of 2 i over i = 4 k + g for k below 25,000 are
/// 2,499,900,000 + 50,000 g, and the last i of each is 99,996 + g.
fn grouped(rt: &impl Abort, alloc: Global) -> Vec<u8> {
    let mut value = Vec::from_slice(
        alloc,
        b"cb\0c\x0b\0\x01\0\0\0sym\0\0\0\x01\0\0\0\x0b\0\x04\0\0\0A\0B\0C\0D\0\
b\0c\x0b\0\x02\0\0\0price\0size\0\0\0\x02\0\0\0\x07\0\x04\0\0\0",
    )
    .expect(rt, "memory");
    for group in 0..4i64 {
        put(rt, &mut value, &(99_996 + group).to_le_bytes());
    }
    put(rt, &mut value, b"\x07\0\x04\0\0\0");
    for group in 0..4i64 {
        let total = group.wrapping_mul(50_000).wrapping_add(2_499_900_000);
        put(rt, &mut value, &total.to_le_bytes());
    }
    value
}

fn groups_are_answered<R: Abort + Wait>(rt: &R, alloc: Global) -> bool {
    let update = large_update(rt, alloc);
    let value = grouped(rt, alloc);
    let sent = done_times(rt, alloc, 1);
    let given = Given {
        updates: update.as_slice(),
        readings: &[NOW],
        sent: sent.as_slice(),
        turns: &[Turn::Logged { place: 0, now: NOW }],
    };
    let text = b"select last price,sum size by sym from trade";
    let texts: [Asked; 3] = [
        (text, value.as_slice()),
        (text, value.as_slice()),
        (text, value.as_slice()),
    ];
    answers(rt, alloc, given, 1, &texts)
}

#[test]
fn a_hundred_thousand_rows_by_symbol(rt: HostRuntime) {
    assert!(rt; groups_are_answered(&rt, rt.alloc()));
}

/// The table of all rows by time, each a group of its own: the keys are the times, and the sizes 2 i.
fn rows_by_time(rt: &impl Abort, alloc: Global) -> Vec<u8> {
    let mut value = Vec::from_slice(alloc, b"cb\0c\x0b\0\x01\0\0\0time\0\0\0\x01\0\0\0").expect(
        rt, "memory",
    );
    put_longs(rt, &mut value, 16, 1);
    put(rt, &mut value, b"b\0c\x0b\0\x01\0\0\0size\0\0\0\x01\0\0\0");
    put_longs(rt, &mut value, 7, 2);
    value
}

fn rows_are_groups<R: Abort + Wait>(rt: &R, alloc: Global) -> bool {
    let update = large_update(rt, alloc);
    let value = rows_by_time(rt, alloc);
    let sent = done_times(rt, alloc, 1);
    let given = Given {
        updates: update.as_slice(),
        readings: &[NOW],
        sent: sent.as_slice(),
        turns: &[Turn::Logged { place: 0, now: NOW }],
    };
    let text = b"select first size by time from trade";
    let texts: [Asked; 2] = [(text, value.as_slice()), (text, value.as_slice())];
    answers(rt, alloc, given, 1, &texts)
}

#[test]
fn a_hundred_thousand_groups(rt: HostRuntime) {
    assert!(rt; rows_are_groups(&rt, rt.alloc()));
}

/// Whether the text `exec time from trade`, whose response on an empty table has 14 bytes, is answered so where a response
/// has at most `most` bytes.
fn is_limited<R: Abort + Wait>(rt: &R, alloc: Global, most: u32, value: &[u8]) -> bool {
    let mut limits = Limits::standard();
    limits.reply = most.min(1_000_000);
    let mut input = Vec::from_slice(alloc, GREETING).expect(rt, "memory");
    let text = text_of(rt, alloc, 1, b"exec time from trade");
    put(rt, &mut input, text.as_slice());
    let mut output = Vec::from_slice(alloc, GREETED).expect(rt, "memory");
    let response = message_of(rt, alloc, 2, value);
    put(rt, &mut output, response.as_slice());
    match sat(rt, alloc, &limits, &[NOW], input.as_slice()).expect(rt, "memory") {
        Some(Outcome { end, link, .. }) => end == End::Closed && link.taken() == output.as_slice(),
        None => false,
    }
}

#[test]
fn response_at_the_limit(rt: HostRuntime) {
    assert!(rt; is_limited(&rt, rt.alloc(), 14, b"\x10\0\0\0\0\0"));
    assert!(rt; is_limited(&rt, rt.alloc(), 13, b"\x80limit\0"));
}
