//! Subscribers at real sizes, with ample memory: each row is sent once, and in order.
use crate::subscriptions::bytes::{SECOND_TOLD, TO_A, TRADE};
use q_values::Limits;
use session::End;
use std::alloc::Global;
use std::process::Abort;
use std::sync::Wait;
use test_sessions::bytes::{DONE, GREETED, GREETING, SECOND};
use test_sessions::{NOW, Outcome, sat};

// The front of an update of `trade` by vectors, and of its publication.
const UPDATE: &[u8] = b"\0\0\x03\0\0\0\xf5.u.upd\0\xf5trade\0\0\0\x04\0\0\0";

const TOLD: &[u8] =
    b"\0\0\x03\0\0\0\xf5upd\0\xf5trade\0b\0c\x0b\0\x04\0\0\0time\0sym\0price\0size\0\0\0\x04\0\0\0";

// The text ``.u.sub[`trade;`]``.
const TO_TRADE: &[u8] = b"\x01\x01\0\0\x1e\0\0\0\x0a\0\x10\0\0\0.u.sub[`trade;`]";

// Which of the rows, which are of `a` and `b` in turn.
#[derive(Clone, Copy)]
enum Chosen {
    All,
    OfA,
}

fn is_chosen(chosen: Chosen, row: u32) -> bool {
    match chosen {
        Chosen::All => true,
        Chosen::OfA => row % 2 == 0,
    }
}

fn put(rt: &impl Abort, out: &mut Vec<u8>, bytes: &[u8]) {
    out.extend_from_slice(bytes).expect(rt, "memory");
}

// The front of a vector of the chosen rows.
fn put_head(rt: &impl Abort, out: &mut Vec<u8>, kind: u8, rows: u32, chosen: Chosen) {
    let count = match chosen {
        Chosen::All => rows,
        Chosen::OfA => rows / 2,
    };
    put(rt, out, &[kind, 0]);
    put(rt, out, &count.to_le_bytes());
}

// A vector of the chosen rows' numbers.
fn put_numbers(rt: &impl Abort, out: &mut Vec<u8>, kind: u8, rows: u32, chosen: Chosen) {
    put_head(rt, out, kind, rows, chosen);
    for row in 0..rows {
        if is_chosen(chosen, row) {
            put(rt, out, &i64::from(row).to_le_bytes());
        }
    }
}

fn put_symbols(rt: &impl Abort, out: &mut Vec<u8>, rows: u32, chosen: Chosen) {
    put_head(rt, out, 11, rows, chosen);
    for row in 0..rows {
        if is_chosen(chosen, row) {
            put(rt, out, if row % 2 == 0 { b"a\0" } else { b"b\0" });
        }
    }
}

// A message of the chosen rows of an update, after this front; `kind` is 1 for a sync one and 0 for an async one.
fn message(
    rt: &impl Abort,
    alloc: Global,
    kind: u8,
    front: &[u8],
    rows: u32,
    chosen: Chosen,
) -> Vec<u8> {
    let mut body = Vec::from_slice(alloc, front).expect(rt, "memory");
    put_numbers(rt, &mut body, 16, rows, chosen);
    put_symbols(rt, &mut body, rows, chosen);
    put_numbers(rt, &mut body, 7, rows, chosen);
    put_numbers(rt, &mut body, 7, rows, chosen);
    let length = u32::try_from(body.len().saturating_add(8)).unwrap_or(u32::MAX);
    let mut message = Vec::from_slice(alloc, &[1, kind, 0, 0]).expect(rt, "memory");
    put(rt, &mut message, &length.to_le_bytes());
    put(rt, &mut message, body.as_slice());
    message
}

// The handshake, a subscription, and an update a number of times.
fn input(rt: &impl Abort, alloc: Global, to: &[u8], update: &[u8], times: u32) -> Vec<u8> {
    let mut input = Vec::from_slice(alloc, GREETING).expect(rt, "memory");
    put(rt, &mut input, to);
    for _ in 0..times {
        put(rt, &mut input, update);
    }
    input
}

// Whether these are the answers to the handshake and the subscription, and then, this many times, that of the update and its
// publication.
fn are_told(sent: &[u8], publication: &[u8], times: u32) -> bool {
    let Some(mut rest) = sent.strip_prefix(GREETED) else {
        return false;
    };
    let Some(more) = rest.strip_prefix(TRADE) else {
        return false;
    };
    rest = more;
    for _ in 0..times {
        let Some(answered) = rest.strip_prefix(DONE) else {
            return false;
        };
        match answered.strip_prefix(publication) {
            Some(more) => rest = more,
            None => return false,
        }
    }
    rest.is_empty()
}

// Whether a session that subscribes, and is then sent this update a number of times, is told each time.
fn tells<R: Abort + Wait>(
    rt: &R,
    alloc: Global,
    to: &[u8],
    update: &[u8],
    publication: &[u8],
    times: u32,
) -> bool {
    let input = input(rt, alloc, to, update, times);
    match sat(rt, alloc, &Limits::standard(), &[NOW], input.as_slice()).expect(rt, "memory") {
        Some(Outcome { end, link, .. }) => {
            end == End::Closed && are_told(link.taken(), publication, times)
        }
        None => false,
    }
}

// Whether updates of this many rows are told to a subscriber of these.
fn tells_rows<R: Abort + Wait>(
    rt: &R,
    alloc: Global,
    to: &[u8],
    rows: u32,
    chosen: Chosen,
    times: u32,
) -> bool {
    let update = message(rt, alloc, 1, UPDATE, rows, Chosen::All);
    let publication = message(rt, alloc, 0, TOLD, rows, chosen);
    tells(
        rt,
        alloc,
        to,
        update.as_slice(),
        publication.as_slice(),
        times,
    )
}

#[test]
fn updates_of_a_thousand_rows(rt: HostRuntime) {
    assert!(rt; tells_rows(&rt, rt.alloc(), TO_TRADE, 1_000, Chosen::All, 3));
    assert!(rt; tells_rows(&rt, rt.alloc(), TO_A, 1_000, Chosen::OfA, 3));
}

#[test]
fn updates_of_a_hundred_thousand_rows(rt: HostRuntime) {
    assert!(rt; tells_rows(&rt, rt.alloc(), TO_TRADE, 100_000, Chosen::All, 3));
    assert!(rt; tells_rows(&rt, rt.alloc(), TO_A, 100_000, Chosen::OfA, 3));
}

#[test]
fn a_thousand_updates(rt: HostRuntime) {
    assert!(rt; tells(&rt, rt.alloc(), TO_A, SECOND, SECOND_TOLD, 1_000));
}
