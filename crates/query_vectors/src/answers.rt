//! Queries over two dates: phrases, aggregates, groups, an as-of join, the count of updates and the open date.
use crate::building::{Row, put, put_updates, text_of, update_by, update_of};
use crate::sitting::{Asked, Given, answers, done_times};
use q_values::{NANOSECONDS_PER_DAY, Turn};
use std::alloc::Global;
use std::process::Abort;
use std::sync::Wait;
use test_sessions::NOW;

/// A moment of the next date.
const NEXT: i64 = NOW + NANOSECONDS_PER_DAY;

/// The readings of the clock for three updates today and two on the next date.
const READINGS: [i64; 5] = [NOW, NOW, NOW, NEXT, NEXT];

/// The turns of the five updates.
const TURNS: [Turn; 6] = [
    Turn::Logged { place: 0, now: NOW },
    Turn::Logged { place: 1, now: NOW },
    Turn::Logged { place: 2, now: NOW },
    Turn::Rolled {
        place: 3,
        now: NEXT,
    },
    Turn::Logged {
        place: 4,
        now: NEXT,
    },
    Turn::Logged {
        place: 5,
        now: NEXT,
    },
];

fn row<'a>(minute: i64, sym: &'a [u8], numbers: &'a [i64]) -> Row<'a> {
    Row {
        minute,
        sym,
        numbers,
    }
}

/// Whether these texts are answered so after three updates of `trade` today and two on the next date.
fn are_answered<R: Abort + Wait>(rt: &R, alloc: Global, texts: &[Asked]) -> bool {
    let rows = [
        row(570, b"b", &[10, 100]),
        row(571, b"a", &[20, 5]),
        row(572, b"b", &[11, 7]),
        row(570, b"c", &[30, 1]),
        row(571, b"a", &[21, 9]),
    ];
    let mut updates = Vec::new(alloc);
    put_updates(rt, alloc, &mut updates, b"trade", &rows);
    let sent = done_times(rt, alloc, 5);
    let given = Given {
        updates: updates.as_slice(),
        readings: &READINGS,
        sent: sent.as_slice(),
        turns: &TURNS,
    };
    answers(rt, alloc, given, 6, texts)
}

/// Whether these texts are answered so after one message, which is answered so and makes this turn; a turn that isn't
/// logged leaves the chronicle empty.
fn are_answered_after<R: Abort + Wait>(
    rt: &R,
    alloc: Global,
    now: i64,
    message: &[u8],
    texts: &[Asked],
) -> bool {
    let sent = done_times(rt, alloc, 1);
    let given = Given {
        updates: message,
        readings: &[now],
        sent: sent.as_slice(),
        turns: &[Turn::Logged { place: 0, now }],
    };
    answers(rt, alloc, given, 1, texts)
}

/// Whether these texts are answered so after an update of `trade` for each of these two rows.
fn are_answered_over<R: Abort + Wait>(
    rt: &R,
    alloc: Global,
    rows: [Row; 2],
    texts: &[Asked],
) -> bool {
    let mut updates = Vec::new(alloc);
    put_updates(rt, alloc, &mut updates, b"trade", &rows);
    let sent = done_times(rt, alloc, 2);
    let given = Given {
        updates: updates.as_slice(),
        readings: &[NOW],
        sent: sent.as_slice(),
        turns: &[
            Turn::Logged { place: 0, now: NOW },
            Turn::Logged { place: 1, now: NOW },
        ],
    };
    answers(rt, alloc, given, 2, texts)
}

#[test]
fn time_put_first(rt: HostRuntime) {
    let items = b"\0\0\x03\0\0\0\xf5KX\0\xf9B'\0\0\0\0\0\0\xf9\xc8\0\0\0\0\0\0\0";
    let update = update_by(&rt, rt.alloc(), items);
    let texts: [Asked; 1] = [(
        b"exec time from trade",
        b"\x10\0\x01\0\0\0\x01\xf0\xd9\xce\x1a\x1f\0\0",
    )];
    assert!(rt; are_answered_after(&rt, rt.alloc(), NOW + 1, update.as_slice(), &texts));
}

#[test]
fn phrases_left_to_right(rt: HostRuntime) {
    let texts: [Asked; 3] = [
        (
            b"select sym,size from trade where size>5,i<2",
            b"b\0c\x0b\0\x02\0\0\0sym\0size\0\0\0\x02\0\0\0\x0b\0\x02\0\0\0b\0a\0\x07\0\x02\0\0\0d\0\0\0\0\0\0\0\
\x09\0\0\0\0\0\0\0",
        ),
        (
            b"exec price from trade where size>5,size=min size",
            b"\x07\0\x01\0\0\0\x0b\0\0\0\0\0\0\0",
        ),
        (
            b"exec i from trade",
            b"\x07\0\x05\0\0\0\0\0\0\0\0\0\0\0\x01\0\0\0\0\0\0\0\x02\0\0\0\0\0\0\0\0\0\0\0\0\0\0\0\x01\0\0\0\0\0\0\0",
        ),
    ];
    assert!(rt; are_answered(&rt, rt.alloc(), &texts));
}

#[test]
fn aggregates_of_nothing(rt: HostRuntime) {
    let texts: [Asked; 4] = [
        (
            b"exec min size from trade where size>1000",
            b"\xf9\xff\xff\xff\xff\xff\xff\xff\x7f",
        ),
        (
            b"exec max size from trade where size>1000",
            b"\xf9\x01\0\0\0\0\0\0\x80",
        ),
        (
            b"exec sum size from trade where size>1000",
            b"\xf9\0\0\0\0\0\0\0\0",
        ),
        (
            b"exec count i from trade where size>1000",
            b"\xf9\0\0\0\0\0\0\0\0",
        ),
    ];
    assert!(rt; are_answered(&rt, rt.alloc(), &texts));
}

#[test]
fn sums_with_nulls_and_beyond_the_end(rt: HostRuntime) {
    let nulls = [row(570, b"a", &[1, i64::MIN]), row(570, b"a", &[1, 5])];
    let five: [Asked; 1] = [(b"exec sum size from trade", b"\xf9\x05\0\0\0\0\0\0\0")];
    assert!(rt; are_answered_over(&rt, rt.alloc(), nulls, &five));
    let great = [row(570, b"a", &[1, i64::MAX]), row(570, b"a", &[1, 1])];
    let null: [Asked; 1] = [(b"exec sum size from trade", b"\xf9\0\0\0\0\0\0\0\x80")];
    assert!(rt; are_answered_over(&rt, rt.alloc(), great, &null));
}

#[test]
fn last_price_by_sym(rt: HostRuntime) {
    let value =
        b"cb\0c\x0b\0\x01\0\0\0sym\0\0\0\x01\0\0\0\x0b\0\x03\0\0\0a\0b\0c\0b\0c\x0b\0\x01\0\0\0price\0\0\0\x01\0\0\0\
\x07\0\x03\0\0\0\x15\0\0\0\0\0\0\0\x0b\0\0\0\0\0\0\0\x1e\0\0\0\0\0\0\0";
    let text = b"select last price by sym from trade";
    let texts: [Asked; 3] = [(text, value), (text, value), (text, value)];
    assert!(rt; are_answered(&rt, rt.alloc(), &texts));
}

// Two rows 2024.01.02 0D09:30 b 10 100.
const TWICE: &[u8] =
    b"b\0c\x0b\0\x05\0\0\0date\0time\0sym\0price\0size\0\0\0\x05\0\0\0\x0e\0\x02\0\0\0?\x22\0\0?\x22\0\0\
\x10\0\x02\0\0\0\0\xf0\xd9\xce\x1a\x1f\0\0\0\xf0\xd9\xce\x1a\x1f\0\0\x0b\0\x02\0\0\0b\0b\0\
\x07\0\x02\0\0\0\x0a\0\0\0\0\0\0\0\x0a\0\0\0\0\0\0\0\x07\0\x02\0\0\0d\0\0\0\0\0\0\0d\0\0\0\0\0\0\0";

#[test]
fn equal_rows_kept(rt: HostRuntime) {
    let texts: [Asked; 2] = [
        (b"exec count i from trade", b"\xf9\x02\0\0\0\0\0\0\0"),
        (b"select from trade", TWICE),
    ];
    let rows = [row(570, b"b", &[10, 100]), row(570, b"b", &[10, 100])];
    assert!(rt; are_answered_over(&rt, rt.alloc(), rows, &texts));
    let items =
        b"\0\0\x04\0\0\0\x10\0\x02\0\0\0\0\xf0\xd9\xce\x1a\x1f\0\0\0\xf0\xd9\xce\x1a\x1f\0\0\x0b\0\x02\0\0\0b\0b\0\
\x07\0\x02\0\0\0\x0a\0\0\0\0\0\0\0\x0a\0\0\0\0\0\0\0\x07\0\x02\0\0\0d\0\0\0\0\0\0\0d\0\0\0\0\0\0\0";
    let update = update_by(&rt, rt.alloc(), items);
    assert!(rt; are_answered_after(&rt, rt.alloc(), NOW, update.as_slice(), &texts));
}

const JOIN: &[u8] =
    b"aj[`sym`time;select time,sym,price from trade;select time,sym,bid from quote]";

// The times 0D09:30 0D09:31 0D09:29, the prices 1 2 3, the bids 4 5 0N.
const JOINED: &[u8] = b"b\0c\x0b\0\x04\0\0\0time\0sym\0price\0bid\0\0\0\x04\0\0\0\
\x10\0\x03\0\0\0\0\xf0\xd9\xce\x1a\x1f\0\0\0H!\xc7(\x1f\0\0\0\x98\x92\xd6\x0c\x1f\0\0\x0b\0\x03\0\0\0a\0a\0a\0\
\x07\0\x03\0\0\0\x01\0\0\0\0\0\0\0\x02\0\0\0\0\0\0\0\x03\0\0\0\0\0\0\0\
\x07\0\x03\0\0\0\x04\0\0\0\0\0\0\0\x05\0\0\0\0\0\0\0\0\0\0\0\0\0\0\x80";

/// The turns of six updates of one date.
const SIX: [Turn; 6] = [
    Turn::Logged { place: 0, now: NOW },
    Turn::Logged { place: 1, now: NOW },
    Turn::Logged { place: 2, now: NOW },
    Turn::Logged { place: 3, now: NOW },
    Turn::Logged { place: 4, now: NOW },
    Turn::Logged { place: 5, now: NOW },
];

fn are_joined<R: Abort + Wait>(rt: &R, alloc: Global, texts: &[Asked]) -> bool {
    let trades = [
        row(570, b"a", &[1, 1]),
        row(571, b"a", &[2, 1]),
        row(569, b"a", &[3, 1]),
    ];
    let quotes = [
        row(571, b"a", &[5, 6, 1, 1]),
        row(570, b"a", &[3, 4, 1, 1]),
        row(570, b"a", &[4, 5, 1, 1]),
    ];
    let mut updates = Vec::new(alloc);
    put_updates(rt, alloc, &mut updates, b"trade", &trades);
    put_updates(rt, alloc, &mut updates, b"quote", &quotes);
    let sent = done_times(rt, alloc, 6);
    let given = Given {
        updates: updates.as_slice(),
        readings: &[NOW],
        sent: sent.as_slice(),
        turns: &SIX,
    };
    answers(rt, alloc, given, 6, texts)
}

#[test]
fn asof_join_ties(rt: HostRuntime) {
    let texts: [Asked; 1] = [(JOIN, JOINED)];
    assert!(rt; are_joined(&rt, rt.alloc(), &texts));
}

#[test]
fn counts_and_dates(rt: HostRuntime) {
    let texts: [Asked; 2] = [
        (b".u.i", b"\xf9\x02\0\0\0\0\0\0\0"),
        (b".u.d", b"\xf2@\x22\0\0"),
    ];
    assert!(rt; are_answered(&rt, rt.alloc(), &texts));
}

/// An async update of `trade` by one row, and an async text.
fn async_messages(rt: &impl Abort, alloc: Global) -> Vec<u8> {
    let mut messages = update_of(rt, alloc, 0, b"trade", row(570, b"b", &[10, 100]));
    let text = text_of(rt, alloc, 0, b"exec count i from trade");
    put(rt, &mut messages, text.as_slice());
    messages
}

/// Whether an async update is logged and an async text passed over, neither with a response, and this text then answered.
fn async_is_silent<R: Abort + Wait>(rt: &R, alloc: Global, texts: &[Asked]) -> bool {
    let messages = async_messages(rt, alloc);
    let given = Given {
        updates: messages.as_slice(),
        readings: &[NOW],
        sent: &[],
        turns: &[Turn::Logged { place: 0, now: NOW }, Turn::Passed],
    };
    answers(rt, alloc, given, 1, texts)
}

#[test]
fn counts_and_async(rt: HostRuntime) {
    let texts: [Asked; 2] = [
        (b"exec count i from trade", b"\xf9\x01\0\0\0\0\0\0\0"),
        (b".u.i", b"\xf9\x01\0\0\0\0\0\0\0"),
    ];
    assert!(rt; async_is_silent(&rt, rt.alloc(), &texts));
}
