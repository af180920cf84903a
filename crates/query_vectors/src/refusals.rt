//! Texts that are answered with errors, and messages that change nothing.
use crate::building::{Row, put, update_by, update_of};
use crate::sitting::{Asked, Given, answers};
use q_values::{NANOSECONDS_PER_DAY, Turn};
use std::alloc::Global;
use std::process::Abort;
use std::sync::Wait;
use test_sessions::NOW;

/// The long 0.
const NONE: &[u8] = b"\xf9\0\0\0\0\0\0\0\0";

/// The long 1.
const ONE: &[u8] = b"\xf9\x01\0\0\0\0\0\0\0";

/// Whether a new plant answers these texts so.
fn are_answered<R: Abort + Wait>(rt: &R, alloc: Global, texts: &[Asked]) -> bool {
    let given = Given {
        updates: &[],
        readings: &[NOW],
        sent: &[],
        turns: &[],
    };
    answers(rt, alloc, given, 0, texts)
}

#[test]
fn refused_texts(rt: HostRuntime) {
    let blanks = vec![in rt.alloc(); b' '; 65_537].expect(&rt, "memory");
    let texts: [Asked; 12] = [
        (b"select from foo", b"\x80foo\0"),
        (b"select foo from trade", b"\x80foo\0"),
        (b"select from", b"\x80parse\0"),
        (b"select price,price from trade", b"\x80nyi\0"),
        (b"select price+sym from trade", b"\x80nyi\0"),
        (b"select x:price+sym from trade", b"\x80type\0"),
        (blanks.as_slice(), b"\x80limit\0"),
        (b"select foo,foo from bar", b"\x80nyi\0"),
        (b"1+1", b"\x80parse\0"),
        (b"", b"\x80parse\0"),
        (b"select x:foo+sym from bar where 1", b"\x80nyi\0"),
        (b"exec count i from trade", NONE),
    ];
    assert!(rt; are_answered(&rt, rt.alloc(), &texts));
}

/// The update of `trade` by the row 0D09:30 KX 10050 200.
fn whole(rt: &impl Abort, alloc: Global, table: &[u8]) -> Vec<u8> {
    let row = Row {
        minute: 570,
        sym: b"KX",
        numbers: &[10_050, 200],
    };
    update_of(rt, alloc, 1, table, row)
}

/// The update whose symbol has 257 bytes.
fn long_symbol(rt: &impl Abort, alloc: Global) -> Vec<u8> {
    let sym = [b'x'; 257];
    let row = Row {
        minute: 570,
        sym: &sym,
        numbers: &[1, 1],
    };
    update_of(rt, alloc, 1, b"trade", row)
}

/// Updates that are refused: of an unknown table, of two items, with a size that is an int, with a long symbol; and then one
/// of four empty columns.
fn refused_messages(rt: &impl Abort, alloc: Global) -> Vec<u8> {
    let mut messages = whole(rt, alloc, b"foo");
    let two = update_by(rt, alloc, b"\0\0\x02\0\0\0\xf5KX\0\xf9\x01\0\0\0\0\0\0\0");
    put(rt, &mut messages, two.as_slice());
    let int = update_by(
        rt,
        alloc,
        b"\0\0\x04\0\0\0\xf0\0\xf0\xd9\xce\x1a\x1f\0\0\xf5KX\0\xf9B'\0\0\0\0\0\0\xfa\xc8\0\0\0",
    );
    put(rt, &mut messages, int.as_slice());
    let long = long_symbol(rt, alloc);
    put(rt, &mut messages, long.as_slice());
    let empty = update_by(
        rt,
        alloc,
        b"\0\0\x04\0\0\0\x10\0\0\0\0\0\x0b\0\0\0\0\0\x07\0\0\0\0\0\x07\0\0\0\0\0",
    );
    put(rt, &mut messages, empty.as_slice());
    messages
}

/// The errors `foo`, `length`, `type` and `limit`, and `(::)`.
const REFUSED: &[u8] =
    b"\x01\x02\0\0\x0d\0\0\0\x80foo\0\x01\x02\0\0\x10\0\0\0\x80length\0\x01\x02\0\0\x0e\0\0\0\x80type\0\
\x01\x02\0\0\x0f\0\0\0\x80limit\0\x01\x02\0\0\x0a\0\0\0e\0";

const REFUSED_TURN: Turn = Turn::Refused {
    length: 0,
    now: NOW,
};

fn updates_refused<R: Abort + Wait>(rt: &R, alloc: Global, texts: &[Asked]) -> bool {
    let messages = refused_messages(rt, alloc);
    let given = Given {
        updates: messages.as_slice(),
        readings: &[NOW],
        sent: REFUSED,
        turns: &[
            REFUSED_TURN,
            REFUSED_TURN,
            REFUSED_TURN,
            REFUSED_TURN,
            Turn::Logged { place: 0, now: NOW },
        ],
    };
    answers(rt, alloc, given, 1, texts)
}

#[test]
fn refused_updates(rt: HostRuntime) {
    let texts: [Asked; 2] = [(b".u.i", ONE), (b"exec count i from trade", NONE)];
    assert!(rt; updates_refused(&rt, rt.alloc(), &texts));
}

/// Whether these texts are answered so after an update at this moment, which is answered with these bytes and noted so.
fn are_answered_at<R: Abort + Wait>(
    rt: &R,
    alloc: Global,
    now: i64,
    sent: &[u8],
    turn: Turn,
    length: u64,
    texts: &[Asked],
) -> bool {
    let update = whole(rt, alloc, b"trade");
    let given = Given {
        updates: update.as_slice(),
        readings: &[now],
        sent,
        turns: &[turn],
    };
    answers(rt, alloc, given, length, texts)
}

#[test]
fn clock_beyond_one_day(rt: HostRuntime) {
    let later = NOW + 2 * NANOSECONDS_PER_DAY;
    let error = b"\x01\x02\0\0\x1c\0\0\0\x80more than one day?\0";
    let refused = Turn::Refused {
        length: 0,
        now: later,
    };
    let none: [Asked; 1] = [(b".u.i", NONE)];
    assert!(rt; are_answered_at(&rt, rt.alloc(), later, error, refused, 0, &none));
    let earlier = NOW - NANOSECONDS_PER_DAY;
    let done = b"\x01\x02\0\0\x0a\0\0\0e\0";
    let logged = Turn::Logged {
        place: 0,
        now: earlier,
    };
    let one: [Asked; 3] = [
        (b".u.i", ONE),
        (b"exec date from trade", b"\x0e\0\x01\0\0\0?\x22\0\0"),
        (b".u.d", b"\xf2?\x22\0\0"),
    ];
    assert!(rt; are_answered_at(&rt, rt.alloc(), earlier, done, logged, 1, &one));
}
