//! Texts over a hundred thousand rows, each answered by one number that is worked out by hand.
use crate::large::building::{Rows, answer_of_long, input_before, query_of, update_of};
use crate::large::sizes::sends;
use q_values::Limits;
use session::End;
use std::alloc::Global;
use std::process::Abort;
use std::sync::Wait;
use test_sessions::{NOW, Outcome, sat};

// A hundred updates of the rows 0 to 999. The row i has the time i milliseconds, the symbol KX, the price i and the size 2 i.
const HUNDRED_UPDATES: Rows = Rows {
    rows: 1000,
    updates: 100,
};

// What they answer.
const OF_HUNDRED_UPDATES: [(&[u8], i64); 8] = [
    // The rows 251 to 899 of each update.
    (b"exec count i from trade where size>500,price<900", 64_900),
    // The same rows, and of them those whose size isn't 600.
    (
        b"exec count price from trade where 500<size,price<900,size<>600",
        64_800,
    ),
    (b"exec max price-min price from trade", 999),
    // The size 2 i and the price i of the last row.
    (b"exec x:max size+price from trade", 2_997),
    // -999, of the last row.
    (b"exec x:min price-size from trade", -999),
    // 0+2+..+200 of each update.
    (
        b"exec sum size from trade where sym=`KX,time within 0D00:00 0D00:00:00.100",
        1_010_000,
    ),
    // No row.
    (b"exec count i from trade where price>999,size>0", 0),
    (
        b"exec count i from trade where price>=0,size>=price",
        100_000,
    ),
];

// One update of the rows 0 to 100,002: a number of rows that is no multiple of sixteen.
const ODD_UPDATE: Rows = Rows {
    rows: 100_003,
    updates: 1,
};

// What it answers; the last rows decide.
const OF_ODD_UPDATE: [(&[u8], i64); 5] = [
    // The rows 99,998 to 100,002.
    (b"exec count i from trade where size>199995,price<100003", 5),
    (b"exec max price-min price from trade", 100_002),
    (b"exec x:max size+price from trade", 300_006),
    (b"exec x:min price-size from trade", -100_002),
    // 199,996+199,998+..+200,004.
    (
        b"exec sum size from trade where price>99997,sym=`KX",
        1_000_000,
    ),
];

// Whether a session that logs these rows answers each text by its number.
fn are_answered<R: Abort + Wait>(
    rt: &R,
    alloc: Global,
    daily: Rows,
    texts: &[(&[u8], i64)],
) -> bool {
    let update = update_of(rt, alloc, daily.rows);
    let mut input = input_before(rt, alloc, update.as_slice(), daily.updates);
    let mut answers = Vec::new(alloc);
    for (text, number) in texts {
        let query = query_of(rt, alloc, text);
        input
            .extend_from_slice(query.as_slice())
            .expect(rt, "memory");
        let answer = answer_of_long(rt, alloc, *number);
        answers
            .extend_from_slice(answer.as_slice())
            .expect(rt, "memory");
    }
    match sat(rt, alloc, &Limits::standard(), &[NOW], input.as_slice()).expect(rt, "memory") {
        Some(Outcome { end, link, .. }) => {
            end == End::Closed && sends(link.taken(), daily.updates, answers.as_slice())
        }
        None => false,
    }
}

#[test]
fn texts_over_a_hundred_updates(rt: HostRuntime) {
    assert!(rt;
        are_answered(
            &rt,
            rt.alloc(),
            HUNDRED_UPDATES,
            OF_HUNDRED_UPDATES.as_slice()
        )
    );
}

#[test]
fn texts_over_an_odd_update(rt: HostRuntime) {
    assert!(rt; are_answered(&rt, rt.alloc(), ODD_UPDATE, OF_ODD_UPDATE.as_slice()));
}
