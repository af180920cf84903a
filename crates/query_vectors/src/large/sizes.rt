//! Sessions at real sizes, with ample memory: none of their messages is answered `wsfull`.
use crate::large::building::{Rows, answer_of, input_of, update_by, update_of};
use q_values::{Limits, NANOSECONDS_PER_DAY, Turn};
use session::End;
use std::alloc::Global;
use std::process::Abort;
use std::sync::Wait;
use test_sessions::bytes::{DONE, GREETED, LENGTH, NO_ROW, QUERY, TYPE};
use test_sessions::{NOW, Outcome, greeted, sat};

/// Whether a session sends the handshake's answer, this many times `(::)`, and then this answer.
pub fn sends(taken: &[u8], done: u32, answer: &[u8]) -> bool {
    let Some(mut rest) = taken.strip_prefix(GREETED) else {
        return false;
    };
    for _ in 0..done {
        match rest.strip_prefix(DONE) {
            Some(more) => rest = more,
            None => return false,
        }
    }
    rest == answer
}

// Whether updates of these rows are all logged on one date, and then shown.
fn are_shown<R: Abort + Wait>(rt: &R, alloc: Global, daily: Rows) -> bool {
    let update = update_of(rt, alloc, daily.rows);
    let input = input_of(rt, alloc, update.as_slice(), daily.updates);
    let answer = answer_of(rt, alloc, daily, 1);
    match sat(rt, alloc, &Limits::standard(), &[NOW], input.as_slice()).expect(rt, "memory") {
        Some(Outcome { end, link, .. }) => {
            end == End::Closed && sends(link.taken(), daily.updates, answer.as_slice())
        }
        None => false,
    }
}

#[test]
fn updates_of_no_rows(rt: HostRuntime) {
    assert!(rt;
        are_shown(
            &rt,
            rt.alloc(),
            Rows {
                rows: 0,
                updates: 3
            }
        )
    );
}

#[test]
fn an_update_of_a_thousand_rows(rt: HostRuntime) {
    assert!(rt;
        are_shown(
            &rt,
            rt.alloc(),
            Rows {
                rows: 1000,
                updates: 1
            }
        )
    );
}

#[test]
fn an_update_of_a_hundred_thousand_rows(rt: HostRuntime) {
    assert!(rt;
        are_shown(
            &rt,
            rt.alloc(),
            Rows {
                rows: 100_000,
                updates: 1
            }
        )
    );
}

#[test]
fn a_hundred_thousand_rows_by_a_hundred_updates(rt: HostRuntime) {
    assert!(rt;
        are_shown(
            &rt,
            rt.alloc(),
            Rows {
                rows: 1000,
                updates: 100
            }
        )
    );
}

#[test]
fn ten_thousand_updates_of_one_row(rt: HostRuntime) {
    assert!(rt;
        are_shown(
            &rt,
            rt.alloc(),
            Rows {
                rows: 1,
                updates: 10_000
            }
        )
    );
}

// The clock of a number of dates, each with this number of readings.
fn readings_of(rt: &impl Abort, alloc: Global, dates: u16, each: u32) -> Vec<i64> {
    let mut readings = Vec::new(alloc);
    for date in 0..dates {
        put_readings(
            rt,
            &mut readings,
            NOW + i64::from(date) * NANOSECONDS_PER_DAY,
            each,
        );
    }
    readings
}

fn put_readings(rt: &impl Abort, readings: &mut Vec<i64>, now: i64, each: u32) {
    for _ in 0..each {
        readings.push(now).expect(rt, "memory");
    }
}

// Whether a number of dates is ended, one after another, each with a hundred entries.
fn dates_end<R: Abort + Wait>(rt: &R, alloc: Global, dates: u16) -> bool {
    let times = u32::from(dates) * 100;
    let update = update_of(rt, alloc, 1);
    let input = input_of(rt, alloc, update.as_slice(), times);
    let readings = readings_of(rt, alloc, dates, 100);
    let daily = Rows {
        rows: 1,
        updates: 100,
    };
    let answer = answer_of(rt, alloc, daily, dates);
    match sat(
        rt,
        alloc,
        &Limits::standard(),
        readings.as_slice(),
        input.as_slice(),
    )
    .expect(rt, "memory")
    {
        Some(
            Outcome {
                end,
                link,
                recorder,
            },
        ) => {
            let rolls = recorder.turns().iter().filter(|turn| is_roll(turn)).count();
            end == End::Closed
                && sends(link.taken(), times, answer.as_slice())
                && rolls.saturating_add(1) == usize::from(dates)
        }
        None => false,
    }
}

fn is_roll(turn: &Turn) -> bool {
    matches!(turn, Turn::Rolled { .. })
}

#[test]
fn a_second_and_a_third_roll_after_a_hundred_entries(rt: HostRuntime) {
    assert!(rt; dates_end(&rt, rt.alloc(), 4));
}

// Whether an update of `trade` whose third item is this vector is refused with this error.
fn is_refused_by<R: Abort + Wait>(rt: &R, alloc: Global, items: &[u8], error: &[u8]) -> bool {
    let update = update_by(rt, alloc, b"trade", items);
    let input = greeted(alloc, &[update.as_slice(), QUERY]).expect(rt, "memory");
    let mut wanted = Vec::from_slice(alloc, error).expect(rt, "memory");
    wanted.extend_from_slice(NO_ROW).expect(rt, "memory");
    match sat(rt, alloc, &Limits::standard(), &[NOW], input.as_slice()).expect(rt, "memory") {
        Some(Outcome { end, link, .. }) => {
            end == End::Closed && sends(link.taken(), 0, wanted.as_slice())
        }
        None => false,
    }
}

// The atoms of the vector are the items; the time of the clock is put first, since the first isn't a timespan.
#[test]
fn items_as_a_vector(rt: HostRuntime) {
    let three = b"\x07\0\x03\0\0\0\x01\0\0\0\0\0\0\0\x02\0\0\0\0\0\0\0\x03\0\0\0\0\0\0\0";
    let four =
        b"\x10\0\x04\0\0\0\x01\0\0\0\0\0\0\0\x02\0\0\0\0\0\0\0\x03\0\0\0\0\0\0\0\x04\0\0\0\0\0\0\0";
    let two = b"\x0b\0\x02\0\0\0a\0b\0";
    let none = b"\x07\0\0\0\0\0";
    assert!(rt; is_refused_by(&rt, rt.alloc(), three, TYPE));
    assert!(rt; is_refused_by(&rt, rt.alloc(), four, TYPE));
    assert!(rt; is_refused_by(&rt, rt.alloc(), two, LENGTH));
    assert!(rt; is_refused_by(&rt, rt.alloc(), none, LENGTH));
}
