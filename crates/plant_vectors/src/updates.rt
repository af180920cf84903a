//! Sessions that update tables: dates, row order, and refusals.
use q_values::{NANOSECONDS_PER_DAY, Turn};
use session::End;
use std::alloc::Global;
use std::process::Abort;
use std::sync::Wait;
use test_sessions::bytes::{
    ARRIVED, ASYNC_FLOAT, ASYNC_QUERY, ASYNC_THREE_SYMBOLS, ASYNC_UPDATE, BOTH_DATES, CHARACTERS,
    DONE, EMPTY_COLUMNS, FIRST, FOO, FOURTH, GREETED, LENGTH, LIMIT, LONG_BACK, LONG_FRONT,
    MORE_THAN_ONE_DAY, NO_ROW, OF_FOO, OF_INT, OF_TWO, ONE_ROW, QUERY, SECOND, SPREAD, SPREAD_ROWS,
    THIRD, THREE_SYMBOLS, TYPE, UPDATE, WITHOUT_TIME,
};
use test_sessions::{GREETED_TURN, LOGGED_TURN, NOW, Wanted, joined, messages_go, messages_go_at};

const SECOND_TURN: Turn = Turn::Logged { place: 1, now: NOW };

const THIRD_TURN: Turn = Turn::Logged { place: 2, now: NOW };

const NONE_SHOWN: Turn = Turn::Answered { length: 0 };

const ONE_SHOWN: Turn = Turn::Answered { length: 1 };

#[test]
fn arrival_within_open_date(rt: HostRuntime) {
    let wanted = Wanted {
        end: End::Closed,
        sent: &[GREETED, DONE, DONE, DONE, ARRIVED],
        turns: &[
            GREETED_TURN,
            LOGGED_TURN,
            SECOND_TURN,
            THIRD_TURN,
            Turn::Answered { length: 3 },
        ],
    };
    assert!(rt;
        messages_go(&rt, rt.alloc(), &[FIRST, SECOND, THIRD, QUERY], wanted).expect(&rt, "memory")
    );
}

fn fourth_rolls<R: Abort + Wait>(rt: &R, alloc: Global) -> bool {
    let next = NOW + NANOSECONDS_PER_DAY;
    let wanted = Wanted {
        end: End::Closed,
        sent: &[GREETED, DONE, DONE, DONE, DONE, BOTH_DATES],
        turns: &[
            GREETED_TURN,
            LOGGED_TURN,
            SECOND_TURN,
            THIRD_TURN,
            Turn::Rolled {
                place: 3,
                now: next,
            },
            Turn::Logged {
                place: 4,
                now: next,
            },
            Turn::Answered { length: 5 },
        ],
    };
    let messages = [FIRST, SECOND, THIRD, FOURTH, QUERY];
    messages_go_at(rt, alloc, &[NOW, NOW, NOW, next], &messages, wanted).expect(rt, "memory")
}

#[test]
fn symbol_order_after_roll(rt: HostRuntime) {
    assert!(rt; fourth_rolls(&rt, rt.alloc()));
}

/// Whether an update is logged, and this is then the answer to the query.
fn is_shown<R: Abort + Wait>(rt: &R, alloc: Global, update: &[u8], shown: &[u8]) -> bool {
    let wanted = Wanted {
        end: End::Closed,
        sent: &[GREETED, DONE, shown],
        turns: &[GREETED_TURN, LOGGED_TURN, ONE_SHOWN],
    };
    messages_go(rt, alloc, &[update, QUERY], wanted).expect(rt, "memory")
}

#[test]
fn atom_spread_to_columns(rt: HostRuntime) {
    assert!(rt; is_shown(&rt, rt.alloc(), SPREAD, SPREAD_ROWS));
}

#[test]
fn function_as_characters(rt: HostRuntime) {
    assert!(rt; is_shown(&rt, rt.alloc(), CHARACTERS, ONE_ROW));
}

/// Where the time is missing, that of the clock becomes the first item.
#[test]
fn time_put_first(rt: HostRuntime) {
    assert!(rt; is_shown(&rt, rt.alloc(), WITHOUT_TIME, ONE_ROW));
}

/// Whether an update at this moment is refused with this error, and changes nothing.
fn is_refused_at<R: Abort + Wait>(
    rt: &R,
    alloc: Global,
    now: i64,
    update: &[u8],
    error: &[u8],
) -> bool {
    let wanted = Wanted {
        end: End::Closed,
        sent: &[GREETED, error, NO_ROW],
        turns: &[GREETED_TURN, Turn::Refused { length: 0, now }, NONE_SHOWN],
    };
    messages_go_at(rt, alloc, &[now], &[update, QUERY], wanted).expect(rt, "memory")
}

fn is_refused<R: Abort + Wait>(rt: &R, alloc: Global, update: &[u8], error: &[u8]) -> bool {
    is_refused_at(rt, alloc, NOW, update, error)
}

/// The update whose symbol has 257 bytes.
fn long_symbol(rt: &impl Abort, alloc: Global) -> Vec<u8> {
    joined(alloc, &[LONG_FRONT, &[b'x'; 257], LONG_BACK]).expect(rt, "memory")
}

fn is_past_the_limit<R: Abort + Wait>(rt: &R, alloc: Global) -> bool {
    let update = long_symbol(rt, alloc);
    is_refused(rt, alloc, update.as_slice(), LIMIT)
}

#[test]
fn refused_updates(rt: HostRuntime) {
    assert!(rt; is_refused(&rt, rt.alloc(), OF_FOO, FOO));
    assert!(rt; is_refused(&rt, rt.alloc(), OF_TWO, LENGTH));
    assert!(rt; is_refused(&rt, rt.alloc(), OF_INT, TYPE));
    assert!(rt; is_past_the_limit(&rt, rt.alloc()));
    assert!(rt; is_shown(&rt, rt.alloc(), EMPTY_COLUMNS, NO_ROW));
}

fn earlier_clock_logs<R: Abort + Wait>(rt: &R, alloc: Global) -> bool {
    let earlier = NOW - NANOSECONDS_PER_DAY;
    let wanted = Wanted {
        end: End::Closed,
        sent: &[GREETED, DONE, ONE_ROW],
        turns: &[
            GREETED_TURN,
            Turn::Logged {
                place: 0,
                now: earlier,
            },
            ONE_SHOWN,
        ],
    };
    messages_go_at(rt, alloc, &[earlier], &[UPDATE, QUERY], wanted).expect(rt, "memory")
}

#[test]
fn clock_beyond_one_day(rt: HostRuntime) {
    let later = NOW + 2 * NANOSECONDS_PER_DAY;
    assert!(rt; is_refused_at(&rt, rt.alloc(), later, UPDATE, MORE_THAN_ONE_DAY));
    assert!(rt; earlier_clock_logs(&rt, rt.alloc()));
}

/// Whether a message is answered with the error `type` if at all, and the next one served.
fn is_mistyped<R: Abort + Wait>(rt: &R, alloc: Global, message: &[u8], sent: &[&[u8]]) -> bool {
    let wanted = Wanted {
        end: End::Closed,
        sent,
        turns: &[GREETED_TURN, Turn::Declined, NONE_SHOWN],
    };
    messages_go(rt, alloc, &[message, QUERY], wanted).expect(rt, "memory")
}

#[test]
fn update_of_three_symbols(rt: HostRuntime) {
    assert!(rt; is_mistyped(&rt, rt.alloc(), THREE_SYMBOLS, &[GREETED, TYPE, NO_ROW]));
    assert!(rt; is_mistyped(&rt, rt.alloc(), ASYNC_THREE_SYMBOLS, &[GREETED, NO_ROW]));
}

#[test]
fn counts_and_async(rt: HostRuntime) {
    let wanted = Wanted {
        end: End::Closed,
        sent: &[GREETED, ONE_ROW],
        turns: &[
            GREETED_TURN,
            LOGGED_TURN,
            Turn::Passed,
            Turn::Passed,
            ONE_SHOWN,
        ],
    };
    let messages = [ASYNC_UPDATE, ASYNC_QUERY, ASYNC_FLOAT, QUERY];
    assert!(rt; messages_go(&rt, rt.alloc(), &messages, wanted).expect(&rt, "memory"));
}
