//! What subscribers are answered, and what they are sent.
use crate::subscriptions::bytes::{
    ASYNC_TO_TRADE, BOTH, END_TOLD, FIRST_TOLD, SECOND_TOLD, SYMBOLS_TO_B, THIRD_TOLD, TO_A,
    TO_A_AND_C, TO_ALL, TO_B, TO_FOO, TO_NOTHING, TO_ONE, TO_TWO, TRADE,
};
use outside_mem::Taking;
use q_values::{NANOSECONDS_PER_DAY, Turn};
use session::End;
use test_sessions::bytes::{DONE, FIRST, FOO, FOURTH, GREETED, GREETING, SECOND, THIRD, TYPE};
use test_sessions::{
    GREETED_TURN, NOW, Read, Wanted, messages_go, messages_go_at, script_goes, script_goes_at,
};

// A moment of the next date.
const TOMORROW: i64 = NOW + NANOSECONDS_PER_DAY;

fn logged(place: u64) -> Turn {
    Turn::Logged { place, now: NOW }
}

// The end of the date after three updates, and the first update of the next one.
const ROLLED_TURN: Turn = Turn::Rolled {
    place: 3,
    now: TOMORROW,
};

const LOGGED_TOMORROW: Turn = Turn::Logged {
    place: 4,
    now: TOMORROW,
};

const TWO_FILTERS_SENT: [&[u8]; 10] = [
    GREETED,
    TRADE,
    DONE,
    DONE,
    SECOND_TOLD,
    TRADE,
    DONE,
    THIRD_TOLD,
    DONE,
    END_TOLD,
];

// The filters of two subscriptions after one another, and the end of the date.
#[test]
fn subscription_filters_and_day_end(rt: HostRuntime) {
    let wanted = Wanted {
        end: End::Closed,
        sent: &TWO_FILTERS_SENT,
        turns: &[
            GREETED_TURN,
            Turn::Subscribed { length: 0 },
            logged(0),
            Turn::Told { from: 0, to: 1 },
            logged(1),
            Turn::Told { from: 1, to: 2 },
            Turn::Subscribed { length: 2 },
            logged(2),
            Turn::Told { from: 2, to: 3 },
            ROLLED_TURN,
            LOGGED_TOMORROW,
            Turn::Told { from: 3, to: 5 },
        ],
    };
    let readings = [NOW, NOW, NOW, TOMORROW];
    let messages = [TO_A, FIRST, SECOND, TO_B, THIRD, FOURTH];
    assert!(rt;
        messages_go_at(&rt, rt.alloc(), &readings, &messages, wanted).expect(&rt, "memory")
    );
}

const THREE_CALLS_SENT: [&[u8]; 11] = [
    GREETED,
    TRADE,
    DONE,
    DONE,
    SECOND_TOLD,
    TRADE,
    DONE,
    THIRD_TOLD,
    TRADE,
    DONE,
    END_TOLD,
];

// A set of symbols, symbols as one vector, and a set without symbols, which is told of the end of the date alone.
#[test]
fn calls_that_subscribe(rt: HostRuntime) {
    let wanted = Wanted {
        end: End::Closed,
        sent: &THREE_CALLS_SENT,
        turns: &[
            GREETED_TURN,
            Turn::Subscribed { length: 0 },
            logged(0),
            Turn::Told { from: 0, to: 1 },
            logged(1),
            Turn::Told { from: 1, to: 2 },
            Turn::Subscribed { length: 2 },
            logged(2),
            Turn::Told { from: 2, to: 3 },
            Turn::Subscribed { length: 3 },
            ROLLED_TURN,
            LOGGED_TOMORROW,
            Turn::Told { from: 3, to: 5 },
        ],
    };
    let readings = [NOW, NOW, NOW, TOMORROW];
    let messages = [
        TO_A_AND_C,
        FIRST,
        SECOND,
        SYMBOLS_TO_B,
        THIRD,
        TO_NOTHING,
        FOURTH,
    ];
    assert!(rt;
        messages_go_at(&rt, rt.alloc(), &readings, &messages, wanted).expect(&rt, "memory")
    );
}

// What was logged before a subscription isn't told; one that is async has no answer.
#[test]
fn every_table_and_async(rt: HostRuntime) {
    let wanted = Wanted {
        end: End::Closed,
        sent: &[GREETED, DONE, BOTH, DONE, SECOND_TOLD, DONE, THIRD_TOLD],
        turns: &[
            GREETED_TURN,
            logged(0),
            Turn::Subscribed { length: 1 },
            logged(1),
            Turn::Told { from: 1, to: 2 },
            Turn::Subscribed { length: 2 },
            logged(2),
            Turn::Told { from: 2, to: 3 },
        ],
    };
    let messages = [FIRST, TO_ALL, SECOND, ASYNC_TO_TRADE, THIRD];
    assert!(rt; messages_go(&rt, rt.alloc(), &messages, wanted).expect(&rt, "memory"));
}

// A table that isn't there, two tables, and rows that are no symbols: the subscription stays.
#[test]
fn refused_subscriptions(rt: HostRuntime) {
    let wanted = Wanted {
        end: End::Closed,
        sent: &[GREETED, TRADE, FOO, TYPE, TYPE, DONE, FIRST_TOLD],
        turns: &[
            GREETED_TURN,
            Turn::Subscribed { length: 0 },
            Turn::Declined,
            Turn::Declined,
            Turn::Declined,
            logged(0),
            Turn::Told { from: 0, to: 1 },
        ],
    };
    let messages = [TO_B, TO_FOO, TO_TWO, TO_ONE, FIRST];
    assert!(rt; messages_go(&rt, rt.alloc(), &messages, wanted).expect(&rt, "memory"));
}

// The read timeout that ends the date is followed by its end, and the one after it by nothing.
#[test]
fn told_at_a_read_timeout(rt: HostRuntime) {
    let wanted = Wanted {
        end: End::Closed,
        sent: &[GREETED, TRADE, END_TOLD],
        turns: &[
            GREETED_TURN,
            Turn::Subscribed { length: 0 },
            Turn::Rolled {
                place: 0,
                now: TOMORROW,
            },
            Turn::Told { from: 0, to: 1 },
            Turn::Quiet {
                length: 1,
                now: TOMORROW,
            },
        ],
    };
    let reads = [
        Read::Bytes(GREETING),
        Read::Bytes(TO_A),
        Read::Idle,
        Read::Idle,
    ];
    assert!(rt;
        script_goes_at(&rt, rt.alloc(), &[TOMORROW], &reads, &[], wanted).expect(&rt, "memory")
    );
}

// A publication that can't be written ends the session: its turn was noted, and the response before it was sent.
#[test]
fn publication_meets_a_write_fault(rt: HostRuntime) {
    let wanted = Wanted {
        end: End::WriteFault,
        sent: &[GREETED, TRADE, DONE, &FIRST_TOLD[..9]],
        turns: &[
            GREETED_TURN,
            Turn::Subscribed { length: 0 },
            logged(0),
            Turn::Told { from: 0, to: 1 },
        ],
    };
    let reads = [
        Read::Bytes(GREETING),
        Read::Bytes(TO_B),
        Read::Bytes(FIRST),
        Read::Bytes(SECOND),
    ];
    let writes = [Taking::All, Taking::All, Taking::All, Taking::Front(9)];
    assert!(rt; script_goes(&rt, rt.alloc(), &reads, &writes, wanted).expect(&rt, "memory"));
}
