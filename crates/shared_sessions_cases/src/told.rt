//! A session that asks again once another's update was answered, and two that are told of it without asking.
use crate::bytes::{
    BOTH, COUNT, DONE, GREETED, GREETING, TO_AB_AND_CD, TO_ALL, TOLD, TRADE, UPDATE,
};
use crate::checks::Heard;
use crate::meeting::{Client, Part, serve_three, serve_two};
use crate::plants::{NOW, opened};
use q_values::Turn;
use std::alloc::Global;
use std::process::Abort;
use std::sync::{Barrier, Wait};
use std::test::Fail;
use std::thread::Threads;

// Asks, and asks again once the update was answered.
const ASKS: &[Part] = &[
    Part::Sends(GREETING),
    Part::Sends(COUNT),
    Part::Meets,
    Part::Meets,
    Part::Sends(COUNT),
];

// Has an update answered once the others are ready.
const FEEDS: &[Part] = &[
    Part::Sends(GREETING),
    Part::Meets,
    Part::Sends(UPDATE),
    Part::Meets,
];

// Subscribes to everything, and sends nothing more; a read times out once the update was answered.
const LISTENS: &[Part] = &[
    Part::Sends(GREETING),
    Part::Sends(TO_ALL),
    Part::Meets,
    Part::Meets,
    Part::Idles(1),
];

// Subscribes to everything, and once the update was answered to two other symbols of its table.
const CHOOSES_ANEW: &[Part] = &[
    Part::Sends(GREETING),
    Part::Sends(TO_ALL),
    Part::Meets,
    Part::Meets,
    Part::Sends(TO_AB_AND_CD),
];

// The answers 0 and 1.
const NONE: &[u8] = b"\x01\x02\0\0\x11\0\0\0\xf9\0\0\0\0\0\0\0\0";

const ONE: &[u8] = b"\x01\x02\0\0\x11\0\0\0\xf9\x01\0\0\0\0\0\0\0";

const GREETED_TURN: Turn = Turn::Greeted { capability: 3 };

// Whether a client was sent these bytes, part by part, and nothing else.
fn is_sent(sent: &[u8], parts: &[&[u8]]) -> bool {
    let mut left = sent;
    for part in parts {
        match left.strip_prefix(*part) {
            Some(rest) => left = rest,
            None => return false,
        }
    }
    left.is_empty()
}

// All three over a disk in memory.
fn three_over_memory<R: Threads + Abort + Wait + Sync>(
    rt: &R,
    alloc: Global,
) -> (Heard, (Heard, Heard)) {
    let opened = opened(rt, alloc).expect(rt, "memory");
    let (lock, pass, schema, limits) = opened.expect(rt, "a pass");
    let barrier = Barrier::new(3);
    let clients = [
        Client::new(ASKS, &barrier),
        Client::new(FEEDS, &barrier),
        Client::new(LISTENS, &barrier),
    ];
    serve_three(rt, alloc, &lock, pass, &schema, &limits, clients)
}

// One that feeds, and one that chooses anew.
fn two_over_memory<R: Threads + Abort + Wait + Sync>(rt: &R, alloc: Global) -> (Heard, Heard) {
    let opened = opened(rt, alloc).expect(rt, "memory");
    let (lock, pass, schema, limits) = opened.expect(rt, "a pass");
    let barrier = Barrier::new(2);
    let clients = [
        Client::new(FEEDS, &barrier),
        Client::new(CHOOSES_ANEW, &barrier),
    ];
    serve_two(rt, alloc, &lock, pass, &schema, &limits, clients)
}

// One session finds no update, another's is answered, and the first one then finds it. A third one is subscribed to
// everything; it is told of the update when its next read times out.
#[test]
fn told_before_asked(rt: HostRuntime) -> Result<(), Fail> {
    let (asked, (fed, listened)) = three_over_memory(&rt, rt.alloc());
    let answers = [
        GREETED_TURN,
        Turn::Answered { length: 0 },
        Turn::Answered { length: 1 },
    ];
    assert_eq!(rt; asked.turns.as_slice(), answers.as_slice());
    assert!(rt; is_sent(asked.sent.as_slice(), &[GREETED, NONE, ONE]));
    let logged = [GREETED_TURN, Turn::Logged { place: 0, now: NOW }];
    assert_eq!(rt; fed.turns.as_slice(), logged.as_slice());
    assert!(rt; is_sent(fed.sent.as_slice(), &[GREETED, DONE]));
    let told = [
        GREETED_TURN,
        Turn::Subscribed { length: 0 },
        Turn::Quiet {
            length: 1,
            now: NOW,
        },
        Turn::Told { from: 0, to: 1 },
    ];
    assert_eq!(rt; listened.turns.as_slice(), told.as_slice());
    assert!(rt; is_sent(listened.sent.as_slice(), &[GREETED, BOTH, TOLD]));
    Ok(())
}

// A session's update is answered, of which a subscriber wasn't told yet. It is told of it before it is subscribed to symbols
// that the update doesn't have.
#[test]
fn told_before_chosen_anew(rt: HostRuntime) -> Result<(), Fail> {
    let (fed, chosen) = two_over_memory(&rt, rt.alloc());
    assert!(rt; is_sent(fed.sent.as_slice(), &[GREETED, DONE]));
    let told = [
        GREETED_TURN,
        Turn::Subscribed { length: 0 },
        Turn::Told { from: 0, to: 1 },
        Turn::Subscribed { length: 1 },
    ];
    assert_eq!(rt; chosen.turns.as_slice(), told.as_slice());
    assert!(rt; is_sent(chosen.sent.as_slice(), &[GREETED, BOTH, TOLD, TRADE]));
    Ok(())
}
