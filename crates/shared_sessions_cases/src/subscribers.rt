//! Two feeds and three subscribers beside each other, each on a thread of its own, while a date ends.
use crate::bytes::{BOTH, GREETING, TO_AB_AND_CD, TO_ALL, TO_KX, TRADE};
use crate::checks::{Chosen, UPDATES, is_fed, is_told};
use crate::marks::marks_of;
use crate::meeting::{Client, Five, Part, serve_five};
use crate::plants::{branch, opened};
use crate::trades::Feed;
use day_rows::Entries;
use std::alloc::Global;
use std::process::Abort;
use std::sync::{Barrier, Wait};
use std::test::Fail;
use std::thread::Threads;

// The number of the first update of the feed of pairs for which its clock has passed midnight.
const AFTER_MIDNIGHT: u32 = 250;

// What a feed does: some updates while the subscribers come, some beside them, none while each of them has a read timeout, and
// the others beside them again.
fn feeding(feed: Feed) -> [Part; 8] {
    [
        Part::Sends(GREETING),
        Part::Feeds {
            feed,
            from: 0,
            to: 100,
        },
        Part::Meets,
        Part::Feeds {
            feed,
            from: 100,
            to: 200,
        },
        Part::Meets,
        Part::Meets,
        Part::Feeds {
            feed,
            from: 200,
            to: UPDATES,
        },
        Part::Meets,
    ]
}

// What a subscriber does: read timeouts beside the feeds, one while these wait, more beside them, and two once they have ended.
fn subscribing(to: &'static [u8]) -> [Part; 10] {
    [
        Part::Sends(GREETING),
        Part::Sends(to),
        Part::Meets,
        Part::Idles(200),
        Part::Meets,
        Part::Idles(1),
        Part::Meets,
        Part::Idles(400),
        Part::Meets,
        Part::Idles(2),
    ]
}

// Five clients over a plant in memory, and then its log.
fn five_over_memory<R: Threads + Abort + Wait + Sync>(rt: &R, alloc: Global) -> (Five, Entries) {
    let opened = opened(rt, alloc).expect(rt, "memory");
    let (lock, pass, schema, limits) = opened.expect(rt, "a pass");
    let (mine, pass) = branch(rt, &lock, pass, &schema, &limits);
    let barrier = Barrier::new(5);
    let pairs = feeding(Feed::Pairs);
    let singles = feeding(Feed::Singles);
    let all = subscribing(TO_ALL);
    let two = subscribing(TO_AB_AND_CD);
    let one = subscribing(TO_KX);
    let clients = [
        Client::past_midnight(&pairs, &barrier, AFTER_MIDNIGHT),
        Client::new(&singles, &barrier),
        Client::new(&all, &barrier),
        Client::new(&two, &barrier),
        Client::new(&one, &barrier),
    ];
    let heard = serve_five(rt, alloc, &lock, pass, &schema, &limits, clients);
    let plant = lock.close(rt, mine);
    let tail = plant.tail(alloc, 0).expect(rt, "memory");
    (heard, tail.entries(alloc).expect(rt, "memory"))
}

// Each subscriber is told of each entry of the log that it chose, once and in order, and once of the end of the date.
#[test]
fn feeds_and_subscribers_over_a_day_end(rt: HostRuntime) -> Result<(), Fail> {
    let alloc = rt.alloc();
    let (heard, entries) = five_over_memory(&rt, alloc);
    let ((pairs, singles), (all, (two, one))) = heard;
    let marks = marks_of(&rt, alloc, &entries).ok_or("a log of what was sent")?;
    let marks = marks.as_slice();
    assert_eq!(rt; marks.len(), 1_001);
    assert!(rt; is_fed(&pairs, marks, Feed::Pairs, 1));
    assert!(rt; is_fed(&singles, marks, Feed::Singles, 0));
    assert!(rt; is_told(&rt, alloc, &all, BOTH, marks, Chosen::All));
    assert!(rt; is_told(&rt, alloc, &two, TRADE, marks, Chosen::OfAbAndCd));
    assert!(rt; is_told(&rt, alloc, &one, TRADE, marks, Chosen::OfKx));
    Ok(())
}
