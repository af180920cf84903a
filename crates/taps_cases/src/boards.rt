//! Boards with a tap that fails.

use crate::watched::{messages, noted, tap_with_room};
use outside_api::Tap;
use std::sync::Arc;
use std::sync::atomic::{AtomicU64, Ordering};
use taps::Board;

// The second of two taps fails at its second message: it is dropped, and the first takes all three.
#[test]
fn failing_tap_dropped(rt: HostRuntime) {
    let alloc = rt.alloc();
    let told = messages(&rt, alloc, 3);
    let firsts = Arc::new(alloc, AtomicU64::new(0)).expect(&rt, "memory");
    let seconds = Arc::new(alloc, AtomicU64::new(0)).expect(&rt, "memory");
    let first: Box<dyn Tap + Send + Drop> = Box::new(
        alloc,
        tap_with_room(&rt, alloc, 3, None, &firsts),
    ).expect(&rt, "memory");
    let second: Box<dyn Tap + Send + Drop> = Box::new(
        alloc,
        tap_with_room(&rt, alloc, 3, Some(1), &seconds),
    ).expect(&rt, "memory");
    let mut board = Board::new(alloc);
    assert!(rt; matches!(board.put_on(first), Ok(0)));
    assert!(rt; matches!(board.put_on(second), Ok(1)));
    let dropped = board.drive(alloc, &told).expect(&rt, "memory");
    assert!(rt; dropped.as_slice() == [1].as_slice());
    assert!(rt; firsts.load(Ordering::SeqCst) == 10_203);
    assert!(rt; seconds.load(Ordering::SeqCst) == 1);
    assert!(rt; board.take_off(1).is_none());
    assert!(rt; board.take_off(0).is_some());
    assert!(rt; board.is_empty());
}

// 1,000 messages, three times. The second tap fails at the last of the second time.
#[test]
fn one_thousand_messages(rt: HostRuntime) {
    let alloc = rt.alloc();
    let told = messages(&rt, alloc, 1_000);
    let firsts = Arc::new(alloc, AtomicU64::new(0)).expect(&rt, "memory");
    let seconds = Arc::new(alloc, AtomicU64::new(0)).expect(&rt, "memory");
    let first: Box<dyn Tap + Send + Drop> = Box::new(
        alloc,
        tap_with_room(&rt, alloc, 10, None, &firsts),
    ).expect(&rt, "memory");
    let second: Box<dyn Tap + Send + Drop> = Box::new(
        alloc,
        tap_with_room(&rt, alloc, 3_000, Some(1_999), &seconds),
    )
    .expect(&rt, "memory");
    let mut board = Board::new(alloc);
    assert!(rt; matches!(board.put_on(first), Ok(0)));
    assert!(rt; matches!(board.put_on(second), Ok(1)));
    let mut wanted = 0u64;
    for round in 0..3 {
        let dropped = board.drive(alloc, &told).expect(&rt, "memory");
        assert!(rt; dropped.is_empty() == (round != 1));
        for price in 1..1_001 {
            wanted = noted(wanted, price);
        }
        assert!(rt; firsts.load(Ordering::SeqCst) == wanted);
    }
    assert!(rt; board.take_off(1).is_none());
}
