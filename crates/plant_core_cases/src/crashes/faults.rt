//! Each call of the disk failing once, and the entry sent again.

use crate::crashes::script::{CALLS, SCRIPT, Sent, found, send, text_of};
use outside_mem::{Calling, Leaving, MemDisk};
use plant_core::{Access, Solo};
use std::alloc::Global;
use std::process::Abort;
use std::sync::Wait;
use test_plants::{FIRST, LOAD_CALLS, formatted, one_failing, solo_at};

// Whether a snapshot shows the first entries of the script, this many.
fn shows<R: Abort + Wait>(rt: &R, alloc: Global, solo: &mut Solo<MemDisk>, count: usize) -> bool {
    let Ok(snapshot) = solo.snapshot(rt, alloc) else {
        panic!(rt; "no memory");
    };
    let text = text_of(rt, alloc, &snapshot, solo.schema());
    text.len() == count && SCRIPT.starts_with(&text)
}

// Sends the entry of the script with this index, which has the index `index` in the chronicle, and again after a fault,
// of which a snapshot shows nothing. Whether there was a fault, if the entry is logged.
fn send_on<R: Abort + Wait>(
    rt: &R,
    alloc: Global,
    solo: &mut Solo<MemDisk>,
    days: i64,
    (place, letter): (usize, u8),
    index: u64,
) -> Option<bool> {
    let first = send(rt, alloc, solo, days, letter);
    if first == Sent::Logged(index) {
        return Some(false);
    }
    if first != Sent::Failed(index) || !shows(rt, alloc, solo, place) {
        return None;
    }
    let second = send(rt, alloc, solo, days, letter);
    (second == Sent::Logged(index.wrapping_add(1))).then_some(true)
}

// Sends the whole script; the entry that failed, if one did and all are logged.
fn play<R: Abort + Wait>(rt: &R, alloc: Global, solo: &mut Solo<MemDisk>) -> Option<usize> {
    let mut days = 0i64;
    let mut failed = None;
    for (place, letter) in SCRIPT.iter().enumerate() {
        let index = (place as u64).wrapping_add(u64::from(failed.is_some()));
        match send_on(rt, alloc, solo, days, (place, *letter), index) {
            Some(false) => {}
            Some(true) if failed.is_none() => failed = Some(place),
            _ => return None,
        }
        if *letter == b'R' {
            days = days.wrapping_add(1);
        }
    }
    failed
}

// The entry of the script whose calls of the disk follow this number of calls.
fn entry_at(calls: u64) -> usize {
    let mut before = 0u64;
    for (place, letter) in SCRIPT.iter().enumerate() {
        before = before.wrapping_add(if *letter == b'R' { 7 } else { 4 });
        if calls < before {
            return place;
        }
    }
    SCRIPT.len()
}

// Whether a load after a crash finds the whole script, where one call of the disk failed.
fn is_whole(rt: &impl Abort, alloc: Global, disk: &MemDisk) -> bool {
    let once = disk.faults() == 1;
    let left = disk.restart(alloc, Leaving::Shortest).expect(rt, "memory");
    match found(rt, alloc, left) {
        Some(text) => once && text.as_slice() == SCRIPT.as_slice(),
        None => false,
    }
}

// Whether the entry fails whose call fails, and a later load finds the whole script.
fn goes_on<R: Abort + Wait>(rt: &R, alloc: Global, calls: u64, how: Calling) -> bool {
    let callings = one_failing(alloc, LOAD_CALLS.wrapping_add(calls), how).expect(rt, "memory");
    let Some(mut disk) = formatted(alloc).expect(rt, "memory") else {
        return false;
    };
    disk.plan(callings, None);
    let Some(mut solo) = solo_at(alloc, disk, FIRST) else {
        return false;
    };
    let failed = play(rt, alloc, &mut solo);
    let disk = solo.into_plant().close();
    failed == Some(entry_at(calls)) && is_whole(rt, alloc, &disk)
}

#[test]
fn each_call_fails_once(rt: HostRuntime) {
    let alloc = rt.alloc();
    let hows = [
        Calling::FailsUndone,
        Calling::FailsDone,
        Calling::FailsTorn(1),
    ];
    for calls in 0..CALLS - LOAD_CALLS {
        for how in hows {
            assert!(rt; goes_on(&rt, alloc, calls, how));
        }
    }
}
