//! A crash after each call of the disk.

use crate::crashes::script::{CALLS, SCRIPT, Sent, found, send};
use outside_mem::{Calling, Callings, Leaving, MemDisk};
use plant_core::{Plant, Solo};
use std::alloc::Global;
use std::process::Abort;
use std::sync::Wait;
use test_plants::{FIRST, LOAD_CALLS, alone, formatted, load, one_failing};

// What a crash may leave of what wasn't synced.
const LEAVINGS: [Leaving; 4] = [
    Leaving::Whole,
    Leaving::Torn(0),
    Leaving::Torn(0xa5),
    Leaving::Shortest,
];

// Sends these entries up to the first that isn't logged; how many were.
fn play<R: Abort + Wait>(rt: &R, alloc: Global, solo: &mut Solo<MemDisk>, script: &[u8]) -> usize {
    let mut days = 0i64;
    for (place, letter) in script.iter().enumerate() {
        if send(rt, alloc, solo, days, *letter) != Sent::Logged(place as u64) {
            return place;
        }
        if *letter == b'R' {
            days = days.wrapping_add(1);
        }
    }
    script.len()
}

fn played<R: Abort + Wait>(
    rt: &R,
    alloc: Global,
    plant: Plant<MemDisk>,
    script: &[u8],
) -> Option<(usize, MemDisk)> {
    let Some(mut solo) = alone(plant) else {
        return None;
    };
    let logged = play(rt, alloc, &mut solo, script);
    Some((logged, solo.into_plant().close()))
}

// Loads a plant from the disk and sends these entries; how many were logged, and the disk.
fn run<R: Abort + Wait>(
    rt: &R,
    alloc: Global,
    disk: MemDisk,
    script: &[u8],
) -> Option<(usize, MemDisk)> {
    match load(alloc, disk, FIRST) {
        Ok(plant) => played(rt, alloc, plant, script),
        Err(failure) => Some((0, failure.disk)),
    }
}

fn restarted(
    rt: &impl Abort,
    alloc: Global,
    logged: usize,
    disk: &MemDisk,
    leaving: Leaving,
) -> Option<(usize, Vec<u8>)> {
    match found(rt, alloc, disk.restart(alloc, leaving).expect(rt, "memory")) {
        Some(text) => Some((logged, text)),
        None => None,
    }
}

// How many of these entries were logged, and what a load finds of them, where the calls of the disk go as these, and
// it goes down after `calls` of them.
fn stopped<R: Abort + Wait>(
    rt: &R,
    alloc: Global,
    script: &[u8],
    callings: Callings,
    calls: u64,
    leaving: Leaving,
) -> Option<(usize, Vec<u8>)> {
    let Some(mut disk) = formatted(alloc).expect(rt, "memory") else {
        return None;
    };
    disk.plan(callings, Some(calls));
    match run(rt, alloc, disk, script) {
        Some((logged, disk)) => restarted(rt, alloc, logged, &disk, leaving),
        None => None,
    }
}

// Whether a load finds the entries that were logged, or one more, where the disk goes down after this number of calls.
fn stops_well<R: Abort + Wait>(rt: &R, alloc: Global, calls: u64, leaving: Leaving) -> bool {
    match stopped(rt, alloc, &SCRIPT, Callings::new(alloc), calls, leaving) {
        Some((logged, text)) => {
            let whole = (logged == SCRIPT.len()) == (calls >= CALLS);
            let near = text.len() == logged || text.len() == logged.wrapping_add(1);
            whole && near && SCRIPT.starts_with(&text)
        }
        None => false,
    }
}

#[test]
fn stop_at_each_disk_call(rt: HostRuntime) {
    let alloc = rt.alloc();
    for calls in 0..=CALLS {
        for leaving in LEAVINGS {
            assert!(rt; stops_well(&rt, alloc, calls, leaving));
        }
    }
}

// The number of updates that a load finds, where the disk goes down within the call after `calls` ones of an update.
fn updates_found<R: Abort + Wait>(
    rt: &R,
    alloc: Global,
    calls: u64,
    how: Calling,
    leaving: Leaving,
) -> Option<usize> {
    let place = LOAD_CALLS.wrapping_add(calls);
    let callings = one_failing(alloc, place, how).expect(rt, "memory");
    match stopped(rt, alloc, b"a", callings, place.wrapping_add(1), leaving) {
        Some((_logged, text)) => Some(text.len()),
        None => None,
    }
}

// An update writes its body, syncs, opens its gate and syncs.
fn update_stops_well<R: Abort + Wait>(
    rt: &R,
    alloc: Global,
    how: Calling,
    leaving: Leaving,
) -> bool {
    let body = updates_found(rt, alloc, 0, how, leaving) == Some(0);
    let sync = updates_found(rt, alloc, 1, how, leaving) == Some(0);
    let gate = matches!(updates_found(rt, alloc, 2, how, leaving), Some(0 | 1));
    let last = matches!(updates_found(rt, alloc, 3, how, leaving), Some(0 | 1));
    let after = updates_found(rt, alloc, 4, how, leaving) == Some(1);
    body && sync && gate && last && after
}

#[test]
fn stop_within_an_update(rt: HostRuntime) {
    let alloc = rt.alloc();
    let hows = [
        Calling::FailsUndone,
        Calling::FailsDone,
        Calling::FailsTorn(1),
    ];
    for how in hows {
        for leaving in LEAVINGS {
            assert!(rt; update_stops_well(&rt, alloc, how, leaving));
        }
    }
}
