//! A crash after each call of the disk.

use crate::logs::script::{CALLS, SCRIPT, finds, found, play, started};
use outside_mem::{Callings, Leaving};
use std::alloc::Global;
use std::process::Abort;

// What a crash may leave of what wasn't synced.
const LEAVINGS: [Leaving; 4] = [
    Leaving::Whole,
    Leaving::Torn(0),
    Leaving::Torn(0xa5),
    Leaving::Shortest,
];

// Whether a restart finds the entries that were added, or one more, where the disk stops after this number of calls.
fn stops_well(rt: &impl Abort, alloc: Global, calls: u64, leaving: Leaving) -> bool {
    let Some((mut disk, mut logs)) = started(rt, alloc) else {
        return false;
    };
    disk.plan(Callings::new(alloc), Some(calls));
    let added = play(rt, alloc, &mut disk, &mut logs, 1);
    let mut left = disk.restart(alloc, leaving).expect(rt, "memory");
    (added == SCRIPT.len()) == (calls >= CALLS) && finds(rt, alloc, &mut left, added)
}

#[test]
fn a_stop_after_each_call(rt: HostRuntime) {
    let alloc = rt.alloc();
    for calls in 0..=CALLS {
        for leaving in LEAVINGS {
            assert!(rt; stops_well(&rt, alloc, calls, leaving));
        }
    }
}

// What a restart finds after the whole script.
fn whole(rt: &impl Abort, alloc: Global) -> bool {
    let Some((mut disk, mut logs)) = started(rt, alloc) else {
        return false;
    };
    let added = play(rt, alloc, &mut disk, &mut logs, 1);
    let mut left = disk.restart(alloc, Leaving::Shortest).expect(rt, "memory");
    let text = found(rt, alloc, &mut left);
    match text {
        Some(text) => added == 22 && text.as_slice() == SCRIPT.as_slice(),
        None => false,
    }
}

#[test]
fn the_whole_script(rt: HostRuntime) {
    assert!(rt; whole(&rt, rt.alloc()));
}
