//! Each call of the disk failing once, and the entry tried again.

use crate::logs::script::{CALLS, SCRIPT, found, play, started};
use outside_mem::{Calling, Callings, Leaving};
use std::alloc::Global;
use std::process::Abort;

// Calls that succeed, but for one after `place` others, which goes as `how` says.
fn one_failing(rt: &impl Abort, alloc: Global, place: u64, how: Calling) -> Callings {
    let mut callings = Callings::new(alloc);
    for _ in 0..place {
        callings.push(Calling::Succeeds).expect(rt, "memory");
    }
    callings.push(how).expect(rt, "memory");
    callings
}

// Whether the whole script is found, each entry once, where one call fails and its entry is tried again.
fn goes_on(rt: &impl Abort, alloc: Global, place: u64, how: Calling) -> bool {
    let callings = one_failing(rt, alloc, place, how);
    let Some((mut disk, mut logs)) = started(rt, alloc) else {
        return false;
    };
    disk.plan(callings, None);
    let added = play(rt, alloc, &mut disk, &mut logs, 2);
    let mut left = disk.restart(alloc, Leaving::Shortest).expect(rt, "memory");
    let text = found(rt, alloc, &mut left);
    match text {
        Some(text) => added == SCRIPT.len()
            && disk.faults() == 1
            && text.as_slice() == SCRIPT.as_slice(),
        None => false,
    }
}

#[test]
fn each_call_fails_once(rt: HostRuntime) {
    let alloc = rt.alloc();
    for place in 0..CALLS {
        assert!(rt; goes_on(&rt, alloc, place, Calling::FailsUndone));
        assert!(rt; goes_on(&rt, alloc, place, Calling::FailsDone));
        assert!(rt; goes_on(&rt, alloc, place, Calling::FailsTorn(1)));
    }
}
