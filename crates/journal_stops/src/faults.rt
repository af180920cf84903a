//! Each call of the disk failing in turn.

use crate::steps::{FILE, fails_append, fails_mend, finds, loaded, mends, one_failing, started};
use gated_journal::{Journal, JournalRefusal};
use outside_mem::Calling;
use std::alloc::Global;
use std::process::Abort;

// An append of which one call fails, then a repair.
fn mends_an_append(rt: &impl Abort, alloc: Global, place: usize, how: Calling) -> bool {
    let Some(mut it) = loaded(rt, alloc) else {
        return false;
    };
    let failed = fails_append(rt, alloc, &mut it, place, how) && !it.journal.is_clean();
    let mended = mends(alloc, &mut it) && it.journal.is_clean();
    failed && mended && finds(rt, alloc, &mut it.disk, b"ab,")
}

// The same, with a failed repair before the one that succeeds.
fn mends_again(
    rt: &impl Abort,
    alloc: Global,
    place: usize,
    mend_place: usize,
    how: Calling,
) -> bool {
    let Some(mut it) = loaded(rt, alloc) else {
        return false;
    };
    let failed = fails_append(rt, alloc, &mut it, place, how);
    let failed_mend = fails_mend(rt, alloc, &mut it, mend_place, how) && !it.journal.is_clean();
    let mended = mends(alloc, &mut it) && it.journal.is_clean();
    failed && failed_mend && mended && finds(rt, alloc, &mut it.disk, b"ab,")
}

// A load of which one call fails, and another.
fn loads_again(rt: &impl Abort, alloc: Global, place: usize) -> bool {
    let callings = one_failing(rt, alloc, place, Calling::FailsUndone);
    let Some(mut disk) = started(rt, alloc) else {
        return false;
    };
    disk.plan(callings, None);
    match Journal::load(alloc, &mut disk, FILE) {
        Ok(_found) => false,
        Err(refusal) => refusal == JournalRefusal::DiskFault
            && disk.faults() == 1
            && finds(rt, alloc, &mut disk, b"ab,"),
    }
}

#[test]
fn append_faults(rt: HostRuntime) {
    let alloc = rt.alloc();
    for place in 0..4 {
        assert!(rt; mends_an_append(&rt, alloc, place, Calling::FailsUndone));
        assert!(rt; mends_an_append(&rt, alloc, place, Calling::FailsDone));
        assert!(rt; mends_an_append(&rt, alloc, place, Calling::FailsTorn(1)));
    }
}

#[test]
fn mend_faults(rt: HostRuntime) {
    let alloc = rt.alloc();
    for place in 0..4 {
        assert!(rt; mends_again(&rt, alloc, place, 0, Calling::FailsUndone));
        assert!(rt; mends_again(&rt, alloc, place, 0, Calling::FailsDone));
    }
    for place in 2..4 {
        assert!(rt; mends_again(&rt, alloc, place, 1, Calling::FailsUndone));
    }
}

#[test]
fn load_faults(rt: HostRuntime) {
    let alloc = rt.alloc();
    for place in 0..3 {
        assert!(rt; loads_again(&rt, alloc, place));
    }
}
