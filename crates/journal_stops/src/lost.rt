//! A sync that fails and drops what it should have written, later calls that succeed, and a crash after them.
ghost use Rattle.gated_journal.specs.Journal.{HasLastGate};
ghost use Rattle.outside_mem.specs.MemDisk.{shown_by};

use crate::steps::{
    self, FILE, OnDisk, fails_append, fails_mend, loaded, mends, one_failing, payload,
};
use outside_api::Disk;
use outside_mem::{Calling, Leaving, MemDisk, RangeLeft};
use std::alloc::Global;
use std::process::Abort;

// Which images a crash leaves.
const LEFT: [Leaving; 8] = [
    Leaving::Whole,
    Leaving::Torn(0),
    Leaving::Torn(0xa5),
    Leaving::Shortest,
    Leaving::Range {
        index: 0,
        left: RangeLeft::Old,
    },
    Leaving::Range {
        index: 0,
        left: RangeLeft::Lost(0xa5),
    },
    Leaving::Range {
        index: 1,
        left: RangeLeft::Old,
    },
    Leaving::Range {
        index: 1,
        left: RangeLeft::Lost(0xa5),
    },
];

// An append of `fg` that is to succeed.
fn adds(rt: &impl Abort, alloc: Global, it: &mut OnDisk) -> bool
    requires has_gate { HasLastGate (shown_by it.old.disk) it.old.journal }
{
    let third = payload(rt, alloc, b"fg");
    it.journal.is_clean() && it.journal.append(&mut it.disk, &third).is_ok()
}

// An append whose sync after `place` calls fails and loses, a repair, and a crash.
fn mends_and_stops(
    rt: &impl Abort,
    alloc: Global,
    place: usize,
    leaving: Leaving,
    wanted: &[u8],
) -> bool {
    let Some(mut it) = loaded(rt, alloc) else {
        return false;
    };
    let failed = fails_append(rt, alloc, &mut it, place, Calling::FailsDone);
    let mended = mends(alloc, &mut it);
    failed && mended && steps::leaves(rt, alloc, &it.disk, leaving, wanted)
}

// The same, with an append after the repair.
fn adds_and_stops(
    rt: &impl Abort,
    alloc: Global,
    place: usize,
    leaving: Leaving,
    wanted: &[u8],
) -> bool {
    let Some(mut it) = loaded(rt, alloc) else {
        return false;
    };
    let failed = fails_append(rt, alloc, &mut it, place, Calling::FailsDone);
    let mended = mends(alloc, &mut it);
    let added = adds(rt, alloc, &mut it);
    failed && mended && added && steps::leaves(rt, alloc, &it.disk, leaving, wanted)
}

// An append whose last sync fails and loses, a repair whose sync does so too, and where that is asked another repair; then a
// crash.
fn mends_twice_and_stops(
    rt: &impl Abort,
    alloc: Global,
    again: bool,
    leaving: Leaving,
    wanted: &[u8],
) -> bool {
    let Some(mut it) = loaded(rt, alloc) else {
        return false;
    };
    let failed = fails_append(rt, alloc, &mut it, 3, Calling::FailsDone);
    let failed_mend = fails_mend(rt, alloc, &mut it, 1, Calling::FailsDone);
    let mended = !again || mends(alloc, &mut it);
    failed && failed_mend && mended && steps::leaves(rt, alloc, &it.disk, leaving, wanted)
}

// A write, a sync that fails and loses, where that is asked the same write, and a sync that succeeds.
fn written_again(rt: &impl Abort, alloc: Global, again: bool) -> Option<MemDisk> {
    let callings = one_failing(rt, alloc, 1, Calling::FailsDone);
    let mut disk = MemDisk::new(alloc);
    disk.plan(callings, None);
    let wrote = disk.write_at(FILE, 0, b"ab").is_ok();
    let failed = disk.sync(FILE).is_err();
    let wrote_again = !again || disk.write_at(FILE, 0, b"ab").is_ok();
    let synced = disk.sync(FILE).is_ok();
    if wrote && failed && wrote_again && synced {
        return Some(disk);
    }
    None
}

fn leaves(rt: &impl Abort, alloc: Global, again: bool, leaving: Leaving, wanted: &[u8]) -> bool {
    match written_again(rt, alloc, again) {
        Some(disk) => disk.bytes_of(FILE) == b"ab".as_slice()
            && disk
                .restart(alloc, leaving)
                .expect(rt, "memory")
                .bytes_of(FILE)
                == wanted,
        None => false,
    }
}

#[test]
fn lost_until_written_anew(rt: HostRuntime) {
    let alloc = rt.alloc();
    assert!(rt; leaves(&rt, alloc, false, Leaving::Torn(0x7a), b"zz"));
    assert!(rt; leaves(&rt, alloc, false, Leaving::Shortest, b""));
    assert!(rt; leaves(&rt, alloc, true, Leaving::Torn(0x7a), b"ab"));
    assert!(rt; leaves(&rt, alloc, true, Leaving::Shortest, b"ab"));
}

#[test]
fn lost_record_is_not_read(rt: HostRuntime) {
    let alloc = rt.alloc();
    for leaving in LEFT {
        assert!(rt; mends_and_stops(&rt, alloc, 1, leaving, b"ab,"));
    }
}

#[test]
fn lost_gate_is_mended(rt: HostRuntime) {
    let alloc = rt.alloc();
    for leaving in LEFT {
        assert!(rt; mends_and_stops(&rt, alloc, 3, leaving, b"ab,"));
    }
}

#[test]
fn append_after_a_lost_one(rt: HostRuntime) {
    let alloc = rt.alloc();
    for leaving in LEFT {
        assert!(rt; adds_and_stops(&rt, alloc, 1, leaving, b"ab,fg,"));
        assert!(rt; adds_and_stops(&rt, alloc, 3, leaving, b"ab,fg,"));
    }
}

#[test]
fn lost_repair_is_repaired(rt: HostRuntime) {
    let alloc = rt.alloc();
    assert!(rt; mends_twice_and_stops(&rt, alloc, false, Leaving::Torn(0), b"ab,"));
    assert!(rt; mends_twice_and_stops(&rt, alloc, false, Leaving::Torn(0xa5), b"ab,cde,"));
    for leaving in LEFT {
        assert!(rt; mends_twice_and_stops(&rt, alloc, true, leaving, b"ab,"));
    }
}
