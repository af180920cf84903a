//! A crash after each call of the disk.
ghost use Rattle.std.specs.Prelude.{◌≡◌};
ghost use Rattle.gated_journal.specs.Journal.{HasLastGate};
ghost use Rattle.outside_mem.specs.MemDisk.{shown_by};

use crate::steps::{OnDisk, fails_append, leaves, loaded, payload};
use gated_journal::State;
use outside_mem::{Calling, Callings, Leaving, RangeLeft};
use std::alloc::Global;
use std::process::Abort;

// An append of `cde` over a disk that goes down after a number of calls; whether it succeeds.
fn appends_within(rt: &impl Abort, alloc: Global, it: &mut OnDisk, calls: u64) -> bool
    requires clean { it.old.journal.state ≡ State.Clean }
    requires has_gate { HasLastGate (shown_by it.old.disk) it.old.journal }
{
    let second = payload(rt, alloc, b"cde");
    it.disk.plan(Callings::new(alloc), Some(calls));
    it.journal.append(&mut it.disk, &second).is_ok()
}

// The same, and what a restart finds.
fn stops_within(
    rt: &impl Abort,
    alloc: Global,
    calls: u64,
    leaving: Leaving,
    wanted: &[u8],
) -> bool {
    let Some(mut it) = loaded(rt, alloc) else {
        return false;
    };
    let done = appends_within(rt, alloc, &mut it, calls);
    done == (calls >= 4) && leaves(rt, alloc, &it.disk, leaving, wanted)
}

// An append of which one call fails, a crash after it, and what a restart finds.
fn stops_at_a_fault(
    rt: &impl Abort,
    alloc: Global,
    place: usize,
    how: Calling,
    left: RangeLeft,
    wanted: &[u8],
) -> bool {
    let Some(mut it) = loaded(rt, alloc) else {
        return false;
    };
    let failed = fails_append(rt, alloc, &mut it, place, how);
    failed
        && leaves(
            rt,
            alloc,
            &it.disk,
            Leaving::Range { index: 0, left },
            wanted,
        )
}

// What may become of the record that an append writes: its length, three bytes and a gate.
const RECORD_LEFT: [RangeLeft; 13] = [
    RangeLeft::Kept,
    RangeLeft::Old,
    RangeLeft::Lost(0),
    RangeLeft::Lost(0xa5),
    RangeLeft::Torn(0),
    RangeLeft::Torn(1),
    RangeLeft::Torn(2),
    RangeLeft::Torn(3),
    RangeLeft::Torn(4),
    RangeLeft::Torn(5),
    RangeLeft::Torn(6),
    RangeLeft::Torn(7),
    RangeLeft::Torn(8),
];

// What may become of the gate that an append opens, and what a restart then finds.
const GATE_LEFT: [(RangeLeft, &[u8]); 6] = [
    (RangeLeft::Kept, b"ab,cde,"),
    (RangeLeft::Old, b"ab,"),
    (RangeLeft::Lost(0), b"ab,"),
    (RangeLeft::Lost(0xa5), b"ab,cde,"),
    (RangeLeft::Torn(0), b"ab,"),
    (RangeLeft::Torn(1), b"ab,cde,"),
];

#[test]
fn each_image_of_the_record(rt: HostRuntime) {
    let alloc = rt.alloc();
    for left in RECORD_LEFT {
        assert!(rt; stops_within(&rt, alloc, 1, Leaving::Range { index: 0, left }, b"ab,"));
    }
}

#[test]
fn each_image_of_the_gate(rt: HostRuntime) {
    let alloc = rt.alloc();
    for (left, wanted) in GATE_LEFT {
        assert!(rt; stops_within(&rt, alloc, 3, Leaving::Range { index: 0, left }, wanted));
    }
}

#[test]
fn each_image_of_a_torn_record(rt: HostRuntime) {
    let alloc = rt.alloc();
    for count in 0..9 {
        for left in RECORD_LEFT {
            assert!(rt; stops_at_a_fault(&rt, alloc, 0, Calling::FailsTorn(count), left, b"ab,"));
        }
    }
}

#[test]
fn each_image_of_a_torn_gate(rt: HostRuntime) {
    let alloc = rt.alloc();
    for (left, wanted) in GATE_LEFT {
        assert!(rt; stops_at_a_fault(&rt, alloc, 2, Calling::FailsTorn(1), left, wanted));
    }
    assert!(rt;
        stops_at_a_fault(
            &rt,
            alloc,
            2,
            Calling::FailsTorn(0),
            RangeLeft::Kept,
            b"ab,"
        )
    );
    assert!(rt;
        stops_at_a_fault(
            &rt,
            alloc,
            2,
            Calling::FailsTorn(0),
            RangeLeft::Lost(0xa5),
            b"ab,cde,"
        )
    );
}

#[test]
fn stop_at_each_disk_call(rt: HostRuntime) {
    let alloc = rt.alloc();
    for calls in 0..3 {
        assert!(rt; stops_within(&rt, alloc, calls, Leaving::Whole, b"ab,"));
        assert!(rt; stops_within(&rt, alloc, calls, Leaving::Torn(0), b"ab,"));
        assert!(rt; stops_within(&rt, alloc, calls, Leaving::Torn(0xa5), b"ab,"));
        assert!(rt; stops_within(&rt, alloc, calls, Leaving::Shortest, b"ab,"));
    }
    assert!(rt; stops_within(&rt, alloc, 3, Leaving::Whole, b"ab,cde,"));
    assert!(rt; stops_within(&rt, alloc, 3, Leaving::Torn(0), b"ab,"));
    assert!(rt; stops_within(&rt, alloc, 3, Leaving::Torn(0xa5), b"ab,cde,"));
    assert!(rt; stops_within(&rt, alloc, 3, Leaving::Shortest, b"ab,cde,"));
    assert!(rt; stops_within(&rt, alloc, 4, Leaving::Whole, b"ab,cde,"));
    assert!(rt; stops_within(&rt, alloc, 4, Leaving::Torn(0), b"ab,cde,"));
    assert!(rt; stops_within(&rt, alloc, 4, Leaving::Torn(0xa5), b"ab,cde,"));
    assert!(rt; stops_within(&rt, alloc, 4, Leaving::Shortest, b"ab,cde,"));
}
