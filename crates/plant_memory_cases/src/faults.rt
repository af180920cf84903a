//! Disk faults among the updates of a date.
use crate::plants::{DATE, HALF_PAST_NINE, NOW, begun, logs_trade, shows_symbols, trade};
use plant_memory::Memory;
use q_values::NANOSECONDS_PER_DAY;
use std::alloc::Global;
use std::process::Abort;

// The index of a fault that is noted in place of an update of one row.
fn fault_of(rt: &impl Abort, alloc: Global, memory: &mut Memory) -> Option<u64> {
    let request = trade(rt, alloc, HALF_PAST_NINE, b"b", 10, 1);
    match memory.prepare(alloc, 1, &request, NOW) {
        Ok(_update) if memory.length() < 100 => Some(memory.note_fault(1)),
        _ => None,
    }
}

// The place of the fault counts, and it shows no row.
fn stands_between(rt: &impl Abort, alloc: Global, memory: &mut Memory) -> bool {
    let first = logs_trade(rt, alloc, memory, HALF_PAST_NINE, b"c", 1, NOW);
    let fault = fault_of(rt, alloc, memory) == Some(1);
    let second = logs_trade(rt, alloc, memory, HALF_PAST_NINE, b"a", 2, NOW);
    let shown = shows_symbols(rt, alloc, memory, 0, &["c", "a"]);
    let updates = memory.snapshot(alloc).expect(rt, "memory").updates_today() == 2;
    first && fault && second && shown && updates && memory.length() == 3
}

// After the date has ended the fault still counts, and the rows are in the order of an ended date.
fn stays(rt: &impl Abort, alloc: Global, memory: &mut Memory) -> bool {
    let next = NOW + NANOSECONDS_PER_DAY;
    let third = logs_trade(rt, alloc, memory, HALF_PAST_NINE, b"d", 3, next);
    let ended = shows_symbols(rt, alloc, memory, 0, &["a", "c"]);
    let updates = memory.snapshot(alloc).expect(rt, "memory").updates_today() == 1;
    let counted = memory.length() == 5 && memory.opened_at() == 4 && memory.date() == DATE + 1;
    third && ended && updates && counted
}

fn fault_is_counted(rt: &impl Abort, alloc: Global) -> bool {
    match begun(rt, alloc) {
        Some(mut memory) => stands_between(rt, alloc, &mut memory) && stays(rt, alloc, &mut memory),
        None => false,
    }
}

#[test]
fn fault_between_updates(rt: HostRuntime) {
    assert!(rt; fault_is_counted(&rt, rt.alloc()));
}
