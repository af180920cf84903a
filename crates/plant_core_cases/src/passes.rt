//! A plant that one pass has to itself.
use mem_plant::new_plant;
use outside_mem::MemDisk;
use plant_core::{Access, Solo, TickTurn, UpdTurn};
use q_values::{Limits, NANOSECONDS_PER_DAY};
use schema_text::built_in_schema;
use std::alloc::Global;
use std::process::Abort;
use std::sync::Wait;
use test_plants::{FIRST, NINE_THIRTY, NOW, Row, alone, sent};

const ROW: Row = (NINE_THIRTY, "b", 10, 100);

fn solo(rt: &impl Abort, alloc: Global) -> Option<Solo<MemDisk>> {
    let schema = built_in_schema(alloc).expect(rt, "memory");
    let plant = new_plant(alloc, schema, FIRST, &Limits::standard()).expect(rt, "memory");
    if plant.next_by() != 1 {
        return None;
    }
    alone(plant)
}

// The indices of the roll and of the update, where an update of one row was logged.
fn places<R: Abort + Wait>(
    rt: &R,
    alloc: Global,
    solo: &mut Solo<MemDisk>,
    now: i64,
) -> Option<(Option<u64>, u64)> {
    match sent(rt, alloc, solo, ROW, now).expect(rt, "memory") {
        UpdTurn::Logged { rolled, place } => Some((rolled, place)),
        UpdTurn::Refused { .. } | UpdTurn::Failed { .. } => None,
    }
}

fn passes<R: Abort + Wait>(rt: &R, alloc: Global, solo: &mut Solo<MemDisk>) -> bool {
    let tables = solo.schema().len();
    let first = places(rt, alloc, solo, NOW) == Some((None, 0));
    let quiet = solo.tick(rt, alloc, NOW) == TickTurn::Quiet { length: 1 };
    let rolled = solo.tick(rt, alloc, NOW + NANOSECONDS_PER_DAY) == TickTurn::Rolled { place: 1 };
    let second = places(rt, alloc, solo, NOW + 2 * NANOSECONDS_PER_DAY) == Some((Some(2), 3));
    let length = solo.snapshot(rt, alloc).expect(rt, "memory").length();
    let turns = first && quiet && rolled && second;
    turns && tables == 2 && length == 4 && solo.by() == 1
}

fn passes_alone<R: Abort + Wait>(rt: &R, alloc: Global) -> bool {
    match solo(rt, alloc) {
        Some(mut solo) => passes(rt, alloc, &mut solo),
        None => false,
    }
}

#[test]
fn one_pass_alone(rt: HostRuntime) {
    assert!(rt; passes_alone(&rt, rt.alloc()));
}
