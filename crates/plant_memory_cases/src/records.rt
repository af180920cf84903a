//! The limit of log records.
ghost use Rattle.std.specs.Prelude.{◌≤◌};

use crate::plants::{DATE, HALF_PAST_NINE, NOW, begun, refusal_of, trade};
use plant_memory::{Memory, UpdRefusal};
use q_values::Limits;
use schema_text::{BUILT_IN, read_schema};
use std::alloc::Global;
use std::process::Abort;

// The refusal of an update of one row of `trade` with the symbol `ibm`, or none where it was logged. Its record has 8
// bytes for the pass, 6 for a list of three, 5 for `upd`, 7 for `trade`, 6 for a list of four, 14 for the time, 10
// for the symbol, 14 for the price and 14 for the size: 84.
fn refused_at(rt: &impl Abort, alloc: Global, limit: u32) -> Option<UpdRefusal>
    requires { limit ≤ 67108864 }
{
    let mut limits = Limits::standard();
    limits.chunk = limit;
    let Ok(schema) = read_schema(alloc, BUILT_IN) else {
        panic!(rt; "no memory");
    };
    let mut memory = Memory::begin(alloc, schema, DATE, &limits).expect(rt, "memory");
    let request = trade(rt, alloc, HALF_PAST_NINE, b"ibm", 10, 1);
    refusal_of(rt, alloc, &mut memory, &request, NOW)
}

fn longer_is_refused(rt: &impl Abort, alloc: Global) -> bool {
    let within = refused_at(rt, alloc, 84).is_none();
    let beyond = matches!(refused_at(rt, alloc, 83), Some(UpdRefusal::Limit));
    within && beyond
}

// The record of the same update, which is prepared for the pass 3.
fn prepares(rt: &impl Abort, alloc: Global, memory: &mut Memory) -> bool {
    let request = trade(rt, alloc, HALF_PAST_NINE, b"ibm", 10, 1);
    match memory.prepare(alloc, 3, &request, NOW) {
        Ok(update) => update.chunk().len() == 84 && update.by() == 3 && !update.rolls(),
        Err(_) => false,
    }
}

fn record_is_prepared(rt: &impl Abort, alloc: Global) -> bool {
    match begun(rt, alloc) {
        Some(mut memory) => prepares(rt, alloc, &mut memory),
        None => false,
    }
}

#[test]
fn record_of_an_update(rt: HostRuntime) {
    assert!(rt; record_is_prepared(&rt, rt.alloc()));
}

#[test]
fn record_longer_than_the_limit(rt: HostRuntime) {
    assert!(rt; longer_is_refused(&rt, rt.alloc()));
}
