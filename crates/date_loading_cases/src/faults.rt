//! Each call of the disk failing once, and the load tried again.

use crate::plant::{SECOND, load, two_dates};
use date_loading::LoadRefusal;
use outside_mem::{Calling, Callings};
use schema_text::built_in_schema;
use std::alloc::Global;
use std::process::Abort;

// A load syncs a file, asks for its size and reads it: the manifest and two logs.
const CALLS: u64 = 9;

// Calls that succeed, but for one after `place` others.
fn one_failing(rt: &impl Abort, alloc: Global, place: u64) -> Callings {
    let mut callings = Callings::new(alloc);
    for _ in 0..place {
        callings.push(Calling::Succeeds).expect(rt, "memory");
    }
    callings.push(Calling::FailsUndone).expect(rt, "memory");
    callings
}

// Whether a load answers `DiskFault` where one of its calls fails, and the next one both dates.
fn is_told(rt: &impl Abort, alloc: Global, place: u64) -> Result<bool, LoadRefusal> {
    let schema = built_in_schema(alloc)?;
    let Some(mut disk) = two_dates(rt, alloc, &schema, 2, 1) else {
        return Ok(false);
    };
    disk.plan(one_failing(rt, alloc, place), None);
    let told = matches!(
        load(alloc, &mut disk, &schema, SECOND),
        Err(LoadRefusal::DiskFault)
    );
    let faults = disk.faults();
    let (founds, _logs) = load(alloc, &mut disk, &schema, SECOND)?;
    Ok(told == (place < CALLS) && (faults == 1) == told && founds.len() == 2)
}

#[test]
fn each_call_fails_once(rt: HostRuntime) {
    let alloc = rt.alloc();
    for place in 0..=CALLS {
        let told = is_told(&rt, alloc, place);
        if place < CALLS {
            assert!(rt; matches!(told, Ok(true)));
        } else {
            // The call that fails is the first of the second load.
            assert!(rt; matches!(told, Err(LoadRefusal::DiskFault)));
        }
    }
}
