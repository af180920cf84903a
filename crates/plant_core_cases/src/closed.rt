//! The disk of a plant that was closed, and the plant that is loaded from a disk.
ghost use Rattle.std.specs.Prelude.{◌≤ℤ◌, negsuc, pos};

use outside_mem::MemDisk;
use plant_core::Plant;
use std::alloc::Global;
use std::process::Abort;
use std::sync::Wait;
use test_plants::{NOW, Row, load, logs, new_solo};

/// The disk of a new plant that logged one update, after it was closed.
pub fn one_update<R: Abort + Wait>(rt: &R, alloc: Global, row: Row) -> Option<MemDisk> {
    let Some(mut solo) = new_solo(alloc).expect(rt, "memory") else {
        return None;
    };
    let logged = logs(rt, alloc, &mut solo, row, NOW).expect(rt, "memory");
    let disk = solo.into_plant().close();
    if logged { Some(disk) } else { None }
}

/// The plant of this disk, if it is loaded.
pub fn loaded(alloc: Global, disk: MemDisk, date: i32) -> Option<Plant<MemDisk>>
    requires first { negsuc 106751 ≤ℤ date }
    requires last { date ≤ℤ pos 106751 }
{
    load(alloc, disk, date).ok()
}
