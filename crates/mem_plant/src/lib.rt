//! A new plant over a disk in memory.
//!
//! A plant needs a disk that it was formatted on. Where nothing is to outlive the process, as in a program without a
//! folder or in most tests, that disk is in memory and is made here:
//!
//! ```text
//! let plant = new_plant(alloc, schema, 8_767, &Limits::standard())?;    // 2024.01.02
//! let mut solo = Solo::new(plant);
//! ```
//!
//! [`new_plant`] formats the disk and gives the plant that is open on the date, in days since 2000.01.01. It fails only
//! where it is out of memory.
//!
//! The disk has no call that is to fail, and starts empty. A plant over another disk is made by `Plant::format` and
//! `Plant::load`.
#![tactic(auto)]

ghost use Rattle.std.specs.Prelude.{◌≡◌, ◌≤ℤ◌, negsuc, pos, IfOk};
ghost use Rattle.q_values.specs.Limits.{AreLimits};
ghost use Rattle.mem_plant.specs.New.{IsNew};

use day_rows::Schema;
use outside_mem::MemDisk;
use plant_core::Plant;
use q_values::{Limits, NoMemory};
use std::alloc::Global;

/// A plant of these tables that has logged nothing, open at this date, in days since 2000.01.01. The error is that it is
/// out of memory.
pub fn new_plant(
    alloc: Global,
    schema: Schema,
    date: i32,
    limits: &Limits,
) -> Result<Plant<MemDisk>, NoMemory>
    requires limits { AreLimits limits.now }
    requires first { negsuc 106751 ≤ℤ date }
    requires last { date ≤ℤ pos 106751 }
    ensures { IfOk result (λ plant. IsNew schema date limits.now plant.memory) }
{
    let mut disk = MemDisk::new(alloc);
    date_logs::files_restart_once();
    // A disk that has just been made is refused only where memory runs out.
    let Ok(()) = Plant::<MemDisk>::format(alloc, &mut disk, &schema) else {
        return Err(NoMemory);
    };
    match Plant::load(alloc, disk, schema, date, limits) {
        Ok(plant) => Ok(plant),
        Err(_) => Err(NoMemory),
    }
}
