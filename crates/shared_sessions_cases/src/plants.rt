//! A lock round a new plant of the built-in tables, and its passes.
ghost use Rattle.std.specs.Prelude.{◌≡◌, IfOk, IfSome};
ghost use Rattle.shared_sessions.specs.Sessions.{MayServe};

use day_rows::Schema;
use mem_plant::new_plant;
use outside_api::Disk;
use outside_mem::MemDisk;
use plant_lock::PlantLock;
use plant_shared::{Lock, PlantPass};
use q_values::{Limits, NoMemory};
use schema_text::built_in_schema;
use std::alloc::Global;
use std::sync::{Arc, Wait};

/// 2024.01.02, in days since 2000.01.01: the first date.
pub(crate) const FIRST: i32 = 8_767;

/// 2024.01.02D09:30, in nanoseconds since 2000.01.01.
pub(crate) const NOW: i64 = 757_503_000_000_000_000;

/// A lock round a plant over a disk in memory, a pass of it, and the plant's tables and limits.
pub(crate) type Opened = (Lock<MemDisk>, PlantPass<MemDisk>, Arc<Schema>, Limits);

/// A lock round a new plant, its first pass, and the tables and limits; `None` where no number is left for a pass.
pub(crate) fn opened<R>(rt: &R, alloc: Global) -> Result<Option<Opened>, NoMemory>
    ensures { IfOk result (λ o. IfSome o (λ r. MayServe r.0 r.1 r.2.value r.3)) }
{
    let plant = new_plant(alloc, built_in_schema(alloc)?, FIRST, &Limits::standard())?;
    let schema = plant.shared_schema(alloc)?;
    let limits = plant.limits();
    let Some(first) = plant.first_pass() else {
        return Ok(None);
    };
    match PlantLock::new(rt, alloc, plant, first) {
        Ok((lock, pass)) => Ok(Some((lock, pass, schema, limits))),
        Err(_) => Err(NoMemory),
    }
}

/// A second pass.
pub(crate) fn branch<D: Disk, R: Wait>(
    rt: &R,
    lock: &Lock<D>,
    pass: PlantPass<D>,
    schema: &Arc<Schema>,
    limits: &Limits,
) -> (PlantPass<D>, PlantPass<D>)
    requires { MayServe lock.now pass schema.now.value limits.now }
    ensures one { MayServe lock.now result.0 schema.now.value limits.now }
    ensures other { MayServe lock.now result.1 schema.now.value limits.now }
{
    lock.pass(rt, pass)
}
