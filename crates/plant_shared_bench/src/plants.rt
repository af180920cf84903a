//! A lock round a new plant of the built-in tables.
ghost use Rattle.std.specs.Prelude.{◌≡◌, IfOk, IfSome, []};
ghost use Rattle.plant_shared.specs.Shared.{IsPass};

use crate::feeding::logs_all;
use crate::request::trades;
use day_rows::Schema;
use mem_plant::new_plant;
use outside_api::Disk;
use outside_mem::MemDisk;
use plant_core::Plant;
use plant_lock::PlantLock;
use plant_shared::{Lock, PlantPass, Shared};
use q_values::{Limits, NoMemory};
use schema_text::built_in_schema;
use std::alloc::Global;
use std::sync::{Arc, Wait};

// The date of the plant: 2024.01.02, in days since 2000.01.01.
const DATE: i32 = 8_767;

// The rows of each update of a day that is logged before the clock runs.
const ROWS: u32 = 1_000;

/// A lock round a plant over a disk in memory, a pass of it, and the plant's tables.
pub(crate) type Opened = (Lock<MemDisk>, PlantPass<MemDisk>, Arc<Schema>);

/// A new plant.
pub(crate) fn plant(alloc: Global) -> Result<Plant<MemDisk>, NoMemory> {
    new_plant(alloc, built_in_schema(alloc)?, DATE, &Limits::standard())
}

/// A lock round a new plant, its first pass, and the tables; `None` where no number is left for a pass.
pub(crate) fn opened<R>(rt: &R, alloc: Global) -> Result<Option<Opened>, NoMemory>
    ensures { IfOk result (λ o. IfSome o (λ r. IsPass r.0.id r.1 × (r.1.mine ≡ []) × (r.2.value ≡ r.0.made.memory.frame.schema))) }
{
    let plant = plant(alloc)?;
    let schema = plant.shared_schema(alloc)?;
    let Some(first) = plant.first_pass() else {
        return Ok(None);
    };
    match PlantLock::new(rt, alloc, plant, first) {
        Ok((lock, pass)) => Ok(Some((lock, pass, schema))),
        Err(_) => Err(NoMemory),
    }
}

/// A second pass.
pub(crate) fn branch<D: Disk, R: Wait>(
    rt: &R,
    lock: &Lock<D>,
    pass: PlantPass<D>,
) -> (PlantPass<D>, PlantPass<D>)
    requires { IsPass lock.now.id pass × (pass.mine ≡ []) }
    ensures one { IsPass lock.now.id result.0 × (result.0.mine ≡ []) }
    ensures other { IsPass lock.now.id result.1 × (result.1.mine ≡ []) }
{
    lock.pass(rt, pass)
}

/// Logs a day of this many rows, in thousands, and gives a pass that has seen it.
pub(crate) fn with_day<R: Wait>(
    rt: &R,
    alloc: Global,
    lock: &Lock<MemDisk>,
    pass: PlantPass<MemDisk>,
    schema: &Arc<Schema>,
    rows: u32,
) -> Option<PlantPass<MemDisk>>
    requires pass { IsPass lock.now.id pass × (pass.mine ≡ []) }
    requires schema { schema.now.value ≡ lock.now.made.memory.frame.schema }
    ensures { IfSome result (λ after. IsPass lock.now.id after × (after.mine ≡ [])) }
{
    let request = trades(alloc, ROWS as usize).ok()?;
    let mut session = Shared::new(lock, pass, schema.clone().ok()?);
    if !logs_all(rt, alloc, &mut session, &request, rows / ROWS) {
        return None;
    }
    let (_mother, pass) = lock.pass(rt, session.into_parts());
    Some(pass)
}
