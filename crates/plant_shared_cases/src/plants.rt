//! A lock round a new plant of the built-in tables, and updates of `trade` through an access.
ghost use Rattle.std.specs.Prelude.{◌≡◌, IfSome, []};
ghost use Rattle.plant_shared.specs.Shared.{IsPass};

use day_rows::Schema;
use mem_plant::new_plant;
use outside_api::Disk;
use outside_mem::MemDisk;
use plant_core::{Access, UpdTurn};
use plant_lock::PlantLock;
use plant_memory::UpdRequest;
use plant_shared::{Lock, PlantPass, Shared};
use q_values::{Atom, Limits, Sym, Value, Values};
use schema_text::built_in_schema;
use std::alloc::Global;
use std::process::Abort;
use std::sync::{Arc, Wait};

/// 2024.01.02, in days since 2000.01.01: the first date.
pub(crate) const FIRST: i32 = 8_767;

/// `0D09:30`, in nanoseconds.
const NINE_THIRTY: i64 = 34_200_000_000_000;

/// 2024.01.02D09:30, in nanoseconds since 2000.01.01.
pub(crate) const NOW: i64 = 757_503_000_000_000_000;

/// A lock round a plant over a disk in memory, a pass of it, and the plant's tables.
pub(crate) type Opened = (Lock<MemDisk>, PlantPass<MemDisk>, Arc<Schema>);

fn symbol(rt: &impl Abort, alloc: Global, name: &str) -> Sym {
    Sym::of(alloc, name.as_bytes()).expect(rt, "memory")
}

/// An update of one row of `trade`.
pub(crate) fn one_trade(rt: &impl Abort, alloc: Global) -> UpdRequest {
    let mut items = Values::new(alloc);
    items
        .push(Value::Atom(Atom::Timespan(NINE_THIRTY)))
        .expect(rt, "memory");
    items
        .push(Value::Atom(Atom::Symbol(symbol(rt, alloc, "KX"))))
        .expect(rt, "memory");
    items
        .push(Value::Atom(Atom::Long(10_050)))
        .expect(rt, "memory");
    items
        .push(Value::Atom(Atom::Long(200)))
        .expect(rt, "memory");
    UpdRequest {
        table: symbol(rt, alloc, "trade"),
        items,
    }
}

/// A lock round a new plant, its first pass, and the tables; `None` where no number is left for a pass.
pub(crate) fn opened<R: Abort>(rt: &R, alloc: Global) -> Option<Opened>
    ensures { IfSome result (λ r. IsPass r.0.id r.1 × (r.1.mine ≡ []) × (r.2.value ≡ r.0.made.memory.frame.schema)) }
{
    let tables = built_in_schema(alloc).expect(rt, "memory");
    let plant = new_plant(alloc, tables, FIRST, &Limits::standard()).expect(rt, "memory");
    let schema = plant.shared_schema(alloc).expect(rt, "memory");
    let Some(first) = plant.first_pass() else {
        return None;
    };
    match PlantLock::new(rt, alloc, plant, first) {
        Ok((lock, pass)) => Some((lock, pass, schema)),
        Err(_) => panic!(rt; "no memory"),
    }
}

/// A second pass.
pub(crate) fn branch<D: Disk, R: Wait>(
    rt: &R,
    lock: &Lock<D>,
    pass: PlantPass<D>,
) -> (PlantPass<D>, PlantPass<D>)
    requires { IsPass lock.now.id pass × (pass.mine ≡ []) }
    ensures one { IsPass lock.now.id result.0 × (result.0.mine ≡ []) }
    ensures other { IsPass lock.now.id result.1 × (result.1.mine ≡ []) }
{
    lock.pass(rt, pass)
}

/// The index of the entry that an update of one row makes, where it is logged without a roll.
pub(crate) fn logs<D: Disk, R: Wait>(
    rt: &R,
    alloc: Global,
    session: &mut Shared<'_, D>,
    request: &UpdRequest,
) -> Option<u64>
    ensures { session.new.lock ≡ session.old.lock }
{
    match session.upd(rt, alloc, request, NOW) {
        UpdTurn::Logged {
            rolled: None,
            place,
        } => Some(place),
        UpdTurn::Logged {
            rolled: Some(_),
            ..
        } => None,
        UpdTurn::Refused { .. } => None,
        UpdTurn::Failed { .. } => None,
    }
}

/// The number of updates that an access finds.
pub(crate) fn found<D: Disk, R: Abort + Wait>(
    rt: &R,
    alloc: Global,
    session: &mut Shared<'_, D>,
) -> u64
    ensures { session.new.lock ≡ session.old.lock }
{
    let snapshot = session.snapshot(rt, alloc).expect(rt, "memory");
    snapshot.updates_today()
}
