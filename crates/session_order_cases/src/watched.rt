//! Devices that record each call that a session makes of them, all in one list, so that a test sees their order.
ghost use Rattle.std.specs.Prelude.{◌≡◌};
ghost use Rattle.q_values.specs.Limits.{AreLimits};

use day_rows::Schema;
use mem_plant::new_plant;
use outside_api::{Gate, Got, Link, LinkFault, Point, Recorder};
use outside_mem::{MemClock, MemDisk, MemLink, MemRecorder};
use plant_core::{Access, Plant, Solo, TickTurn, UpdTurn};
use plant_memory::{Snapshot, Tail, UpdRequest};
use q_values::{Limits, NoMemory, Turn};
use schema_text::{BUILT_IN, read_schema};
use session::serve_session;
use std::alloc::Global;
use std::process::Abort;
use std::sync::atomic::AtomicU64;
use std::sync::atomic::Ordering::SeqCst;
use std::sync::{Arc, Wait};
use test_sessions::TODAY;

/// A call that a session makes of a device.
#[derive(Clone, Copy)]
pub enum Call {
    /// The access is asked for an update.
    Update,
    /// The access is asked whether the open date ends.
    Tick,
    /// The access is asked for a snapshot.
    Snapshot,
    /// The gate, after a roll.
    PauseRolled,
    /// The gate, before an answer is computed.
    PauseEvaluating,
    /// The gate, at another point.
    PauseElsewhere,
    /// A turn is noted.
    Note,
    /// Bytes are written.
    Write,
    /// The access is asked for a tail.
    Tail,
}

impl Call {
    fn number(self) -> u64 {
        match self {
            Call::Update => 1,
            Call::Tick => 2,
            Call::Snapshot => 3,
            Call::PauseRolled => 4,
            Call::PauseEvaluating => 5,
            Call::PauseElsewhere => 6,
            Call::Note => 7,
            Call::Write => 8,
            Call::Tail => 9,
        }
    }
}

/// The number of calls in this order: a hexadecimal digit for each, at most sixteen.
pub fn number_of(calls: &[Call]) -> u64 {
    let mut number: u64 = 0;
    for call in calls {
        number = number.wrapping_mul(16).wrapping_add(call.number());
    }
    number
}

/// The calls made so far, as their number.
#[derive(Drop)]
struct Calls {
    made: Arc<AtomicU64>,
}

impl Calls {
    fn none(rt: &impl Abort, alloc: Global) -> Calls {
        Calls {
            made: Arc::new(alloc, AtomicU64::new(0)).expect(rt, "memory"),
        }
    }

    fn shared(&self, rt: &impl Abort) -> Calls {
        Calls {
            made: Arc::clone(&self.made).expect(rt, "memory"),
        }
    }

    fn add(&self, call: Call) {
        let made = self.made.load(SeqCst);
        let next = made.wrapping_mul(16).wrapping_add(call.number());
        self.made.store(next, SeqCst);
    }

    // Devices that add their calls.

    fn gate(&self, rt: &impl Abort) -> WatchedGate {
        WatchedGate {
            calls: self.shared(rt),
        }
    }

    fn link(&self, rt: &impl Abort, link: MemLink) -> WatchedLink {
        WatchedLink {
            calls: self.shared(rt),
            link,
        }
    }

    fn recorder(&self, rt: &impl Abort, alloc: Global) -> WatchedRecorder {
        WatchedRecorder {
            calls: self.shared(rt),
            recorder: MemRecorder::with_room(alloc, 64).expect(rt, "memory"),
        }
    }
}

#[derive(Drop)]
struct WatchedGate {
    calls: Calls,
}

impl Gate for WatchedGate {
    fn pause(&mut self, point: Point) {
        self.calls.add(match point {
            Point::Rolled => Call::PauseRolled,
            Point::Evaluating => Call::PauseEvaluating,
            Point::WritingColumns => Call::PauseElsewhere,
        });
    }
}

#[derive(Drop)]
struct WatchedLink {
    calls: Calls,
    link: MemLink,
}

impl Link for WatchedLink {
    ghost shown = { λ l. l.link.shown };

    fn read(&mut self, buf: &mut [u8]) -> Got {
        self.link.read(buf)
    }

    fn write(&mut self, bytes: &[u8]) -> Result<(), LinkFault> {
        self.calls.add(Call::Write);
        self.link.write(bytes)
    }
}

#[derive(Drop)]
struct WatchedRecorder {
    calls: Calls,
    recorder: MemRecorder,
}

impl Recorder for WatchedRecorder {
    ghost use Rattle.outside_mem.specs.Recorder.{noted_by};

    ghost noted = { λ r. noted_by r.recorder };

    fn note(&mut self, turn: Turn) {
        self.calls.add(Call::Note);
        self.recorder.note(turn);
    }
}

#[derive(Drop)]
struct WatchedAccess {
    calls: Calls,
    solo: Solo<MemDisk>,
}

impl Access for WatchedAccess {
    ghost use Rattle.outside_mem.specs.MemDisk.{shown_by};
    ghost use Rattle.plant_core.specs.Access.{shown_alone};

    ghost shown = { λ a. shown_alone shown_by a.solo };

    fn by(&self) -> u64 {
        self.solo.by()
    }

    fn schema(&self) -> &Schema {
        self.solo.schema()
    }

    fn upd<R: Wait>(&mut self, rt: &R, alloc: Global, request: &UpdRequest, now: i64) -> UpdTurn {
        self.calls.add(Call::Update);
        self.solo.upd(rt, alloc, request, now)
    }

    fn tick<R: Wait>(&mut self, rt: &R, alloc: Global, now: i64) -> TickTurn {
        self.calls.add(Call::Tick);
        self.solo.tick(rt, alloc, now)
    }

    fn snapshot<R: Wait>(&mut self, rt: &R, alloc: Global) -> Result<Snapshot, NoMemory> {
        self.calls.add(Call::Snapshot);
        self.solo.snapshot(rt, alloc)
    }

    fn tail<R: Wait>(&mut self, rt: &R, alloc: Global, from: u64) -> Result<Tail, NoMemory> {
        self.calls.add(Call::Tail);
        self.solo.tail(rt, alloc, from)
    }

    fn last_fault(&self) -> u64 {
        self.solo.last_fault()
    }
}

// Serves the link over this plant, which has logged nothing, and gives the number of the calls.
fn watch<R: Abort + Wait>(
    rt: &R,
    alloc: Global,
    limits: &Limits,
    plant: Plant<MemDisk>,
    link: MemLink,
    clock: &mut MemClock,
) -> Option<u64>
    requires limits { AreLimits limits.now }
    requires same { plant.memory.frame.limits ≡ limits.now }
{
    if plant.next_by() != 1 {
        return None;
    }
    let calls = Calls::none(rt, alloc);
    let mut access = WatchedAccess {
        calls: calls.shared(rt),
        solo: Solo::new(plant),
    };
    let mut link = calls.link(rt, link);
    let mut gate = calls.gate(rt);
    let mut turns = calls.recorder(rt, alloc);
    let _report = serve_session(
        rt,
        alloc,
        &mut access,
        &mut link,
        clock,
        &mut gate,
        &mut turns,
        limits,
    );
    Some(calls.made.load(SeqCst))
}

/// The number of the calls that a session over this link makes, where three read timeouts end it.
pub fn calls_of<R: Abort + Wait>(
    rt: &R,
    alloc: Global,
    link: MemLink,
    clock: &mut MemClock,
) -> Option<u64> {
    let mut limits = Limits::standard();
    limits.idle = 3;
    match read_schema(alloc, BUILT_IN) {
        Ok(schema) => {
            let plant = new_plant(alloc, schema, TODAY, &limits).expect(rt, "memory");
            watch(rt, alloc, &limits, plant, link, clock)
        }
        Err(_) => None,
    }
}
