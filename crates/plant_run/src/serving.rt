//! A session over the plant of a disk.
ghost use Rattle.std.specs.Prelude.{◌≡◌, ◌≤ℤ◌, ◌+◌, ◌<◌, ◌^◌, ℕ, ℤ, List, Option, Some, None, [], ◌∷◌, negsuc, pos};
ghost use Rattle.std.specs.Option.{option_map};
ghost use Rattle.outside_api.specs.Told.{told};
ghost use Rattle.ticking_clock.specs.Clock.{ticks};
ghost use Rattle.plant_memory.specs.Chronicle.{moment_date, top_by};
ghost use Rattle.q_values.specs.Limits.{AreLimits};
ghost use Rattle.plant_run.specs.Once.{Goes, GoesOn, IsClock, Keeps, course_of};

use crate::course::Course;
use day_rows::Schema;
use outside_api::{Clock, Disk};
use plant_core::{LoadFailure, Plant, Solo};
use plant_words::Ticking;
use program_outside::{MakeFault, Outside};
use q_values::{Limits, NANOSECONDS_PER_DAY};
use session::serve_session;
use std::alloc::Global;
use std::marker::Brand;
use std::sync::Wait;
use ticking_clock::{TickingClock, Ticks};

/// The date of a moment, in days since 2000.01.01.
pub fn open_date(moment: i64) -> i32
    ensures date { result ≡ moment_date moment }
    ensures first { negsuc 106751 ≤ℤ result }
    ensures last { result ≤ℤ pos 106751 }
{
    moment.div_euclid(NANOSECONDS_PER_DAY) as i32
}

/// The disk of a plant that one pass had to itself. It keeps the log of all that the pass has seen.
fn disk_of<D: Disk>(solo: Solo<D>) -> D
    ensures { Keeps (D.shown solo.origin) (D.shown result) solo.frame solo.seen }
{
    solo.into_plant().close()
}

/// Serves one session over a plant that was just loaded, whose clock was read once.
fn serve_plant<O: Outside, D: Disk, C: Clock, R: Wait>(
    rt: &R,
    alloc: Global,
    plant: Plant<D>,
    limits: &Limits,
    clock: &mut C,
    outside: &mut O,
) -> (D, Course<O::Link, O::Recorder>)
    requires limits { AreLimits limits.now }
    requires same { plant.memory.frame.limits ≡ limits.now }
    requires numbers { top_by plant.memory.entries + 2 < 2 ^ 64 }
    ensures { GoesOn limits.now plant.memory (D.shown plant.origin) (D.shown result.0) (C.readings clock.old) (C.readings clock.new)
        (O.seen outside.old) (O.seen outside.new) (course_of O.Link.shown O.Recorder.noted result.1) }
{
    let mut link = match outside.standard() {
        Ok(link) => link,
        Err(MakeFault { cause }) => return (plant.close(), Course::NotLinked(cause)),
    };
    let mut gate = outside.gate();
    let mut turns = outside.recorder();
    let mut solo = Solo::new(plant);
    let report = serve_session(
        rt, alloc, &mut solo, &mut link, clock, &mut gate, &mut turns, limits,
    );
    let course = Course::Ended {
        link,
        turns,
        end: report.end,
    };
    (disk_of(solo), course)
}

/// Loads the plant of a disk at the date of the clock's first reading, and serves one session over it. The disk comes
/// back.
fn serve<O: Outside, D: Disk, C: Clock, R: Wait>(
    rt: &R,
    alloc: Global,
    disk: D,
    schema: Schema,
    limits: &Limits,
    clock: &mut C,
    outside: &mut O,
) -> (D, Course<O::Link, O::Recorder>)
    requires limits { AreLimits limits.now }
    ensures { Goes limits.now schema (D.shown disk) (D.shown result.0) (C.readings clock.old) (C.readings clock.new)
        (O.seen outside.old) (O.seen outside.new) (course_of O.Link.shown O.Recorder.noted result.1) }
{
    let first = clock.now();
    match Plant::load(alloc, disk, schema, open_date(first), limits) {
        Ok(plant) => serve_plant(rt, alloc, plant, limits, clock, outside),
        Err(LoadFailure { disk, why }) => (disk, Course::NotLoaded(why)),
    }
}

/// The same, by a clock with this start and this step.
fn serve_ticking<K: Ticks, O: Outside, D: Disk, R: Wait>(
    rt: &R,
    alloc: Global,
    disk: D,
    schema: Schema,
    limits: &Limits,
    ticking: Ticking,
    outside: &mut O,
) -> (D, Course<O::Link, O::Recorder>)
    requires limits { AreLimits limits.now }
    requires start { ticking.start ≡ K.start }
    requires step { ticking.step ≡ K.step }
    ensures { (n : ℕ) × Goes limits.now schema (D.shown disk) (D.shown result.0) (Some []) (Some (ticks ticking.start ticking.step n))
        (O.seen outside.old) (O.seen outside.new) (course_of O.Link.shown O.Recorder.noted result.1) }
{
    let mut clock = TickingClock::<K>::new(ticking.start, ticking.step);
    let served = serve(rt, alloc, disk, schema, limits, &mut clock, outside);
    clock.has_ticked();
    served
}

/// The same, by a clock with a start and a step, or by one of the outside's, which comes back.
pub fn serve_timed<O: Outside, D: Disk, R: Wait>(
    rt: &R,
    alloc: Global,
    disk: D,
    schema: Schema,
    limits: &Limits,
    ticking: Option<Ticking>,
    outside: &mut O,
) -> (D, Course<O::Link, O::Recorder>, Option<O::Clock>)
    requires limits { AreLimits limits.now }
    ensures { (clock_old clock_new : Option (List ℤ)) × IsClock ticking clock_old clock_new (option_map (λ c. O.Clock.readings c) result.2)
        × Goes limits.now schema (D.shown disk) (D.shown result.0) clock_old clock_new
        (O.seen outside.old) (O.seen outside.new) (course_of O.Link.shown O.Recorder.noted result.1) }
{
    match ticking {
        Some(ticking) => {
            let (disk, course) = serve_ticking::<Brand, O, D, R>(
                rt, alloc, disk, schema, limits, ticking, outside,
            );
            (disk, course, None)
        }
        None => {
            let mut clock = outside.clock();
            let (disk, course) = serve(rt, alloc, disk, schema, limits, &mut clock, outside);
            (disk, course, Some(clock))
        }
    }
}
