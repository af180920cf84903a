//! A run of `once`.
ghost use Rattle.std.specs.Prelude.{◌≡◌, ◌≢◌};
ghost use Rattle.std.specs.Option.{option_map};
ghost use Rattle.date_loading.specs.declared.refusal.LoadRefusal.TheVariants as l;
ghost use Rattle.q_values.specs.Limits.{AreLimits};
ghost use Rattle.plant_run.specs.Once.{RunsIn, RunsInMemory, RunsWith, Finishes, Refuses, clock_back, course_of};

use crate::causes::StartRefusal;
use crate::course::Course;
use crate::ends::{cannot_start, conclude, short};
use crate::serving::serve_timed;
use date_loading::LoadRefusal;
use day_rows::Schema;
use outside_mem::MemDisk;
use plant_core::Plant;
use plant_words::Ticking;
use program_outside::{MakeFault, Outside};
use q_values::Limits;
use std::alloc::Global;
use std::sync::Wait;

/// Serves one session over the plant of the folder of this path, or over a new one in memory; gives the exit status.
pub fn serve_once<O: Outside, R: Wait>(
    rt: &R,
    alloc: Global,
    folder: Option<&str>,
    schema: Schema,
    ticking: Option<Ticking>,
    limits: &Limits,
    outside: &mut O,
) -> u8
    requires { AreLimits limits.now }
    ensures { RunsWith limits.now schema ticking (option_map (λ s. s.now) folder.entry) (O.seen outside.old) (O.seen outside.new) result }
{
    match folder {
        Some(path) => once_in_folder(rt, alloc, path, schema, ticking, limits, outside),
        None => once_in_memory(rt, alloc, schema, ticking, limits, outside),
    }
}

fn once_in_folder<O: Outside, R: Wait>(
    rt: &R,
    alloc: Global,
    path: &str,
    schema: Schema,
    ticking: Option<Ticking>,
    limits: &Limits,
    outside: &mut O,
) -> u8
    requires { AreLimits limits.now }
    ensures { RunsIn limits.now schema ticking path.now (O.seen outside.old) (O.seen outside.new) result }
{
    let disk = match outside.folder(alloc, path) {
        Ok(disk) => disk,
        Err(MakeFault { cause }) => {
            return cannot_start(alloc, path, &StartRefusal::Device(cause), outside);
        }
    };
    let (disk, course, clock) = serve_timed(rt, alloc, disk, schema, limits, ticking, outside);
    let status = finish(alloc, Some(path), course, clock, outside);
    outside.keep(disk);
    status
}

fn once_in_memory<O: Outside, R: Wait>(
    rt: &R,
    alloc: Global,
    schema: Schema,
    ticking: Option<Ticking>,
    limits: &Limits,
    outside: &mut O,
) -> u8
    requires { AreLimits limits.now }
    ensures { RunsInMemory limits.now schema ticking (O.seen outside.old) (O.seen outside.new) result }
{
    let mut disk = MemDisk::new(alloc);
    date_logs::files_restart_once();
    let Ok(()) = Plant::<MemDisk>::format(alloc, &mut disk, &schema) else {
        return short(outside);
    };
    let (_disk, course, clock) = serve_timed(rt, alloc, disk, schema, limits, ticking, outside);
    finish(alloc, None, course, clock, outside)
}

/// Hands the devices of a run back, but for its disk, prints its lines and gives the exit status.
fn finish<O: Outside>(
    alloc: Global,
    folder: Option<&str>,
    course: Course<O::Link, O::Recorder>,
    clock: Option<O::Clock>,
    outside: &mut O,
) -> u8
    ensures { Finishes (option_map (λ s. s.now) folder.entry) (option_map (λ c. O.Clock.readings c) clock) (O.seen outside.old) (O.seen outside.new) result
        (course_of O.Link.shown O.Recorder.noted course) }
{
    match course {
        Course::NotLoaded(why) => {
            give_clock_back(clock, outside);
            not_loaded(alloc, folder, why, outside)
        }
        Course::NotLinked(cause) => {
            give_clock_back(clock, outside);
            cannot_start(
                alloc,
                "standard input and output",
                &StartRefusal::Device(cause),
                outside,
            )
        }
        Course::Ended { link, turns, end } => {
            outside.back(Some(link), clock, Some(turns));
            conclude(end, outside)
        }
    }
}

/// Hands back the clock of a run without a session, if the outside made it.
fn give_clock_back<O: Outside>(clock: Option<O::Clock>, outside: &mut O)
    ensures { O.seen outside.new ≡ clock_back (O.seen outside.old) (option_map (λ c. O.Clock.readings c) clock) }
{
    match clock {
        Some(clock) => outside.back(None, Some(clock), None),
        None => {}
    }
}

/// Prints the lines of a load that was refused, and gives the exit status. A disk in memory refuses only
/// where it is out of memory.
pub fn not_loaded<O: Outside>(
    alloc: Global,
    folder: Option<&str>,
    why: LoadRefusal,
    outside: &mut O,
) -> u8
    ensures { Refuses (option_map (λ s. s.now) folder.entry) why (O.seen outside.old) (O.seen outside.new) result }
{
    match (folder, why) {
        (None, _) => short(outside),
        (Some(_), LoadRefusal::NoMemory) => short(outside),
        (Some(path), why) => cannot_start(alloc, path, &StartRefusal::Load(why), outside),
    }
}
