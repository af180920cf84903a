//! One session over a disk of which one call fails, and what a later load finds.
ghost use Rattle.std.specs.Prelude.{◌≡◌, ◌≤ℤ◌, negsuc, pos};

use outside_mem::{Callings, Leaving, MemClock, MemDisk, MemLink, MemRecorder, NoGate};
use plant_core::{Plant, Solo};
use q_values::Turn;
use session::{End, serve_session};
use std::alloc::Global;
use std::process::Abort;
use std::sync::Wait;
use test_plants::{FIRST, are_longs, formatted, load, shown};
use test_sessions::{Read, are_joined, clock_of, link_of};

/// What is expected of a session, and of a load after it.
#[derive(Clone, Copy)]
pub struct Wanted<'a> {
    /// What it sends, in parts.
    pub sent: &'a [&'a [u8]],
    /// The turns that it notes.
    pub turns: &'a [Turn],
    /// How many entries a load on the second date finds.
    pub entries: u64,
}

/// 2024.01.03, in days since 2000.01.01.
const SECOND: i32 = FIRST + 1;

// The plant of a new disk whose calls go as these, if it is loaded.
fn planned(rt: &impl Abort, alloc: Global, callings: Callings) -> Option<Plant<MemDisk>> {
    match formatted(alloc).expect(rt, "memory") {
        Some(mut disk) => {
            disk.plan(callings, None);
            load(alloc, disk, FIRST).ok()
        }
        None => None,
    }
}

// Serves the link over a plant which has logged nothing; the disk, if the input ends between messages.
fn serve<R: Wait>(
    rt: &R,
    alloc: Global,
    plant: Plant<MemDisk>,
    clock: &mut MemClock,
    link: &mut MemLink,
    recorder: &mut MemRecorder,
) -> Option<MemDisk> {
    if plant.next_by() != 1 {
        return None;
    }
    let limits = plant.limits();
    let mut solo = Solo::new(plant);
    let mut gate = NoGate;
    let report = serve_session(
        rt, alloc, &mut solo, link, clock, &mut gate, recorder, &limits,
    );
    (report.end == End::Closed).then_some(solo.into_plant().close())
}

// Whether the plant has this number of entries, and the sizes of the first date are those of one update.
fn has_one(rt: &impl Abort, alloc: Global, plant: &Plant<MemDisk>, entries: u64) -> bool {
    let snapshot = plant.snapshot(alloc).expect(rt, "memory");
    match shown(alloc, &snapshot, plant.schema(), 0, 3).expect(rt, "memory") {
        Some(sizes) => plant.length() == entries && are_longs(&sizes, &[200]),
        None => false,
    }
}

// Whether a load on the second date, after a crash, finds one update and this number of entries.
fn is_found(rt: &impl Abort, alloc: Global, disk: &MemDisk, entries: u64) -> bool {
    match load(
        alloc,
        disk.restart(alloc, Leaving::Shortest).expect(rt, "memory"),
        SECOND,
    ) {
        Ok(plant) => has_one(rt, alloc, &plant, entries),
        Err(_) => false,
    }
}

// Whether the session over this plant goes as expected, and one call of its disk failed.
fn goes_on<R: Abort + Wait>(
    rt: &R,
    alloc: Global,
    plant: Plant<MemDisk>,
    clock: &mut MemClock,
    link: &mut MemLink,
    wanted: Wanted,
) -> bool {
    let mut recorder = MemRecorder::with_room(alloc, 16).expect(rt, "memory");
    let Some(disk) = serve(rt, alloc, plant, clock, link, &mut recorder) else {
        return false;
    };
    let told = recorder.turns() == wanted.turns && are_joined(link.taken(), wanted.sent);
    told && disk.faults() == 1 && is_found(rt, alloc, &disk, wanted.entries)
}

/// Whether a session goes as expected with these reads, these readings of the clock, and a disk whose calls go as these.
pub fn goes<R: Abort + Wait>(
    rt: &R,
    alloc: Global,
    callings: Callings,
    readings: &[i64],
    reads: &[Read],
    wanted: Wanted,
) -> bool {
    let mut link = link_of(alloc, reads, &[]).expect(rt, "memory");
    let Some(mut clock) = clock_of(alloc, readings).expect(rt, "memory") else {
        return false;
    };
    match planned(rt, alloc, callings) {
        Some(plant) => goes_on(rt, alloc, plant, &mut clock, &mut link, wanted),
        None => false,
    }
}
