//! A script of updates and rolls, and what a later load finds of it.
ghost use Rattle.std.specs.Prelude.{◌≡◌};

use date_loading::LoadRefusal;
use day_rows::Schema;
use outside_mem::MemDisk;
use plant_core::{Access, LoadFailure, Plant, Solo, TickTurn, UpdTurn};
use plant_memory::Snapshot;
use q_values::{Column, NANOSECONDS_PER_DAY};
use std::alloc::Global;
use std::process::Abort;
use std::sync::Wait;
use test_plants::{FIRST, LOAD_CALLS, NINE_THIRTY, NOW, load, request_of, shown};

/// An update for each letter, and a roll for each `R`.
pub(crate) const SCRIPT: [u8; 22] = *b"abcdefgRhijklmnRopqrst";

/// The number of calls of the disk that the load and the script make: four for an update, and seven for a roll.
pub(crate) const CALLS: u64 = LOAD_CALLS + 94;

/// What became of an entry of the script.
#[derive(Clone, Copy, PartialEq)]
pub(crate) enum Sent {
    /// It has this index.
    Logged(u64),
    /// The fault has this index, and is the pass's last one.
    Failed(u64),
    /// Anything else.
    Other,
}

// The moment at which an entry is sent while this date is open: the next day's for a roll.
fn moment(days: i64, letter: u8) -> i64 {
    let days = if letter == b'R' {
        days.wrapping_add(1)
    } else {
        days
    };
    NOW.wrapping_add(days.wrapping_mul(NANOSECONDS_PER_DAY))
}

// Sends an update whose size is the letter.
fn update<R: Abort + Wait>(
    rt: &R,
    alloc: Global,
    solo: &mut Solo<MemDisk>,
    letter: u8,
    now: i64,
) -> Sent {
    let row = (NINE_THIRTY, "KX", 10_050, i64::from(letter));
    let request = request_of(alloc, row).expect(rt, "memory");
    match solo.upd(rt, alloc, &request, now) {
        UpdTurn::Logged {
            rolled: None,
            place,
        } => Sent::Logged(place),
        UpdTurn::Failed { rolled, place } => {
            let last = solo.last_fault();
            if rolled.is_none() && last == place {
                Sent::Failed(place)
            } else {
                Sent::Other
            }
        }
        _ => Sent::Other,
    }
}

fn roll<R: Wait>(rt: &R, alloc: Global, solo: &mut Solo<MemDisk>, now: i64) -> Sent {
    match solo.tick(rt, alloc, now) {
        TickTurn::Rolled { place } => Sent::Logged(place),
        TickTurn::Failed { place } => {
            if solo.last_fault() == place {
                Sent::Failed(place)
            } else {
                Sent::Other
            }
        }
        _ => Sent::Other,
    }
}

/// Sends the entry of a letter, this many days after the first date.
pub(crate) fn send<R: Abort + Wait>(
    rt: &R,
    alloc: Global,
    solo: &mut Solo<MemDisk>,
    days: i64,
    letter: u8,
) -> Sent {
    let now = moment(days, letter);
    if letter == b'R' {
        roll(rt, alloc, solo, now)
    } else {
        update(rt, alloc, solo, letter, now)
    }
}

// Appends the sizes of `trade` on the date with the index `k`, as letters; whether the date has sizes.
fn read_date(
    rt: &impl Abort,
    alloc: Global,
    snapshot: &Snapshot,
    schema: &Schema,
    k: usize,
    text: &mut Vec<u8>,
) -> bool
    requires { snapshot.now.frame.schema ≡ schema.now }
{
    let Some(column) = shown(alloc, snapshot, schema, k, 3).expect(rt, "memory") else {
        return false;
    };
    let Column::Longs(_, sizes) = column.column() else {
        return false;
    };
    for size in sizes.iter() {
        text.push(u8::try_from(*size).unwrap_or(0))
            .expect(rt, "memory");
    }
    true
}

/// What a snapshot shows, as the letters of the script.
pub(crate) fn text_of(
    rt: &impl Abort,
    alloc: Global,
    snapshot: &Snapshot,
    schema: &Schema,
) -> Vec<u8>
    requires { snapshot.now.frame.schema ≡ schema.now }
{
    let mut text = Vec::new(alloc);
    for k in 0..snapshot.dates() {
        if k > 0 {
            text.push(b'R').expect(rt, "memory");
        }
        if !read_date(rt, alloc, snapshot, schema, k, &mut text) {
            text.push(b'?').expect(rt, "memory");
        }
    }
    text
}

// The plant of this disk, at the last date that it opened.
fn reloaded(alloc: Global, disk: MemDisk) -> Option<Plant<MemDisk>> {
    match load(alloc, disk, FIRST) {
        Ok(plant) => Some(plant),
        Err(
            LoadFailure {
                disk,
                why: LoadRefusal::EarlierDate { kept },
            },
        ) if FIRST <= kept && kept < 10_000 => load(alloc, disk, kept).ok(),
        Err(_) => None,
    }
}

/// What a load of this disk finds, as the letters of the script, if it succeeds.
pub(crate) fn found(rt: &impl Abort, alloc: Global, disk: MemDisk) -> Option<Vec<u8>> {
    match reloaded(alloc, disk) {
        Some(plant) => {
            let snapshot = plant.snapshot(alloc).expect(rt, "memory");
            Some(text_of(rt, alloc, &snapshot, plant.schema()))
        }
        None => None,
    }
}
