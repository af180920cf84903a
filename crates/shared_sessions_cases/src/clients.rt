//! Sessions of clients that feed and that ask, and what each has to answer.
ghost use Rattle.std.specs.Prelude.{◌≡◌, IfSome};
ghost use Rattle.shared_sessions.specs.Sessions.{MayServe};

use crate::bytes::{COUNT, GREETING, UPDATE, after_turn, link_of};
use crate::plants::NOW;
use day_rows::{Entry, Schema};
use outside_api::Disk;
use outside_mem::{MemClock, MemLink, MemRecorder, NoGate};
use plant_lock::Note;
use plant_shared::{Lock, PlantPass};
use q_values::{Limits, NoMemory, Sequence, Turn};
use session::End;
use shared_sessions::{Connection, Finished, serve_shared};
use std::alloc::Global;
use std::sync::{Arc, Wait};

// The devices of a connection in memory.
type MemConnection = Connection<MemLink, MemClock, NoGate, MemRecorder>;

// A session over them that has ended.
type Served = Finished<MemLink, MemClock, MemRecorder>;

// The clock of each session: always the same moment.
fn clock(alloc: Global) -> Result<Option<MemClock>, NoMemory> {
    let moments = Sequence::from_vec(alloc, Vec::from_slice(alloc, &[NOW])?)?;
    if moments.len() == 0 {
        return Ok(None);
    }
    Ok(Some(MemClock::new(moments)))
}

// What a feed sends: its handshake, and this many updates.
fn feed_reads(alloc: Global, updates: u32) -> Result<Vec<&'static [u8]>, NoMemory> {
    let mut reads = Vec::new(alloc);
    reads.push(GREETING)?;
    for _ in 0..updates {
        reads.push(UPDATE)?;
    }
    Ok(reads)
}

// What a reader sends: its handshake, and in each round a text, an update and the text again.
fn reader_reads(alloc: Global, rounds: u32) -> Result<Vec<&'static [u8]>, NoMemory> {
    let mut reads = Vec::new(alloc);
    reads.push(GREETING)?;
    for _ in 0..rounds {
        reads.push(COUNT)?;
        reads.push(UPDATE)?;
        reads.push(COUNT)?;
    }
    Ok(reads)
}

// A connection of a client that sends this, and room for a turn of each read.
fn connection(
    alloc: Global,
    reads: &Vec<&'static [u8]>,
) -> Result<Option<MemConnection>, NoMemory> {
    let link = link_of(alloc, reads)?;
    let recorder = MemRecorder::with_room(alloc, reads.len())?;
    match clock(alloc)? {
        Some(clock) => Ok(Some(Connection {
            link,
            clock,
            gate: NoGate,
            recorder,
        })),
        None => Ok(None),
    }
}

// The length that the session knows after a turn; `None` where the turn's length or place is less than what it knew.
fn known_after(known: u64, turn: Turn) -> Option<u64> {
    match turn {
        Turn::Greeted { .. } => Some(known),
        Turn::Logged { place, .. } if place >= known => Some(place.saturating_add(1)),
        Turn::Answered { length } if length >= known => Some(length),
        _ => None,
    }
}

// Whether each turn has its response, and none a length that is less than what the session knew.
fn is_lawful(turns: &[Turn], sent: &[u8]) -> bool {
    let mut known = 0;
    let mut left = sent;
    for turn in turns {
        let (Some(more), Some(rest)) = (known_after(known, *turn), after_turn(left, *turn)) else {
            return false;
        };
        known = more;
        left = rest;
    }
    left.is_empty()
}

// One session through a pass, and a note of what it has then seen; `None` where the session did not end with its input, where
// a read had no turn, or where an answer lacked something that the session had been told.
fn serve_as<D: Disk, R: Wait>(
    rt: &R,
    alloc: Global,
    lock: &Lock<D>,
    pass: PlantPass<D>,
    schema: &Arc<Schema>,
    limits: &Limits,
    reads: &Vec<&'static [u8]>,
) -> Option<Note<Entry>>
    requires { MayServe lock.now pass schema.now.value limits.now }
    ensures { IfSome result (λ note. note.lock ≡ lock.now.id) }
{
    let connection = connection(alloc, reads).ok()??;
    let schema = schema.clone().ok()?;
    let served: Served = serve_shared(rt, alloc, lock, pass, schema, connection, limits);
    let turns = served.recorder.turns();
    let whole = turns.len() == reads.len() && is_lawful(turns, served.link.taken());
    if served.end == End::Closed && whole {
        Some(lock.note(served.pass).1)
    } else {
        None
    }
}

/// One feed through a pass, and a note of what it has then seen; `None` where its session went wrong.
pub(crate) fn feed_as<D: Disk, R: Wait>(
    rt: &R,
    alloc: Global,
    lock: &Lock<D>,
    pass: PlantPass<D>,
    schema: &Arc<Schema>,
    limits: &Limits,
    updates: u32,
) -> Option<Note<Entry>>
    requires { MayServe lock.now pass schema.now.value limits.now }
    ensures { IfSome result (λ note. note.lock ≡ lock.now.id) }
{
    let reads = feed_reads(alloc, updates).ok()?;
    serve_as(rt, alloc, lock, pass, schema, limits, &reads)
}

/// The same of one reader.
pub(crate) fn read_as<D: Disk, R: Wait>(
    rt: &R,
    alloc: Global,
    lock: &Lock<D>,
    pass: PlantPass<D>,
    schema: &Arc<Schema>,
    limits: &Limits,
    rounds: u32,
) -> Option<Note<Entry>>
    requires { MayServe lock.now pass schema.now.value limits.now }
    ensures { IfSome result (λ note. note.lock ≡ lock.now.id) }
{
    let reads = reader_reads(alloc, rounds).ok()?;
    serve_as(rt, alloc, lock, pass, schema, limits, &reads)
}
