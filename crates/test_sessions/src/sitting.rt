//! One session over devices in memory, and what is expected of it.
ghost use Rattle.std.specs.Prelude.{◌≡◌};
ghost use Rattle.q_values.specs.Limits.{AreLimits};

use crate::bytes::GREETING;
use mem_plant::new_plant;
use outside_mem::{
    MemClock, MemDisk, MemLink, MemRecorder, NoGate, Piece, Pieces, Taking, Takings,
};
use plant_core::{Plant, Solo};
use q_values::{Limits, NoMemory, Sequence, Text, Turn};
use schema_text::{BUILT_IN, read_schema};
use session::{End, serve_session};
use std::alloc::Global;
use std::sync::Wait;

/// 2024.01.02D09:30, in nanoseconds since 2000.01.01.
pub const NOW: i64 = 757_503_000_000_000_000;

/// The turn of the handshake with the capability 3.
pub const GREETED_TURN: Turn = Turn::Greeted { capability: 3 };

/// The turn of the first update, logged at `NOW`.
pub const LOGGED_TURN: Turn = Turn::Logged { place: 0, now: NOW };

/// 2024.01.02, in days since 2000.01.01.
pub const TODAY: i32 = 8767;

/// What is expected of a session.
#[derive(Clone, Copy)]
pub struct Wanted<'a> {
    /// Why it ends.
    pub end: End,
    /// What it sends, in parts.
    pub sent: &'a [&'a [u8]],
    /// The turns that it notes.
    pub turns: &'a [Turn],
}

/// Whether the bytes are the concatenation of these parts.
pub fn are_joined(bytes: &[u8], parts: &[&[u8]]) -> bool {
    let mut rest = bytes;
    for part in parts {
        match rest.strip_prefix(*part) {
            Some(more) => rest = more,
            None => return false,
        }
    }
    rest.is_empty()
}

/// Serves the link over a plant, which has logged nothing.
fn serve_over<R: Wait>(
    rt: &R,
    alloc: Global,
    limits: &Limits,
    plant: Plant<MemDisk>,
    clock: &mut MemClock,
    link: &mut MemLink,
    recorder: &mut MemRecorder,
) -> Option<End>
    requires limits { AreLimits limits.now }
    requires same { plant.memory.frame.limits ≡ limits.now }
{
    if plant.next_by() != 1 {
        return None;
    }
    let mut solo = Solo::new(plant);
    let mut gate = NoGate;
    let report = serve_session(
        rt, alloc, &mut solo, link, clock, &mut gate, recorder, limits,
    );
    Some(report.end)
}

/// Serves the link over a plant with the built-in schema, which is open today.
fn serve<R: Wait>(
    rt: &R,
    alloc: Global,
    limits: &Limits,
    clock: &mut MemClock,
    link: &mut MemLink,
    recorder: &mut MemRecorder,
) -> Result<Option<End>, NoMemory>
    requires { AreLimits limits.now }
{
    match read_schema(alloc, BUILT_IN) {
        Ok(schema) => {
            let plant = new_plant(alloc, schema, TODAY, limits)?;
            Ok(serve_over(rt, alloc, limits, plant, clock, link, recorder))
        }
        Err(_) => Ok(None),
    }
}

/// A clock that gives these readings, if there are any.
pub fn clock_of(alloc: Global, readings: &[i64]) -> Result<Option<MemClock>, NoMemory> {
    let moments = Sequence::from_vec(alloc, Vec::from_slice(alloc, readings)?)?;
    if moments.len() == 0 {
        return Ok(None);
    }
    Ok(Some(MemClock::new(moments)))
}

/// What came of a session: its end, the link, and what was noted.
#[derive(Drop)]
pub struct Outcome {
    /// How it ended.
    pub end: End,
    /// The link, with what was sent.
    pub link: MemLink,
    /// The recorder, with the turns.
    pub recorder: MemRecorder,
}

/// A session whose input is these bytes, with these limits, these readings of the clock, and room for many turns.
pub fn sat<R: Wait>(
    rt: &R,
    alloc: Global,
    limits: &Limits,
    readings: &[i64],
    bytes: &[u8],
) -> Result<Option<Outcome>, NoMemory>
    requires { AreLimits limits.now }
{
    let Some(mut clock) = clock_of(alloc, readings)? else {
        return Ok(None);
    };
    let mut link = MemLink::from_bytes(alloc, bytes)?;
    let mut recorder = MemRecorder::with_room(alloc, 20_000)?;
    match serve(rt, alloc, limits, &mut clock, &mut link, &mut recorder)? {
        Some(end) => Ok(Some(Outcome {
            end,
            link,
            recorder,
        })),
        None => Ok(None),
    }
}

/// Whether the session over this link and clock goes as expected.
fn goes_by<R: Wait>(
    rt: &R,
    alloc: Global,
    limits: &Limits,
    clock: &mut MemClock,
    link: &mut MemLink,
    wanted: Wanted,
) -> Result<bool, NoMemory>
    requires { AreLimits limits.now }
{
    let mut recorder = MemRecorder::with_room(alloc, 16)?;
    let end = serve(rt, alloc, limits, clock, link, &mut recorder)?;
    Ok(
        end == Some(wanted.end)
            && are_joined(link.taken(), wanted.sent)
            && recorder.turns() == wanted.turns,
    )
}

/// Whether the session over this link, with these readings of the clock, goes as expected.
pub fn goes<R: Wait>(
    rt: &R,
    alloc: Global,
    limits: &Limits,
    readings: &[i64],
    link: MemLink,
    wanted: Wanted,
) -> Result<bool, NoMemory>
    requires { AreLimits limits.now }
{
    let mut link = link;
    match clock_of(alloc, readings)? {
        Some(mut clock) => goes_by(rt, alloc, limits, &mut clock, &mut link, wanted),
        None => Ok(false),
    }
}

/// The concatenation of these parts.
pub fn joined(alloc: Global, parts: &[&[u8]]) -> Result<Vec<u8>, NoMemory> {
    let mut bytes = Vec::new(alloc);
    for part in parts {
        bytes.extend_from_slice(part)?;
    }
    Ok(bytes)
}

/// Whether a session whose input is these bytes goes as expected.
pub fn bytes_go<R: Wait>(
    rt: &R,
    alloc: Global,
    limits: &Limits,
    bytes: &[u8],
    wanted: Wanted,
) -> Result<bool, NoMemory>
    requires { AreLimits limits.now }
{
    let link = MemLink::from_bytes(alloc, bytes)?;
    goes(rt, alloc, limits, &[NOW], link, wanted)
}

/// The bytes of the handshake and of these messages.
pub fn greeted(alloc: Global, messages: &[&[u8]]) -> Result<Vec<u8>, NoMemory> {
    let mut bytes = joined(alloc, &[GREETING])?;
    for message in messages {
        bytes.extend_from_slice(message)?;
    }
    Ok(bytes)
}

/// Whether a session whose input is the handshake and these messages goes as expected, with these readings of the clock.
pub fn messages_go_at<R: Wait>(
    rt: &R,
    alloc: Global,
    readings: &[i64],
    messages: &[&[u8]],
    wanted: Wanted,
) -> Result<bool, NoMemory> {
    let bytes = greeted(alloc, messages)?;
    let link = MemLink::from_bytes(alloc, bytes.as_slice())?;
    goes(rt, alloc, &Limits::standard(), readings, link, wanted)
}

/// Whether a session whose input is the handshake and these messages goes as expected.
pub fn messages_go<R: Wait>(
    rt: &R,
    alloc: Global,
    messages: &[&[u8]],
    wanted: Wanted,
) -> Result<bool, NoMemory> {
    messages_go_at(rt, alloc, &[NOW], messages, wanted)
}

/// One read of a scripted link.
#[derive(Clone, Copy)]
pub enum Read<'a> {
    /// The read gives these bytes.
    Bytes(&'a [u8]),
    /// The read times out.
    Idle,
    /// The read fails.
    Fault,
}

fn piece_of(alloc: Global, read: Read) -> Result<Piece, NoMemory> {
    match read {
        Read::Bytes(bytes) => {
            let text = Text::from_vec(alloc, Vec::from_slice(alloc, bytes)?)?;
            Ok(Piece::Bytes(text))
        }
        Read::Idle => Ok(Piece::Idle),
        Read::Fault => Ok(Piece::Fault),
    }
}

fn input_of(alloc: Global, reads: &[Read]) -> Result<Pieces, NoMemory> {
    let mut pieces = Pieces::new(alloc);
    for read in reads {
        pieces.push(piece_of(alloc, *read)?)?;
    }
    Ok(pieces)
}

/// Each byte as a piece of its own.
pub fn single_bytes(alloc: Global, bytes: &[u8]) -> Result<Pieces, NoMemory> {
    let mut pieces = Pieces::new(alloc);
    for byte in bytes {
        pieces.push(piece_of(alloc, Read::Bytes(&[*byte]))?)?;
    }
    Ok(pieces)
}

fn takings_of(alloc: Global, writes: &[Taking]) -> Result<Takings, NoMemory> {
    let mut takings = Takings::new(alloc);
    for taking in writes {
        takings.push(*taking)?;
    }
    Ok(takings)
}

/// A scripted link with these reads and writes.
pub fn link_of(alloc: Global, reads: &[Read], writes: &[Taking]) -> Result<MemLink, NoMemory> {
    let input = input_of(alloc, reads)?;
    let takings = takings_of(alloc, writes)?;
    Ok(MemLink::script(alloc, input, takings))
}

/// Whether a session whose input comes in these pieces goes as expected.
pub fn pieces_go<R: Wait>(
    rt: &R,
    alloc: Global,
    pieces: Pieces,
    wanted: Wanted,
) -> Result<bool, NoMemory> {
    let link = MemLink::script(alloc, pieces, Takings::new(alloc));
    goes(rt, alloc, &Limits::standard(), &[NOW], link, wanted)
}

/// Whether a session over a link with these reads and writes, which three read timeouts end, goes as expected with these
/// readings of the clock.
pub fn script_goes_at<R: Wait>(
    rt: &R,
    alloc: Global,
    readings: &[i64],
    reads: &[Read],
    writes: &[Taking],
    wanted: Wanted,
) -> Result<bool, NoMemory> {
    let mut limits = Limits::standard();
    limits.idle = 3;
    let link = link_of(alloc, reads, writes)?;
    goes(rt, alloc, &limits, readings, link, wanted)
}

/// Whether a session over a link with these reads and writes, which three read timeouts end, goes as expected.
pub fn script_goes<R: Wait>(
    rt: &R,
    alloc: Global,
    reads: &[Read],
    writes: &[Taking],
    wanted: Wanted,
) -> Result<bool, NoMemory> {
    script_goes_at(rt, alloc, &[NOW], reads, writes, wanted)
}
