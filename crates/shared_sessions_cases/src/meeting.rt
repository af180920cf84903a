//! Clients that wait for one another between their messages, each on a thread of its own.
ghost use Rattle.std.specs.Prelude.{◌≡◌};
ghost use Rattle.shared_sessions.specs.Sessions.{MayServe};

use crate::checks::Heard;
use crate::plants::{NOW, branch};
use crate::trades::{Feed, update_of};
use day_rows::Schema;
use outside_api::{Disk, Got, Link, LinkFault};
use outside_mem::{MemClock, MemLink, MemRecorder, NoGate, Piece, Pieces, Takings};
use plant_shared::{Lock, PlantGuard, PlantPass};
use q_values::{Limits, NANOSECONDS_PER_DAY, Sequence, Text, Turn};
use session::End;
use shared_sessions::{Connection, Finished, serve_shared};
use std::alloc::Global;
use std::process::Abort;
use std::sync::{Arc, Barrier, Wait};
use std::thread::{Threads, join};

/// A part of what a client does.
#[derive(Clone, Copy)]
pub(crate) enum Part {
    /// It sends these bytes.
    Sends(&'static [u8]),
    /// It sends the updates of a feed from one number to before another, each by itself.
    Feeds { feed: Feed, from: u32, to: u32 },
    /// It sends nothing until this many reads have timed out.
    Idles(u32),
    /// It waits until each of the others has come to a meeting too.
    Meets,
}

/// What a client does, part by part, how its clock goes, and where it meets the others.
#[derive(Clone, Copy)]
pub(crate) struct Client<'a> {
    // what it does; then its input ends
    parts: &'a [Part],
    // how often its clock first reads the moment at which the tests begin
    early: u32,
    // what its clock reads from then on
    late: i64,
    // where it meets the others
    barrier: &'a Barrier,
}

impl<'a> Client<'a> {
    /// A client whose clock always gives the same moment.
    pub(crate) fn new(parts: &'a [Part], barrier: &'a Barrier) -> Client<'a> {
        Client {
            parts,
            early: 0,
            late: NOW,
            barrier,
        }
    }

    /// A client whose clock passes midnight after this many readings.
    pub(crate) fn past_midnight(parts: &'a [Part], barrier: &'a Barrier, early: u32) -> Client<'a> {
        Client {
            parts,
            early,
            late: NOW + NANOSECONDS_PER_DAY,
            barrier,
        }
    }
}

// What each read of a client gives, and before which of them it waits, each time that its index is there.
#[derive(Drop)]
struct Script {
    pieces: Pieces,
    meets: Vec<usize>,
}

impl Script {
    fn push(&mut self, rt: &impl Abort, piece: Piece) {
        self.pieces.push(piece).expect(rt, "memory");
    }

    fn push_updates(&mut self, rt: &impl Abort, alloc: Global, feed: Feed, from: u32, to: u32) {
        for number in from..to {
            let update = update_of(rt, alloc, feed, number);
            let text = Text::from_vec(alloc, update).expect(rt, "memory");
            self.push(rt, Piece::Bytes(text));
        }
    }

    fn push_idles(&mut self, rt: &impl Abort, count: u32) {
        for _ in 0..count {
            self.push(rt, Piece::Idle);
        }
    }

    fn push_part(&mut self, rt: &impl Abort, alloc: Global, part: Part) {
        match part {
            Part::Sends(bytes) => {
                let bytes = Vec::from_slice(alloc, bytes).expect(rt, "memory");
                let text = Text::from_vec(alloc, bytes).expect(rt, "memory");
                self.push(rt, Piece::Bytes(text));
            }
            Part::Feeds { feed, from, to } => self.push_updates(rt, alloc, feed, from, to),
            Part::Idles(count) => self.push_idles(rt, count),
            Part::Meets => self.meets.push(self.pieces.len()).expect(rt, "memory"),
        }
    }
}

fn script_of(rt: &impl Abort, alloc: Global, parts: &[Part]) -> Script {
    let mut script = Script {
        pieces: Pieces::new(alloc),
        meets: Vec::new(alloc),
    };
    for part in parts {
        script.push_part(rt, alloc, *part);
    }
    script
}

fn clock_of(rt: &impl Abort, alloc: Global, client: &Client<'_>) -> MemClock {
    let mut moments = vec![in alloc; NOW; client.early as usize].expect(rt, "memory");
    moments.push(client.late).expect(rt, "memory");
    let moments = Sequence::from_vec(alloc, moments).expect(rt, "memory");
    assert!(rt; moments.len() > 0);
    MemClock::new(moments)
}

// A link in memory which waits for the other threads before some of its reads.
#[derive(Drop)]
struct Meeting<'a, R: Wait> {
    link: MemLink,
    meets: Vec<usize>,
    // how many reads it has done
    reads: usize,
    rt: &'a R,
    barrier: &'a Barrier,
}

// Waits each time that the index of this read is there.
fn meet<R: Wait>(rt: &R, barrier: &Barrier, meets: &[usize], read: usize) {
    for at in meets {
        if *at == read {
            barrier.wait(rt);
        }
    }
}

impl<'a, R: Wait> Link for Meeting<'a, R> {
    ghost shown = { λ m. m.link.shown };

    fn read(&mut self, buf: &mut [u8]) -> Got {
        meet(self.rt, self.barrier, self.meets.as_slice(), self.reads);
        self.reads = self.reads.wrapping_add(1);
        self.link.read(buf)
    }

    fn write(&mut self, bytes: &[u8]) -> Result<(), LinkFault> {
        self.link.write(bytes)
    }
}

// The devices of a client, with room for two turns of each read.
fn connection_of<'a, R: Abort + Wait>(
    rt: &'a R,
    alloc: Global,
    client: Client<'a>,
) -> Connection<Meeting<'a, R>, MemClock, NoGate, MemRecorder> {
    let Script { pieces, meets } = script_of(rt, alloc, client.parts);
    let room = pieces.len().saturating_mul(2);
    Connection {
        link: Meeting {
            link: MemLink::script(alloc, pieces, Takings::new(alloc)),
            meets,
            reads: 0,
            rt,
            barrier: client.barrier,
        },
        clock: clock_of(rt, alloc, &client),
        gate: NoGate,
        recorder: MemRecorder::with_room(alloc, room).expect(rt, "memory"),
    }
}

// Serves a client through a pass, until its input has ended.
fn attend<D: Disk, R: Abort + Wait>(
    rt: &R,
    alloc: Global,
    lock: &Lock<D>,
    pass: PlantPass<D>,
    schema: &Arc<Schema>,
    limits: &Limits,
    client: Client<'_>,
) -> Heard
    requires { MayServe lock.now pass schema.now.value limits.now }
{
    let connection = connection_of(rt, alloc, client);
    let schema = schema.clone().expect(rt, "memory");
    let finished = serve_shared(rt, alloc, lock, pass, schema, connection, limits);
    heard_by(rt, alloc, &finished)
}

fn heard_by<R: Abort + Wait>(
    rt: &R,
    alloc: Global,
    finished: &Finished<Meeting<'_, R>, MemClock, MemRecorder>,
) -> Heard {
    assert!(rt; finished.end == End::Closed);
    let turns = finished.recorder.turns();
    let sent = finished.link.link.taken();
    Heard {
        turns: Vec::from_slice(alloc, turns).expect(rt, "memory"),
        sent: Vec::from_slice(alloc, sent).expect(rt, "memory"),
    }
}

/// Serves two clients, each on a thread of its own.
pub(crate) fn serve_two<K: PlantGuard + Sync, R: Threads + Abort + Wait + Sync>(
    rt: &R,
    alloc: Global,
    lock: &K,
    pass: PlantPass<K::Disk>,
    schema: &Arc<Schema>,
    limits: &Limits,
    clients: [Client<'_>; 2],
) -> (Heard, Heard)
    requires { MayServe (K.lock_of lock.now) pass schema.now.value limits.now }
{
    let (one, other) = branch(rt, lock.plant_lock(), pass, schema, limits);
    let [first, second] = clients;
    join(
        rt,
        move || -> Heard
            requires { MayServe (K.lock_of lock.now) one schema.now.value limits.now }
        { attend(rt, alloc, lock.plant_lock(), one, schema, limits, first) },
        move || -> Heard
            requires { MayServe (K.lock_of lock.now) other schema.now.value limits.now }
        { attend(rt, alloc, lock.plant_lock(), other, schema, limits, second) },
    )
}

/// The same of three.
pub(crate) fn serve_three<K: PlantGuard + Sync, R: Threads + Abort + Wait + Sync>(
    rt: &R,
    alloc: Global,
    lock: &K,
    pass: PlantPass<K::Disk>,
    schema: &Arc<Schema>,
    limits: &Limits,
    clients: [Client<'_>; 3],
) -> (Heard, (Heard, Heard))
    requires { MayServe (K.lock_of lock.now) pass schema.now.value limits.now }
{
    let (one, others) = branch(rt, lock.plant_lock(), pass, schema, limits);
    let [first, second, third] = clients;
    join(
        rt,
        move || -> Heard
            requires { MayServe (K.lock_of lock.now) one schema.now.value limits.now }
        { attend(rt, alloc, lock.plant_lock(), one, schema, limits, first) },
        move || -> (Heard, Heard)
            requires { MayServe (K.lock_of lock.now) others schema.now.value limits.now }
        { serve_two(rt, alloc, lock, others, schema, limits, [second, third]) },
    )
}

/// What came of five clients.
pub(crate) type Five = ((Heard, Heard), (Heard, (Heard, Heard)));

/// The same of five.
pub(crate) fn serve_five<K: PlantGuard + Sync, R: Threads + Abort + Wait + Sync>(
    rt: &R,
    alloc: Global,
    lock: &K,
    pass: PlantPass<K::Disk>,
    schema: &Arc<Schema>,
    limits: &Limits,
    clients: [Client<'_>; 5],
) -> Five
    requires { MayServe (K.lock_of lock.now) pass schema.now.value limits.now }
{
    let (two, three) = branch(rt, lock.plant_lock(), pass, schema, limits);
    let [first, second, third, fourth, fifth] = clients;
    join(
        rt,
        move || -> (Heard, Heard)
            requires { MayServe (K.lock_of lock.now) two schema.now.value limits.now }
        { serve_two(rt, alloc, lock, two, schema, limits, [first, second]) },
        move || -> (Heard, (Heard, Heard))
            requires { MayServe (K.lock_of lock.now) three schema.now.value limits.now }
        {
            serve_three(
                rt,
                alloc,
                lock,
                three,
                schema,
                limits,
                [third, fourth, fifth],
            )
        },
    )
}
