//! Serving a connection through a lock.
ghost use Rattle.shared_sessions.specs.Sessions.{MayServe, IsServed, IsUnused, IsFinishedAs, home_of, line};

use day_rows::{Entry, Schema};
use outside_api::{Clock, Disk, Gate, Link, Recorder};
use plant_lock::Pass;
use plant_shared::{Lock, PlantPass, Shared};
use q_values::Limits;
use session::{End, serve_session};
use std::alloc::Global;
use std::sync::{Arc, Wait};

/// The devices of one connection.
#[derive(Drop)]
pub struct Connection<L, C, G, N> {
    /// Where requests come from and responses go.
    pub link: L,
    /// Gives the moment of an update or of a read timeout.
    pub clock: C,
    /// Where a test may hold the session.
    pub gate: G,
    /// Notes each turn before its response is sent.
    pub recorder: N,
}

/// A session that has ended.
#[derive(Drop)]
pub struct Finished<L, C, N> {
    /// Why it ended.
    pub end: End,
    /// The link of its connection.
    pub link: L,
    /// The clock of its connection.
    pub clock: C,
    /// The recorder of its connection.
    pub recorder: N,
    /// Its pass, which has seen all that the session was told.
    pub pass: Pass<Entry>,
}

/// Serves a connection from its handshake to its end through a lock, as a pass that has made nothing yet.
///
/// `schema` has the tables of the lock's plant, and `limits` are those of the plant. The lock is taken once for each update,
/// text and read timeout, and is free while the session reads, answers and writes.
pub fn serve_shared<D: Disk, L: Link, C: Clock, G: Gate + Drop, N: Recorder, R: Wait>(
    rt: &R,
    alloc: Global,
    lock: &Lock<D>,
    pass: PlantPass<D>,
    schema: Arc<Schema>,
    connection: Connection<L, C, G, N>,
    limits: &Limits,
) -> Finished<L, C, N>
    requires { MayServe lock.now pass schema.value limits.now }
    ensures served { let a = line (L.shown connection.link) (C.readings connection.clock) (N.noted connection.recorder) in
        let b = line (L.shown result.link) (C.readings result.clock) (N.noted result.recorder) in
        IsServed limits.now lock.now.made.memory.frame (home_of D.shown lock.now) pass result.pass a b result.end }
    ensures finished { let a = line (L.shown connection.link) (C.readings connection.clock) (N.noted connection.recorder) in
        let b = line (L.shown result.link) (C.readings result.clock) (N.noted result.recorder) in
        IsUnused a → IsFinishedAs D.shown lock.now limits.now pass.number result.pass b result.end }
{
    let mut connection = connection;
    let mut access = Shared::new(lock, pass, schema);
    let report = serve_session(
        rt,
        alloc,
        &mut access,
        &mut connection.link,
        &mut connection.clock,
        &mut connection.gate,
        &mut connection.recorder,
        limits,
    );
    Finished {
        end: report.end,
        link: connection.link,
        clock: connection.clock,
        recorder: connection.recorder,
        pass: access.into_parts(),
    }
}
