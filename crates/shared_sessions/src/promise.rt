//! What a thread that serves a session promises of it.

use crate::serve::Finished;
use outside_api::{Clock, Disk, Link, Recorder};
use plant_shared::Lock;
use q_values::Limits;
use std::snapshot::Snapshot;
use std::thread::Promise;

/// A session of the pass of this number, through this lock and within these limits, over devices through which nothing had
/// passed.
#[derive(Drop)]
pub struct Serving<D: Disk> {
    /// The lock, as contracts see it.
    pub lock: Snapshot<Lock<D>>,
    /// The limits of the session, which are those of the plant.
    pub limits: Limits,
    /// The number of its pass.
    pub number: u64,
}

impl<D: Disk, L: Link, C: Clock, N: Recorder> Promise<Finished<L, C, N>> for Serving<D> {
    ghost use Rattle.shared_sessions.specs.Sessions.{IsFinishedAs, line};

    ghost kept_by = { λ p f. let after = line (L.shown f.link) (C.readings f.clock) (N.noted f.recorder) in
        IsFinishedAs D.shown p.lock.value p.limits p.number f.pass after f.end };
}
