//! The state of a session, and serving one from its handshake to its end.
ghost use Rattle.std.specs.Prelude.{◌≡◌};
ghost use Rattle.q_values.specs.Limits.{AreLimits};
ghost use Rattle.session.specs.Devices.{IsLent};
ghost use Rattle.session.specs.Run.{world};
ghost use Rattle.session.specs.Session.{IsSession};

use crate::end::{End, Report};
use crate::subscriber::Subscriber;
use link_reader::Reader;
use outside_api::{Clock, Gate, Link, Recorder};
use plant_core::Access;
use q_values::Limits;
use std::alloc::Global;
use std::sync::Wait;

/// What a session keeps of its client from one event to the next.
#[derive(Drop)]
pub struct Client {
    /// Reads the link and finds the messages in its bytes.
    pub reader: Reader,
    /// What the client is subscribed to; none before its first subscription.
    pub subscriber: Option<Subscriber>,
}

/// The state of one session: the devices that it uses, its limits, what it keeps of its client, and how long it still waits.
#[derive(Drop)]
pub struct Session<'a, A, L, C, G, N> {
    /// The session's access to the plant.
    pub access: &'a mut A,
    /// Where requests come from and responses go.
    pub link: &'a mut L,
    /// Gives the moment of an update or of a read timeout.
    pub clock: &'a mut C,
    /// Where a test may hold the session.
    pub gate: &'a mut G,
    /// Notes each turn before its response is sent.
    pub recorder: &'a mut N,
    /// The limits of the session, which are those of the plant.
    pub limits: &'a Limits,
    /// What was read of the client, and what it is subscribed to.
    pub client: &'a mut Client,
    /// How many more reads may time out. The session ends where it gets to 0.
    pub idles_left: u64,
}

impl<'a, A: Access, L: Link, C: Clock, G: Gate, N: Recorder> Session<'a, A, L, C, G, N> {
    /// A session that has served nothing yet.
    pub fn new(
        access: &'a mut A,
        link: &'a mut L,
        clock: &'a mut C,
        gate: &'a mut G,
        recorder: &'a mut N,
        limits: &'a Limits,
        client: &'a mut Client,
    ) -> Session<'a, A, L, C, G, N>
        ensures access { IsLent access.entry result.access }
        ensures link { IsLent link.entry result.link }
        ensures clock { IsLent clock.entry result.clock }
        ensures recorder { IsLent recorder.entry result.recorder }
        ensures limits { result.limits.now ≡ limits.now }
        ensures client { result.client.now ≡ client.old }
        ensures idles_left { result.idles_left ≡ limits.now.idle }
    {
        Session {
            access,
            link,
            clock,
            gate,
            recorder,
            limits,
            client,
            idles_left: limits.idle,
        }
    }
}

/// Serves one link from its handshake to its end (KX, IPC reference).
///
/// The stream is read in large pieces, wherever these divide it. The handshake is answered with one byte, each sync
/// message with one response, an async message with none. An update is logged, after a roll where it is of the next date.
/// A text is answered over a snapshot. At a read timeout the open date is ended where the next one has come. After each
/// message and each read timeout a subscribed client is sent what it chose of the entries that are new. Each turn is noted
/// before its bytes are written.
///
/// The report says why the session ended; no failure is returned in another way.
pub fn serve_session<A: Access, L: Link, C: Clock, G: Gate, N: Recorder, R: Wait>(
    rt: &R,
    alloc: Global,
    access: &mut A,
    link: &mut L,
    clock: &mut C,
    gate: &mut G,
    turns: &mut N,
    limits: &Limits,
) -> Report
    requires limits { AreLimits limits.now }
    requires same { (A.shown access.old).frame.limits ≡ limits.now }
    ensures { IsSession limits.now
        (world (L.shown link.old) (C.readings clock.old) (N.noted turns.old) (A.shown access.old))
        (world (L.shown link.new) (C.readings clock.new) (N.noted turns.new) (A.shown access.new))
        result.end }
{
    let end = match Reader::new(alloc, limits) {
        Ok(reader) => {
            let mut client = Client {
                reader,
                subscriber: None,
            };
            let mut session = Session::new(access, link, clock, gate, turns, limits, &mut client);
            session.serve_all(rt, alloc)
        }
        Err(_) => End::NoMemory,
    };
    Report { end }
}
