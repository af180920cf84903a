//! Publications: what a subscriber is told after each message and each read timeout (KX, u.q).
ghost use Rattle.std.specs.Prelude.{◌≡◌, [], ◌∷◌, Some, length, IfNone};
ghost use Rattle.outside_api.specs.Told.{Tells};
ghost use Rattle.session.specs.Acting.{Performs, Finishes};
ghost use Rattle.session.specs.Owing.{FitsPlant, sent_up_to};
ghost use Rattle.session.specs.Subscribing.{IsPaid};
ghost use Rattle.session.specs.declared.subscriber.Subscriber.{Subscriber};

use crate::act::send;
use crate::end::End;
use crate::session::Session;
use crate::subscriber::Owed;
use outside_api::{Clock, Gate, Link, Recorder};
use plant_core::Access;
use q_values::Turn;
use std::alloc::Global;
use std::sync::Wait;

impl<A: Access, L: Link, C: Clock, G: Gate, N: Recorder> Session<'_, A, L, C, G, N> {
    ghost use Rattle.session.specs.Devices.{world_of, state_of, served_of, HearsNothing};

    /// Notes that the subscriber is told of the entries up to the length `to`, and sends it the messages. A write that fails
    /// ends the session and moves no cursor: what wasn't sent whole is owed still.
    pub fn tell(&mut self, from: u64, to: u64, messages: &[u8]) -> Option<End>
        ensures same { HearsNothing self.old self.new }
        ensures access { self.new.access.now ≡ self.old.access.now }
        ensures clock { self.new.clock.now ≡ self.old.clock.now }
        ensures subscriber { self.new.client.now.subscriber ≡ sent_up_to to result self.old.client.now.subscriber }
        ensures paid { IfNone result (IsPaid self.new.client.now.subscriber to) }
        ensures noted { Tells (N.noted self.old.recorder.now) (N.noted self.new.recorder.now) (Turn.Told from to ∷ []) }
        ensures sent { Finishes (L.shown self.old.link.now) (L.shown self.new.link.now) messages.now result }
    {
        self.recorder.note(Turn::Told { from, to });
        if let Some(end) = send(self.link, messages) {
            return Some(end);
        }
        if let Some(subscriber) = &mut self.client.subscriber {
            subscriber.cursor = to;
        }
        None
    }

    /// Publishes what the subscriber is owed, if there is a subscriber. What can't be sent it is owed still.
    pub fn publish<R: Wait>(&mut self, rt: &R, alloc: Global) -> Option<End>
        requires same { (A.shown self.old.access.now).frame.limits ≡ self.old.limits.now }
        requires fits { FitsPlant (A.shown self.old.access.now).frame (length (A.shown self.old.access.now).seen) self.old.client.now.subscriber }
        ensures same { HearsNothing self.old self.new }
        ensures performs { Performs []
            (world_of A.shown L.shown C.readings N.noted self.old)
            (world_of A.shown L.shown C.readings N.noted self.new)
            (served_of A.shown self.old) (state_of A.shown self.new) result }
    {
        match &self.client.subscriber {
            Some(_) => self.publish_owed(rt, alloc),
            None => None,
        }
    }

    /// Publishes what the subscriber is owed. There is one.
    fn publish_owed<R: Wait>(&mut self, rt: &R, alloc: Global) -> Option<End>
        requires same { (A.shown self.old.access.now).frame.limits ≡ self.old.limits.now }
        requires some { (of : Subscriber) × (self.old.client.now.subscriber ≡ Some of) }
        requires fits { FitsPlant (A.shown self.old.access.now).frame (length (A.shown self.old.access.now).seen) self.old.client.now.subscriber }
        ensures same { HearsNothing self.old self.new }
        ensures performs { Performs []
            (world_of A.shown L.shown C.readings N.noted self.old)
            (world_of A.shown L.shown C.readings N.noted self.new)
            (served_of A.shown self.old) (state_of A.shown self.new) result }
    {
        match self.owed(rt, alloc) {
            Ok(Owed::Nothing { .. }) => None,
            Ok(Owed::Messages { from, to, bytes }) => self.tell(from, to, &bytes),
            Ok(Owed::TooLong { from, to }) => {
                self.note(Turn::TooLong { from, to });
                None
            }
            Err(_) => {
                self.note(Turn::Short);
                None
            }
        }
    }
}
