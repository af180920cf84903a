//! Serving what a session hears, one event after the other.
ghost use Rattle.std.specs.Prelude.{◌≡◌, ◌<◌, ◌+◌, ◌∷◌, [], if◌then◌else◌, length, ℕ};
ghost use Rattle.ipc_frame.specs.Stream.{built, unbuilt};
ghost use Rattle.ipc_frame.specs.View.{told_place};
ghost use Rattle.q_values.specs.Limits.{AreLimits};
ghost use Rattle.q_values.specs.Tree.{Tree, tree};
ghost use Rattle.session.specs.Acting.{ServesHeard, TimesOut};
ghost use Rattle.session.specs.Ended.{Converses, Goes};
ghost use Rattle.session.specs.Owing.{FitsPlant};
ghost use Rattle.session.specs.Served.{asked};

use crate::act::greet;
use crate::answer::{short, unserved};
use crate::end::End;
use crate::session::Session;
use link_reader::Arrival;
use outside_api::{Clock, Gate, Link, Recorder};
use plant_core::Access;
use q_values::Value;
use std::alloc::Global;
use std::sync::Wait;

/// Why a session ends whose input ended between messages, or within one.
fn end_of_input(between: bool) -> End
    ensures { result ≡ (if between then End.Closed else End.Truncated) }
{
    if between { End::Closed } else { End::Truncated }
}

impl<A: Access, L: Link, C: Clock, G: Gate, N: Recorder> Session<'_, A, L, C, G, N> {
    ghost use Rattle.session.specs.Devices.{world_of, state_of, HasSameDevices, HearsNothing};

    /// Serves a message that has a value, and then publishes.
    fn serve_message<R: Wait>(
        &mut self,
        rt: &R,
        alloc: Global,
        sync: bool,
        value: Value,
    ) -> Option<End>
        requires limits { AreLimits self.old.limits.now }
        requires same { (A.shown self.old.access.now).frame.limits ≡ self.old.limits.now }
        requires fits { FitsPlant (A.shown self.old.access.now).frame (length (A.shown self.old.access.now).seen) self.old.client.now.subscriber }
        ensures same { HearsNothing self.old self.new }
        ensures performs { ServesHeard (asked (record { sync = sync; content = built (tree value) }))
            (world_of A.shown L.shown C.readings N.noted self.old)
            (world_of A.shown L.shown C.readings N.noted self.new)
            (state_of A.shown self.old) (state_of A.shown self.new) result }
    {
        match self.serve_value(rt, alloc, sync, value) {
            Some(end) => Some(end),
            None => self.publish(rt, alloc),
        }
    }

    /// Serves a message whose object is outside the profile, and then publishes.
    fn serve_unbuilt<R: Wait>(&mut self, rt: &R, alloc: Global, sync: bool) -> Option<End>
        requires same { (A.shown self.old.access.now).frame.limits ≡ self.old.limits.now }
        requires fits { FitsPlant (A.shown self.old.access.now).frame (length (A.shown self.old.access.now).seen) self.old.client.now.subscriber }
        ensures same { HearsNothing self.old self.new }
        ensures performs { (at : ℕ) → ServesHeard (asked (record { sync = sync; content = unbuilt at }))
            (world_of A.shown L.shown C.readings N.noted self.old)
            (world_of A.shown L.shown C.readings N.noted self.new)
            (state_of A.shown self.old) (state_of A.shown self.new) result }
    {
        match self.finish(&unserved(sync, self.limits)) {
            Some(end) => Some(end),
            None => self.publish(rt, alloc),
        }
    }

    /// Serves a message whose value could not be built, out of memory, and then publishes.
    fn serve_skipped<R: Wait>(&mut self, rt: &R, alloc: Global, sync: bool) -> Option<End>
        requires same { (A.shown self.old.access.now).frame.limits ≡ self.old.limits.now }
        requires fits { FitsPlant (A.shown self.old.access.now).frame (length (A.shown self.old.access.now).seen) self.old.client.now.subscriber }
        ensures same { HearsNothing self.old self.new }
        ensures performs { (value : Tree) → ServesHeard (asked (record { sync = sync; content = built value }))
            (world_of A.shown L.shown C.readings N.noted self.old)
            (world_of A.shown L.shown C.readings N.noted self.new)
            (state_of A.shown self.old) (state_of A.shown self.new) result }
    {
        match self.finish(&short(sync)) {
            Some(end) => Some(end),
            None => self.publish(rt, alloc),
        }
    }

    /// Serves a read timeout of the link, publishes, and ends the session where it was the last one that the limits allow.
    fn time_out<R: Wait>(&mut self, rt: &R, alloc: Global) -> Option<End>
        requires same { (A.shown self.old.access.now).frame.limits ≡ self.old.limits.now }
        requires fits { FitsPlant (A.shown self.old.access.now).frame (length (A.shown self.old.access.now).seen) self.old.client.now.subscriber }
        requires some { 0 < self.old.idles_left }
        ensures same { HasSameDevices self.old self.new }
        ensures reader { self.new.client.now.reader ≡ self.old.client.now.reader }
        ensures left { self.old.idles_left ≡ self.new.idles_left + 1 }
        ensures times_out { TimesOut
            (world_of A.shown L.shown C.readings N.noted self.old)
            (world_of A.shown L.shown C.readings N.noted self.new)
            (state_of A.shown self.old) (state_of A.shown self.new) self.new.idles_left result }
    {
        self.serve_timeout(rt, alloc);
        self.idles_left -= 1;
        match self.publish(rt, alloc) {
            Some(end) => Some(end),
            None if self.idles_left == 0 => Some(End::Idle),
            None => None,
        }
    }

    /// Reads the link and serves what it hears, if anything; the answer is why the session ends, where it does.
    fn serve_next<R: Wait>(&mut self, rt: &R, alloc: Global) -> Option<End>
        requires limits { AreLimits self.old.limits.now }
        requires same { (A.shown self.old.access.now).frame.limits ≡ self.old.limits.now }
        requires fits { FitsPlant (A.shown self.old.access.now).frame (length (A.shown self.old.access.now).seen) self.old.client.now.subscriber }
        requires known { self.old.client.now.reader.framer.limits ≡ self.old.limits.now }
        requires some { 0 < self.old.idles_left }
        ensures same { HasSameDevices self.old self.new }
        ensures goes { (place : ℕ) → self.old.client.now.reader.framer.place ≡ told_place place → Goes self.old.limits.now place
            (world_of A.shown L.shown C.readings N.noted self.old)
            (world_of A.shown L.shown C.readings N.noted self.new)
            (state_of A.shown self.old) (state_of A.shown self.new)
            self.old.client.now.reader self.new.client.now.reader self.old.idles_left self.new.idles_left result }
    {
        match self.client.reader.arrive(self.link) {
            Arrival::More => None,
            Arrival::Greeting { capability } => greet(self.link, self.recorder, capability),
            Arrival::Message(message) => self.serve_message(rt, alloc, message.sync, message.value),
            Arrival::Outside { sync } => self.serve_unbuilt(rt, alloc, sync),
            Arrival::Skipped { sync } => self.serve_skipped(rt, alloc, sync),
            Arrival::Bad { code, at } => Some(End::BadMessage { code, at }),
            Arrival::Idle => self.time_out(rt, alloc),
            Arrival::Ended { between } => Some(end_of_input(between)),
            Arrival::Failed => Some(End::ReadFault),
        }
    }

    /// Reads and serves until the session ends.
    pub fn serve_all<R: Wait>(&mut self, rt: &R, alloc: Global) -> End
        requires limits { AreLimits self.old.limits.now }
        requires same { (A.shown self.old.access.now).frame.limits ≡ self.old.limits.now }
        requires fits { FitsPlant (A.shown self.old.access.now).frame (length (A.shown self.old.access.now).seen) self.old.client.now.subscriber }
        requires known { self.old.client.now.reader.framer.limits ≡ self.old.limits.now }
        requires first { self.old.client.now.reader.framer.place ≡ 0 }
        requires some { 0 < self.old.idles_left }
        ensures same { HasSameDevices self.old self.new }
        ensures converses { Converses self.old.limits.now 0
            (world_of A.shown L.shown C.readings N.noted self.old)
            (world_of A.shown L.shown C.readings N.noted self.new)
            (state_of A.shown self.old) self.old.client.now.reader self.old.idles_left result }
    {
        for _ in rt.forever() {
            match self.serve_next(rt, alloc) {
                Some(end) => return end,
                None => {}
            }
        }
        unreachable!()
    }
}
