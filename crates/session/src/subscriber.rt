//! What the client of a session is subscribed to, and what it is owed.
ghost use Rattle.std.specs.Prelude.{◌≡◌, ◌≤◌, IfOk, Some, length};
ghost use Rattle.plant_core.specs.Access.{Sees};
ghost use Rattle.session.specs.Owing.{Owes, FitsPlant, cursor_of};

use crate::session::Session;
use outside_api::{Clock, Gate, Link, Recorder};
use plant_core::Access;
use plant_memory::Tail;
use publications::{Publications, publications};
use pubsub::Subscription;
use q_values::NoMemory;
use std::alloc::Global;
use std::sync::Wait;

/// The subscription of a session's client.
#[derive(Drop)]
pub struct Subscriber {
    /// Which rows of each table it is told of.
    pub subscription: Subscription,
    /// Up to which length of the chronicle it was told.
    pub cursor: u64,
}

/// What a subscriber is owed at one moment, at which the chronicle has the length `to`.
#[derive(Drop)]
pub enum Owed {
    /// Nothing: it was told of all, or there is no subscriber.
    Nothing { to: u64 },
    /// These messages, of the entries from the index `from` on.
    Messages { from: u64, to: u64, bytes: Vec<u8> },
    /// Messages of which one would be longer than a message may be.
    TooLong { from: u64, to: u64 },
}

/// What a subscriber is owed of a tail that begins where it was last told.
fn owed_of(
    alloc: Global,
    tail: &Tail,
    subscription: &Subscription,
    batch: bool,
) -> Result<Owed, NoMemory>
    requires own { subscription.now.schema ≡ tail.now.frame.schema }
    requires batch { batch ≡ tail.now.frame.limits.batch }
    requires within { tail.now.from ≤ length tail.now.entries }
    ensures { IfOk result (Owes tail.now.frame (Some (record { subscription = subscription.now; cursor = tail.now.from })) tail.now.entries) }
{
    let (from, to) = tail.span();
    if from == to {
        return Ok(Owed::Nothing { to });
    }
    match publications(alloc, tail, subscription, batch)? {
        Publications::Messages(bytes) => Ok(Owed::Messages { from, to, bytes }),
        Publications::TooLong => Ok(Owed::TooLong { from, to }),
    }
}

/// Up to which length of the chronicle a subscriber was told: 0 where there is none.
fn cursor_of(subscriber: &Option<Subscriber>) -> u64
    ensures { result ≡ cursor_of subscriber.now }
{
    match subscriber {
        Some(subscriber) => subscriber.cursor,
        None => 0,
    }
}

impl<A: Access, L: Link, C: Clock, G: Gate, N: Recorder> Session<'_, A, L, C, G, N> {
    ghost use Rattle.session.specs.Devices.{OnlyAsks};

    /// What the subscriber is owed now. The access is asked for the chronicle from its cursor on.
    pub fn owed<R: Wait>(&mut self, rt: &R, alloc: Global) -> Result<Owed, NoMemory>
        requires same { (A.shown self.old.access.now).frame.limits ≡ self.old.limits.now }
        requires fits { FitsPlant (A.shown self.old.access.now).frame (length (A.shown self.old.access.now).seen) self.old.client.now.subscriber }
        ensures same { OnlyAsks self.old self.new }
        ensures clock { self.new.clock.now ≡ self.old.clock.now }
        ensures sees { Sees (A.shown self.old.access.now) (A.shown self.new.access.now) }
        ensures owes { IfOk result (Owes (A.shown self.old.access.now).frame self.old.client.now.subscriber (A.shown self.new.access.now).seen) }
    {
        let from = cursor_of(&self.client.subscriber);
        let tail = self.access.tail(rt, alloc, from)?;
        match &self.client.subscriber {
            Some(subscriber) => owed_of(alloc, &tail, &subscriber.subscription, self.limits.batch),
            None => {
                let (_, to) = tail.span();
                Ok(Owed::Nothing { to })
            }
        }
    }
}
