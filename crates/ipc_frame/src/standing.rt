//! What the bytes that are held amount to.
ghost use Rattle.std.specs.Prelude.{◌≡◌, ◌+◌, ℕ, Ok, length};
ghost use Rattle.ipc_codec.specs.Reading.{object_of};
ghost use Rattle.ipc_frame.specs.Stream.{built, whole, front_of, body_front, capability_of};
ghost use Rattle.q_values.specs.Tree.{Tree};
ghost use Rattle.ipc_frame.specs.Framing.{StandsFront, StandsGreeting, CanBeWritten};
ghost use Rattle.ipc_frame.specs.Holding.{IsOneGreeting, IsOneMessage};
ghost use Rattle.ipc_frame.specs.View.{told_place};

use crate::bad::Bad;
use crate::head::{HEADER, Head, head_of};
use crate::next::{Message, Next};
use crate::taking::ends_in_nul;
use ipc_codec::{DecodeRefusal, decode, measure};
use q_values::Limits;
use std::alloc::Global;

/// The greatest capability of the protocol.
const GREATEST_CAPABILITY: u8 = 6;

// The capability at the end of credentials.
fn capability(credentials: &[u8]) -> u8
    ensures { result ≡ capability_of credentials.now }
{
    match credentials {
        [] => 0,
        [.., last] if *last <= GREATEST_CAPABILITY => *last,
        [.., _] => 0,
    }
}

/// What the bytes at the start of a stream are: a handshake, less than one, or a fault.
pub fn greeting_in(held: &[u8], limits: &Limits, place: u64) -> Next
    requires { IsOneGreeting limits.now held.now }
    ensures stands { StandsGreeting limits.now place held.now result }
    ensures plain { CanBeWritten result }
{
    if ends_in_nul(held) {
        let capability = capability(&held[..held.len() - 1]);
        return Next::Greeting { capability };
    }
    if held.len() > limits.greeting as usize {
        return Next::Bad {
            code: Bad::Greeting,
            at: place.saturating_add(u64::from(limits.greeting)),
        };
    }
    Next::Need
}

// The offset in the stream of an offset in a body.
fn placed(place: u64, at: usize) -> u64
    ensures { result ≡ told_place (place + (at + 8)) }
{
    place.saturating_add((at as u64).saturating_add(HEADER as u64))
}

// A message whose object fills it.
fn value_in(alloc: Global, body: &[u8], head: Head) -> Next
    ensures stands { (t : Tree) (n place : ℕ) → object_of head.order body.now ≡ Ok (t, n) →
        StandsFront place head.length (whole head.length (record { sync = head.sync; content = built t })) result }
    ensures plain { CanBeWritten result }
{
    match decode(alloc, body, head.order) {
        Ok((value, _)) => Next::Message(Message {
            sync: head.sync,
            value,
        }),
        Err(_) => Next::Skipped { sync: head.sync },
    }
}

// A message of this head and body.
fn object_in(alloc: Global, body: &[u8], head: Head, place: u64) -> Next
    requires { length body.now + 8 ≡ head.length }
    ensures stands { StandsFront place head.length (body_front head (object_of head.order body.now)) result }
    ensures plain { CanBeWritten result }
{
    let bad = |at: usize| Next::Bad {
        code: Bad::Object,
        at: placed(place, at),
    };
    match measure(body, head.order) {
        Ok(length) if length == body.len() => value_in(alloc, body, head),
        Ok(length) => bad(length),
        Err(DecodeRefusal::NotBuilt(at)) => Next::NotBuilt {
            sync: head.sync,
            at: placed(place, at),
        },
        Err(DecodeRefusal::Truncated(at)) => bad(at),
        Err(DecodeRefusal::BadType(at)) => bad(at),
        Err(DecodeRefusal::BadShape(at)) => bad(at),
        Err(DecodeRefusal::TooDeep(at)) => bad(at),
        Err(DecodeRefusal::NoMemory) => bad(0),
    }
}

/// What the bytes after the handshake are: a message, less than one, or a fault.
pub fn message_in(alloc: Global, held: &[u8], limits: &Limits, place: u64) -> Next
    requires { IsOneMessage limits.now held.now }
    ensures stands { StandsFront place (length held.now) (front_of limits.now held.now) result }
    ensures plain { CanBeWritten result }
{
    match held.split_first_chunk::<HEADER>() {
        None => Next::Need,
        Some((header, body)) => match head_of(header, limits) {
            Ok(head) => {
                if held.len() < head.length as usize {
                    Next::Need
                } else {
                    object_in(alloc, body, head, place)
                }
            }
            Err(bad) => Next::Bad {
                code: bad.code,
                at: place.saturating_add(bad.at),
            },
        },
    }
}
