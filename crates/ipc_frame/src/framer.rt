//! The framer: bytes in, a handshake and messages out.
ghost use Rattle.std.specs.Prelude.{◌≡◌, ◌↔◌, [], IsTrue, IfOk};
ghost use Rattle.q_values.specs.Limits.{AreLimits};

use crate::head::HEADER;
use crate::next::Next;
use crate::standing::{greeting_in, message_in};
use crate::taking::{take_greeting, take_message};
use q_values::{Limits, NoMemory};
use std::alloc::Global;
use std::marker::Model;

/// What a framer took of a piece.
#[derive(Clone, Copy, Debug, PartialEq, Eq)]
pub struct Fed {
    /// The number of bytes taken, from the front of the piece.
    pub taken: usize,
}

/// Reads a stream, in whatever pieces it arrives. It holds one handshake or message at most.
#[derive(Drop)]
pub struct Framer {
    // The limits on the lengths of handshakes and messages.
    limits: Limits,
    // Whether the handshake was returned.
    greeted: bool,
    // The offset in the stream of the first byte held. It saturates.
    place: u64,
    // The bytes taken since the last handshake or message that was returned: at most one handshake or message. The
    // capacity is enough for the longest of either.
    held: Vec<u8>,
}

impl Model for Framer {
    ghost use Rattle.std.specs.Prelude.{vec_capacity};
    ghost use Rattle.ipc_frame.specs.View.{FramerView};
    ghost use Rattle.ipc_frame.specs.Holding.{Keeps};

    ghost Value = { FramerView };

    ghost view = { λ f. record { limits = f.limits; greeted = f.greeted; place = f.place; held = f.held.items } };

    ghost invariant = { λ f. Keeps f.limits f.greeted f.held.items (vec_capacity f.held) };
}

impl Framer {
    ghost use Rattle.ipc_frame.specs.View.{fresh, passed};
    ghost use Rattle.ipc_frame.specs.Framing.{Stands, Gives, Feeds, CanBeWritten};

    /// A framer at the start of a stream. Its buffer is allocated here, for the longest message or handshake that the
    /// limits allow.
    pub fn new(alloc: Global, limits: &Limits) -> Result<Framer, NoMemory>
        requires { AreLimits limits.now }
        ensures { IfOk result (λ f. f ≡ fresh limits.now) }
    {
        let message = (limits.message as usize).max(HEADER);
        let held = Vec::with_capacity(alloc, message.max(limits.greeting as usize + 1))?;
        Ok(Framer {
            limits: *limits,
            greeted: false,
            place: 0,
            held,
        })
    }

    /// Takes bytes from the front of a piece: all of them, or those up to and including the first one after which `next`
    /// would return something other than `Need`. It allocates nothing.
    pub fn feed(&mut self, piece: &[u8]) -> Fed
        ensures { Feeds self.old piece.now result.taken self.new }
    {
        let taken = if self.greeted {
            take_message(&mut self.held, &self.limits, piece)
        } else {
            take_greeting(&mut self.held, &self.limits, piece)
        };
        Fed { taken }
    }

    /// Whether no bytes are held: the bytes taken so far are none, or end exactly at the end of the handshake or of a
    /// message.
    pub fn is_empty(&self) -> bool
        ensures { IsTrue result ↔ (self.now.held ≡ []) }
    {
        self.held.is_empty()
    }

    // What `next` returns.
    fn standing(&self) -> Next
        ensures stands { Stands self.now result }
        ensures plain { CanBeWritten result }
    {
        let held = self.held.as_slice();
        if self.greeted {
            return message_in(*self.held.allocator(), held, &self.limits, self.place);
        }
        greeting_in(held, &self.limits, self.place)
    }

    // Drops the bytes of what was returned.
    fn pass(&mut self)
        ensures { self.new ≡ passed self.old }
    {
        self.place = self.place.saturating_add(self.held.len() as u64);
        self.greeted = true;
        self.held.clear();
    }

    /// The next handshake or message of the stream, `Need`, or a fault (KX, IPC reference). A handshake or message is
    /// returned once, a fault again at each further call. Only a message's value is allocated.
    pub fn next(&mut self) -> Next
        ensures gives { Gives self.old result self.new }
        // A value that is returned can be written.
        ensures plain { CanBeWritten result }
    {
        let next = self.standing();
        if next.is_passed() {
            self.pass();
        }
        next
    }
}
