//! Boards.
ghost use Rattle.std.specs.Prelude.{◌≡◌, ◌≢◌, ◌<◌, ◌+◌, ◌==◌, ◌++◌, [], ◌∷◌, length, All, AllPairs, IfOk, IfErr, OnOk, OnErr, IfSome, IfNone};
ghost use Rattle.taps.specs.Board.{SeatView, living, Driven, TakenOff};
ghost use Rattle.taps.specs.declared.board.PutFailure.TheVariants as f;

use crate::seat::Seat;
use outside_api::Tap;
use pubsub::TapMessages;
use q_values::{NoMemory, Sequence};
use std::alloc::Global;

/// Numbers of taps, in order.
pub type Ids = Sequence<u32>;

/// Why a tap isn't put on a board.
#[derive(Drop)]
pub enum PutFailure {
    /// Out of memory, or of numbers. The tap is handed back.
    NoMemory(Box<dyn Tap + Send + Drop>),
}

/// Boxed taps, each with a number of its own.
#[derive(Drop)]
pub struct Board {
    /// The living taps, in the order in which they were put on.
    pub seats: Vec<Seat>,
    /// The number of the next tap.
    pub next: u32,
    pub ghost given: { All (λ seat. seat.number < next) seats.items },
    pub ghost ascend: { AllPairs (λ a b. a.number < b.number) seats.items },
}

impl Board {
    /// A board without taps. It takes no memory.
    pub fn new(alloc: Global) -> Board
        ensures { living (λ s. s.number) (λ s. shown s.tap) result.seats.items ≡ [] }
    {
        Board {
            seats: Vec::new(alloc),
            next: 0,
        }
    }

    /// Whether no tap lives.
    pub fn is_empty(&self) -> bool
        ensures { result ≡ (length self.now.seats.items == 0) }
    {
        self.seats.is_empty()
    }

    /// Puts a tap on the board. The result is its number, which no tap had before. An error changes nothing.
    pub fn put_on(&mut self, tap: Box<dyn Tap + Send + Drop>) -> Result<u32, PutFailure>
        ensures put { IfOk result (λ id. living (λ s. s.number) (λ s. shown s.tap) self.new.seats.items
            ≡ living (λ s. s.number) (λ s. shown s.tap) self.old.seats.items ++ (record { number = id; shown = shown tap }) ∷ []) }
        ensures number { IfOk result (λ id. (id ≡ self.old.next) × (self.new.next ≡ id + 1)) }
        ensures handed_back { IfErr result (λ why. why ≡ f.NoMemory tap) }
        ensures err { OnErr result (
            (living (λ s. s.number) (λ s. shown s.tap) self.new.seats.items ≡ living (λ s. s.number) (λ s. shown s.tap) self.old.seats.items)
            × (self.new.next ≡ self.old.next)) }
    {
        let id = self.next;
        if id == u32::MAX {
            return Err(PutFailure::NoMemory(tap));
        }
        match self.seats.push(Seat { number: id, tap }) {
            Ok(()) => {
                self.next = id + 1;
                Ok(id)
            }
            Err(failed) => {
                let Seat { tap, .. } = failed.value;
                Err(PutFailure::NoMemory(tap))
            }
        }
    }

    /// Takes the tap with a number off the board, or `None` where no living tap has it. It takes no memory.
    pub fn take_off(&mut self, id: u32) -> Option<Box<dyn Tap + Send + Drop>>
        ensures some { IfSome result (λ tap. TakenOff id (shown tap)
            (living (λ s. s.number) (λ s. shown s.tap) self.old.seats.items) (living (λ s. s.number) (λ s. shown s.tap) self.new.seats.items)) }
        ensures none { IfNone result (All (λ seat. seat.number ≢ id) self.old.seats.items × (self.new ≡ self.old)) }
        ensures next { self.new.next ≡ self.old.next }
    {
        for i in 0..self.seats.len() {
            if self.seats[i].number == id {
                let Seat { tap, .. } = self.seats.remove(i);
                return Some(tap);
            }
        }
        None
    }

    /// Gives each message to each tap, in order, and drops a tap at its first fault. The result is the numbers of those
    /// dropped. An error changes nothing: its memory is taken before a tap is given anything.
    pub fn drive(&mut self, alloc: Global, messages: &TapMessages) -> Result<Ids, NoMemory>
        ensures driven { IfOk result (Driven messages.now
            (living (λ s. s.number) (λ s. shown s.tap) self.old.seats.items) (living (λ s. s.number) (λ s. shown s.tap) self.new.seats.items)) }
        ensures err { OnErr result (self.new ≡ self.old) }
        ensures next { self.new.next ≡ self.old.next }
    {
        let count = self.seats.len();
        let mut staying = Vec::with_capacity(alloc, count)?;
        let mut dropped = Vec::with_capacity(alloc, count)?;
        let mut numbers = Box::new(alloc, Vec::new(alloc))?;
        let messages = messages.as_slice();
        let seats = std::mem::replace(&mut self.seats, Vec::new(alloc));
        for mut seat in seats {
            if seat.take_all(messages) {
                staying.push_reserved(seat);
            } else {
                dropped.push_reserved(seat.number);
            }
        }
        self.seats = staying;
        *numbers = dropped;
        Ok(Ids::from_box(alloc, numbers))
    }
}
