//! What a seat at the lock's table knows.
use std::collections::LinkedList;

/// Where a seat stands in the queue for the state.
pub enum Stage {
    /// It neither waits for the state nor has it.
    Idle,
    /// It has this ticket.
    Waits(u64),
    /// It is its turn.
    Turns,
    /// It has the state's slot.
    Holds,
}

/// What a seat knows. No value of it is made.
pub struct View<E> {
    /// The beginning of the state's list that the seat has seen.
    pub seen: LinkedList<E>,
    /// The entries of that list that carry the seat's number, where it has one.
    pub mine: LinkedList<E>,
    /// Whether the seat has a number of its own.
    pub drawn: bool,
    /// That number.
    pub number: u64,
    /// The greatest number that the seat knows to be drawn.
    pub latest: u64,
    /// Where it stands in the queue.
    pub stage: Stage,
    /// What the seat had seen before it learnt a note, until that is compared with `told`.
    pub before: LinkedList<E>,
    /// What the note had seen, until then.
    pub told: LinkedList<E>,
}
