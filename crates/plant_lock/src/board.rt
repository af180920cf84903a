//! The table of the lock.
//! Word 0 counts the tickets, word 1 is the ticket that is served, word 2 counts the entries, and word 3 is the next number.
//! The one slot has the state, and `None` while a seat holds it.
use crate::chronicle::Chronicle;
use crate::view::View;
use atomic_table::{Seat, Shared, Table, TableRule};
use std::alloc::Global;
use std::marker::PhantomData;
use std::snapshot::Snapshot;

pub(crate) const TICKETS: usize = 0;

pub(crate) const SERVING: usize = 1;

pub(crate) const ENTRIES: usize = 2;

pub(crate) const NUMBERS: usize = 3;

/// What the table is told once: the state that the lock is made with, and the number of its first pass.
#[derive(Drop)]
pub struct Start<S> {
    /// The state that the lock is made with, for contracts.
    pub state: Snapshot<S>,
    /// The number of the first pass.
    pub first: u64,
}

/// The rule of the table.
pub struct Law<S> {
    // The kind of state alone.
    of: PhantomData<S>,
}

impl<S: Chronicle> TableRule<Option<S>, View<<S as Chronicle>::Entry>, Start<S>> for Law<S> {
    ghost use Rattle.plant_lock.specs.Law.{Kept, starting};

    ghost holds = { λ k. Kept S.entries S.by S.frame (S.frame k.state.value) };

    ghost first = { λ k. starting k.first (S.entries k.state.value) };
}

pub(crate) type ViewOf<S> = View<<S as Chronicle>::Entry>;

pub(crate) type Board<S> = Table<Option<S>, ViewOf<S>, Start<S>, Law<S>, Global>;

pub(crate) type Top<S> = Shared<Option<S>, ViewOf<S>, Start<S>, Law<S>>;

pub(crate) type Place<S> = Seat<Option<S>, ViewOf<S>>;
