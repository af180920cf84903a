//! The lock.
ghost use Rattle.std.specs.Prelude.{◌≡◌, ◌-◌, ◌+◌, ◌<◌, ◌^◌, max, [], ◌∷◌, All, Some, IfOk, IfErr};
ghost use mathlib.Core.List.{IsPrefix};
ghost use Rattle.plant_lock.specs.Entries.{own, longer};

use crate::board::{Board, Place, Start};
use crate::chronicle::Chronicle;
use crate::held::Held;
use crate::pass::{Note, Pass};
use crate::plays::Daughter;
use crate::sleepers::Sleepers;
use crate::steps::{draw_number, learn_seat, queue, take_state};
use atomic_table::{Refused, Table};
use std::alloc::{AllocFailed, Global};
use std::marker::Model;
use std::snapshot::Snapshot;
use std::sync::Wait;

/// A pass of a lock round `S`.
pub type PassOf<S> = Pass<<S as Chronicle>::Entry>;

/// A note of a lock round `S`.
pub type NoteOf<S> = Note<<S as Chronicle>::Entry>;

/// A lock round a state that stands for a growing list of entries. Contracts see which lock it is, and the state that it
/// was made with, whose frame each state has that is taken.
///
/// Each call's passes, notes and holds have to be of this lock.
#[derive(Drop)]
pub struct PlantLock<S: Chronicle> {
    /// The table of one slot, which has the state, and of four words, as `board` numbers them. Its key has the state that
    /// the lock was made with.
    pub(crate) table: Board<S>,
    /// The threads that sleep until they may take the state.
    pub(crate) sleepers: Sleepers,
}

impl<S: Chronicle> Model for PlantLock<S> {
    ghost use Rattle.plant_lock.specs.Told.{Lock, lock_code};
    ghost use Rattle.plant_lock.specs.Seated.{IsSized};

    ghost Value = { Lock S };

    ghost coded = { lock_code S.code };

    ghost view = { λ l. record { id = l.table.shared.table_id; made = l.table.shared.key.state.value } };

    ghost invariant = { λ l. IsSized l.table.shared.table_id };
}

/// There was no memory for a lock. The state comes back.
#[derive(Debug, Drop)]
pub struct NewFailure<S> {
    /// The state that was given.
    pub back: S,
}

// The state as the one slot of a table.
fn one_slot<S>(alloc: Global, state: S) -> Result<Vec<Option<S>>, NewFailure<S>>
    ensures ok { IfOk result (λ v. v.items ≡ Some state ∷ []) }
    ensures err { IfErr result (λ e. e.back ≡ state) }
{
    let mut slots = Vec::new(alloc);
    match slots.push(Some(state)) {
        Ok(()) => Ok(slots),
        Err(failed) => {
            let AllocFailed { value } = failed;
            slots.destroy_empty();
            match value {
                Some(back) => Err(NewFailure { back }),
                None => unreachable!(),
            }
        }
    }
}

// The state out of the one slot of a table that could not be made.
fn state_of<S>(mut slots: Vec<Option<S>>) -> S
    requires { (x : S) × (slots.items ≡ Some x ∷ []) }
    ensures { slots.items ≡ Some result ∷ [] }
{
    match slots.pop() {
        Some(Some(state)) => {
            slots.destroy_empty();
            state
        }
        Some(None) => unreachable!(),
        None => unreachable!(),
    }
}

impl<S: Chronicle> PlantLock<S> {
    /// A lock round the state, and the pass numbered `first`, which has seen all of it. It takes the memory of the lock:
    /// where there is none, the state comes back.
    pub fn new<R>(
        _rt: &R,
        alloc: Global,
        state: S,
        first: u64,
    ) -> Result<(PlantLock<S>, PassOf<S>), NewFailure<S>>
        requires room { first < 2 ^ 64 - 1 }
        requires fresh { All (λ e. S.by e < first) (S.entries state) }
        ensures lock { IfOk result (λ r. r.0.made ≡ state) }
        ensures pass { IfOk result (λ r. r.1 ≡ record { lock = r.0.id; number = first; latest = first; seen = S.entries state; mine = [] }) }
        ensures own { IfOk result (λ r. own S.by r.1.number r.1.seen ≡ r.1.mine) }
        ensures back { IfErr result (λ e. e.back ≡ state) }
    {
        let about = Start {
            state: Snapshot::of(&state),
            first,
        };
        let words = [0, 0, state.length(), first + 1];
        let slots = one_slot(alloc, state)?;
        let made: Result<(Board<S>, Place<S>), Refused<Option<S>, Global>> = Table::new(
            alloc, &words, slots, &about,
        );
        match made {
            Ok((table, seat)) => {
                let sleepers = Sleepers::none();
                Ok((PlantLock { table, sleepers }, Pass::of_seat(seat, first)))
            }
            Err(Refused { slots }) => Err(NewFailure {
                back: state_of(slots),
            }),
        }
    }

    /// Draws the next number, which is above all that the mother knew to be drawn. The second pass has it, and has seen
    /// what she has. It may wait, and waits for ever once the numbers of 64 bits are drawn.
    pub fn pass<R: Wait>(&self, rt: &R, mother: PassOf<S>) -> (PassOf<S>, PassOf<S>)
        requires { mother.lock ≡ self.now.id }
        ensures mother { result.0 ≡ record mother { latest = result.1.number } }
        ensures daughter { result.1 ≡ record mother { number = result.1.number; latest = result.1.number; mine = [] } }
        ensures differ { (mother.number < result.1.number) × (mother.latest < result.1.number) }
        ensures few { result.1.number + 1 < 2 ^ 64 }
        ensures undrawn { All (λ e. S.by e < result.1.number) mother.seen }
        ensures own { own S.by result.1.number result.1.seen ≡ result.1.mine }
    {
        let top = &self.table.shared;
        let number = mother.number();
        let mut seat: Place<S> = mother.into_seat();
        let mut daughter = top.split_seat::<Daughter>(&mut seat);
        let drawn = draw_number(rt, top, &mut daughter);
        let told = top.split_seat::<Daughter>(&mut daughter);
        learn_seat(top, &mut seat, told);
        (Pass::of_seat(seat, number), Pass::of_seat(daughter, drawn))
    }

    /// Waits for the pass's turn and takes the state. Its history begins with all that the pass has seen, and has just
    /// those entries of the pass's number that it made.
    pub fn take<R: Wait>(&self, rt: &R, pass: PassOf<S>) -> Held<'_, S>
        requires { pass.lock ≡ self.now.id }
        ensures lock { result.lock ≡ self.now }
        ensures pass { result.pass ≡ record pass { seen = S.entries result.state } }
        ensures history { IsPrefix pass.seen (S.entries result.state) }
        ensures frame { S.frame result.state ≡ S.frame self.now.made }
        ensures own { own S.by pass.number (S.entries result.state) ≡ pass.mine }
    {
        let top = &self.table.shared;
        let number = pass.number();
        let mut seat: Place<S> = pass.into_seat();
        queue(rt, top, &self.sleepers, &mut seat);
        let state = take_state(top, &mut seat);
        Held::of_seat(self, seat, number, state)
    }

    /// A note of what the pass has seen.
    pub fn note(&self, pass: PassOf<S>) -> (PassOf<S>, NoteOf<S>)
        requires { pass.lock ≡ self.now.id }
        ensures pass { result.0 ≡ pass }
        ensures note { result.1 ≡ record { lock = pass.lock; latest = pass.latest; seen = pass.seen } }
    {
        let number = pass.number();
        let mut seat: Place<S> = pass.into_seat();
        let told = self.table.shared.split_seat::<Daughter>(&mut seat);
        (Pass::of_seat(seat, number), Note::of_seat(told))
    }

    /// The pass, which has seen the longer of what it had seen and what the note tells. The shorter begins it.
    pub fn learn(&self, pass: PassOf<S>, note: NoteOf<S>) -> PassOf<S>
        requires pass { pass.lock ≡ self.now.id }
        requires note { note.lock ≡ self.now.id }
        ensures pass { result ≡ record pass { seen = longer pass.seen note.seen; latest = max pass.latest note.latest } }
        ensures seen { IsPrefix pass.seen result.seen }
        ensures told { IsPrefix note.seen result.seen }
        ensures own { own S.by result.number result.seen ≡ result.mine }
    {
        let number = pass.number();
        let mut seat: Place<S> = pass.into_seat();
        learn_seat(&self.table.shared, &mut seat, note.into_seat());
        Pass::of_seat(seat, number)
    }

    /// Waits for the pass's turn and takes the state for good.
    pub fn close<R: Wait>(self, rt: &R, pass: PassOf<S>) -> S
        requires { pass.lock ≡ self.id }
        ensures history { IsPrefix pass.seen (S.entries result) }
        ensures frame { S.frame result ≡ S.frame self.made }
        ensures own { own S.by pass.number (S.entries result) ≡ pass.mine }
    {
        let PlantLock { table, sleepers } = self;
        let mut seat: Place<S> = pass.into_seat();
        queue(rt, &table.shared, &sleepers, &mut seat);
        let mut closed = table.close_with(seat);
        let state = closed.take(0);
        closed.free();
        match state {
            Some(state) => state,
            None => unreachable!(),
        }
    }
}
