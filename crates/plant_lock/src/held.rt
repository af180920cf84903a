//! The state, while a pass holds it.
ghost use Rattle.std.specs.Prelude.{◌≡◌, ◌≤◌, ◌++◌, [], ◌∷◌, length, drop, None};
ghost use Rattle.std.specs.Borrow.{sem};
ghost use Rattle.plant_lock.specs.Entries.{own, IsExtendedBy};
ghost use Rattle.plant_lock.specs.Seated.{told_of, holding};
ghost use Rattle.plant_lock.specs.Lends.{LendsState};

use crate::board::Place;
use crate::chronicle::Chronicle;
use crate::lock::{PassOf, PlantLock};
use crate::pass::Pass;
use crate::steps::give_state;
use std::marker::Model;

/// The state of a lock, and the pass that holds it. It can't be dropped: end it by [`Held::give`].
pub struct Held<'a, S: Chronicle> {
    // The lock that the state was taken from.
    lock: &'a PlantLock<S>,
    // The seat of the pass at that lock's table. It holds the slot.
    seat: Place<S>,
    // The number of the pass.
    number: u64,
    // How many entries the state had when it was taken; the pass has seen these.
    taken: u64,
    // The state itself, which may have more entries by now.
    state: S,
}

impl<'a, S: Chronicle> Model for Held<'a, S> {
    ghost use Rattle.std.specs.Prelude.{◌≡◌, length};
    ghost use Rattle.plant_lock.specs.Told.{Taken, taken_code};
    ghost use Rattle.plant_lock.specs.Seated.{told_of, IsHolding};

    ghost Value = { Taken S S.Entry };

    ghost coded = { taken_code S.code S.Entry.code };

    ghost view = { λ h. record { lock = h.lock.now; pass = told_of h.seat.table_id h.number h.seat.me.0; state = h.state } };

    ghost invariant = { λ h. (h.seat.table_id ≡ h.lock.now.id) × IsHolding h.number h.seat.me × (h.taken ≡ length h.seat.me.0.seen) };
}

impl<'a, S: Chronicle> Held<'a, S> {
    /// The held state, of a lock and a seat that has taken it.
    pub(crate) fn of_seat(
        lock: &'a PlantLock<S>,
        seat: Place<S>,
        number: u64,
        state: S,
    ) -> Held<'a, S>
        requires lock { seat.table_id ≡ lock.now.id }
        requires holds { seat.me ≡ (holding number seat.me.0.latest seat.me.0.seen seat.me.0.mine, (0, None) ∷ []) }
        requires latest { number ≤ seat.me.0.latest }
        requires seen { S.entries state ≡ seat.me.0.seen }
        ensures { result ≡ record { lock = lock.now; pass = told_of seat.table_id number seat.me.0; state = state } }
    {
        let taken = state.length();
        Held {
            lock,
            seat,
            number,
            taken,
            state,
        }
    }

    /// The number of the pass that holds the state, which the entries that are added carry.
    pub fn number(&self) -> u64
        ensures { result ≡ self.now.pass.number }
    {
        self.number
    }

    /// The state.
    pub fn state(&mut self) -> &mut S
        ensures* lends { sem 𝓛 (LendsState S.row S.Entry.row S.Frame.row S.Chronicle self.entry result) }
        ensures state { result.now ≡ self.old.state }
    {
        &mut self.state
    }

    /// Gives the state back. The pass has then seen all of it, and made the entries that were added.
    pub fn give(self) -> PassOf<S>
        requires frame { S.frame self.state ≡ S.frame self.lock.made }
        requires history { IsExtendedBy S.by self.pass.number self.pass.seen (S.entries self.state) }
        ensures pass { let t = self.entry in let mine = t.pass.mine ++ drop (length t.pass.seen) (S.entries t.state) in
            result ≡ record t.pass { seen = S.entries t.state; mine = mine } }
        ensures own { own S.by result.number result.seen ≡ result.mine }
    {
        let Held {
            lock,
            mut seat,
            number,
            taken,
            state,
        } = self;
        give_state(&lock.table.shared, &lock.sleepers, &mut seat, state, taken);
        Pass::of_seat(seat, number)
    }
}
