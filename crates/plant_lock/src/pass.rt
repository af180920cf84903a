//! Passes and notes.
ghost use Rattle.std.specs.Prelude.{◌≡◌, ◌≤◌, [], ◌∷◌};
ghost use Rattle.plant_lock.specs.Seated.{told_of, resting, noting};

use crate::view::View;
use atomic_table::{Badge, Seat};
use std::marker::Model;

/// What a lock knows of one of its users: a number, the beginning of the history that this user has seen, and the entries
/// that the user added. Only [`crate::PlantLock`]'s calls change it. It may go to another thread.
#[derive(Drop)]
pub struct Pass<E> {
    // The seat at the lock's table, which holds nothing. What the pass has seen and added is in the seat's view.
    badge: Badge<View<E>>,
    // The pass's number, which is also in that view.
    number: u64,
}

impl<E> Model for Pass<E> {
    ghost use Rattle.plant_lock.specs.Told.{Told, told_code};
    ghost use Rattle.plant_lock.specs.Seated.{told_by, IsResting};

    ghost Value = { Told E };

    ghost coded = { told_code E.code };

    ghost view = { λ p. told_by p.badge.table_id p.number p.badge.views };

    ghost invariant = { λ p. IsResting p.number p.badge.views };
}

impl<E> Pass<E> {
    /// The pass's number, which its entries carry. It knows that number to be drawn.
    pub fn number(&self) -> u64
        ensures number { result ≡ self.now.number }
        ensures latest { result ≤ self.now.latest }
    {
        self.number
    }

    /// A pass of a seat that holds nothing.
    pub(crate) fn of_seat<S>(seat: Seat<Option<S>, View<E>>, number: u64) -> Pass<E>
        requires rests { seat.me ≡ (resting number seat.me.0.latest seat.me.0.seen seat.me.0.mine, []) }
        requires latest { number ≤ seat.me.0.latest }
        ensures { result ≡ told_of seat.table_id number seat.me.0 }
    {
        Pass {
            badge: seat.into_badge(),
            number,
        }
    }

    /// The seat of a pass.
    pub(crate) fn into_seat<S>(self) -> Seat<Option<S>, View<E>>
        ensures lock { result.table_id ≡ self.lock }
        ensures rests { result.me ≡ (resting self.number self.latest self.seen self.mine, []) }
        ensures latest { self.number ≤ self.latest }
    {
        let Pass { badge, number: _ } = self;
        badge.into_seat()
    }
}

/// What a pass had seen, for another pass to learn. It may go to another thread.
#[derive(Drop)]
pub struct Note<E> {
    // A seat at the lock's table without a number of its own, whose view has what the pass had seen.
    badge: Badge<View<E>>,
}

impl<E> Model for Note<E> {
    ghost use Rattle.plant_lock.specs.Told.{Noted, noted_code};
    ghost use Rattle.plant_lock.specs.Seated.{noted_by, IsNoting};

    ghost Value = { Noted E };

    ghost coded = { noted_code E.code };

    ghost view = { λ n. noted_by n.badge.table_id n.badge.views };

    ghost invariant = { λ n. IsNoting n.badge.views };
}

impl<E> Note<E> {
    /// A note of a seat with no number.
    pub(crate) fn of_seat<S>(seat: Seat<Option<S>, View<E>>) -> Note<E>
        requires { seat.me ≡ (noting seat.me.0.latest seat.me.0.seen, []) }
        ensures { result ≡ record { lock = seat.table_id; latest = seat.me.0.latest; seen = seat.me.0.seen } }
    {
        Note {
            badge: seat.into_badge(),
        }
    }

    /// The seat of a note.
    pub(crate) fn into_seat<S>(self) -> Seat<Option<S>, View<E>>
        ensures lock { result.table_id ≡ self.lock }
        ensures rests { result.me ≡ (noting self.latest self.seen, []) }
    {
        let Note { badge } = self;
        badge.into_seat()
    }
}
