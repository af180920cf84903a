//! A clock with a start and a step.
ghost use Rattle.std.specs.Prelude.{◌≡◌, ◌≤ℤ◌, pos};

use ghost_history::History;
use outside_api::Clock;
use std::marker::{Brand, Model, PhantomData};

/// The start and the step of a clock, which contracts name by a type.
pub trait Ticks {
    ghost use Rattle.std.specs.Prelude.{ℤ};

    /// What it reads first, in nanoseconds since 2000.01.01.
    ghost start: { ℤ };

    /// How much later each further reading is, in nanoseconds.
    ghost step: { ℤ };
}

impl Ticks for Brand {
    ghost use Rattle.std.specs.Prelude.{pos};

    ghost start = { pos 0 };

    ghost step = { pos 0 };
}

/// A clock that reads a start, and each further time a step more; it saturates at the last `i64`. It reports all its
/// readings. Its start and its step are those that `K` names.
#[derive(Drop)]
pub struct TickingClock<K: Ticks> {
    // What it reads next.
    next: i64,
    // How much later it reads after that.
    step: i64,
    // Its readings, which only contracts see.
    given: History<i64>,
    of: PhantomData<K>,
}

impl<K: Ticks> Model for TickingClock<K> {
    ghost use Rattle.std.specs.Prelude.{List, ℤ, ℕ, ◌≡◌};
    ghost use Rattle.ticking_clock.specs.Clock.{tick, ticks};

    ghost Value = { List ℤ };

    ghost view = { λ c. c.given };

    ghost invariant = { λ c. (c.step ≡ K.step) × ((n : ℕ) × (c.given ≡ ticks K.start K.step n) × (c.next ≡ tick K.start K.step n)) };
}

impl<K: Ticks> TickingClock<K> {
    ghost use Rattle.std.specs.Prelude.{[], ℕ};
    ghost use Rattle.ticking_clock.specs.Clock.{ticks};

    /// The clock that reads these, in nanoseconds since 2000.01.01 and in nanoseconds.
    pub fn new(start: i64, step: i64) -> TickingClock<K>
        requires start { start ≡ K.start }
        requires step { step ≡ K.step }
        ensures { result ≡ [] }
    {
        TickingClock {
            next: start,
            step,
            given: History::new(),
            of: PhantomData,
        }
    }

    /// Its readings were the start, and each a step more than the one before. It changes nothing.
    pub fn has_ticked(&self)
        ensures { (n : ℕ) × (self.now ≡ ticks K.start K.step n) }
    {
        let _given = &self.given;
    }
}

impl<K: Ticks> Clock for TickingClock<K> {
    ghost use Rattle.std.specs.Prelude.{Some};

    ghost readings = { λ c. Some c };

    fn now(&mut self) -> i64 {
        let now = self.next;
        self.given.push(&now);
        self.next = now.saturating_add(self.step);
        now
    }
}
