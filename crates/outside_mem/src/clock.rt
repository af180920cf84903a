//! A clock in memory, with a list of readings.
ghost use Rattle.std.specs.Prelude.{◌≡◌, ◌<◌, ◌-◌, [], length, slice_get, Some, ◌∷◌};

use crate::tape::Tape;
use ghost_history::History;
use outside_api::Clock;
use q_values::Sequence;
use std::marker::Model;

/// The readings of a clock, each in nanoseconds since 2000.01.01.
pub type Moments = Sequence<i64>;

/// A clock in memory: its readings are given to it, and the last one is repeated. It reports all its readings.
#[derive(Drop)]
pub struct MemClock {
    // The readings that it has not given yet.
    readings: Tape<i64>,
    // What it gives once they are used up.
    last: i64,
    // The readings that it has given; a ghost.
    given: History<i64>,
}

impl Model for MemClock {
    ghost use Rattle.outside_mem.specs.Clock.{MemClockView};

    ghost Value = { MemClockView };

    ghost view = { λ c. record { given = c.given; left = c.readings; last = c.last } };
}

impl MemClock {
    /// A clock that gives these readings in their order, and the last of them again and again.
    pub fn new(readings: Moments) -> MemClock
        requires { 0 < length readings }
        ensures new { result.given ≡ [] }
        ensures left { result.left ≡ readings }
        ensures last { slice_get readings (length readings - 1) ≡ Some result.last }
    {
        let last = *readings.at(readings.len() - 1);
        MemClock {
            readings: Tape::new(readings),
            last,
            given: History::new(),
        }
    }
}

impl Clock for MemClock {
    ghost use Rattle.std.specs.Prelude.{drop};
    ghost use Rattle.outside_api.specs.Told.{told};
    ghost use Rattle.outside_mem.specs.Clock.{next_reading};

    ghost readings = { λ c. Some c.given };

    fn now(&mut self) -> i64
        ensures reads { Some self.new.given ≡ told (Some self.old.given) (result ∷ []) }
        ensures next { result ≡ next_reading self.old.left self.old.last }
        ensures left { self.new.left ≡ drop 1 self.old.left }
        ensures last { self.new.last ≡ self.old.last }
    {
        let moment = match self.readings.next() {
            Some(reading) => reading,
            None => self.last,
        };
        self.given.push(&moment);
        moment
    }
}
