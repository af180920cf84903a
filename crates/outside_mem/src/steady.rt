//! A clock that always reads one time.
ghost use Rattle.std.specs.Prelude.{◌≡◌, [], ◌∷◌, All};

use ghost_history::History;
use outside_api::Clock;
use std::marker::Model;

/// A clock that always reads one time. It reports all its readings.
#[derive(Drop)]
pub struct SteadyClock {
    // What it reads.
    moment: i64,
    // Its readings, which only contracts see: each is that time.
    given: History<i64>,
}

impl Model for SteadyClock {
    ghost use Rattle.std.specs.Prelude.{◌≡◌, All};
    ghost use Rattle.outside_mem.specs.Clock.{SteadyClockView};

    ghost Value = { SteadyClockView };

    ghost view = { λ c. record { moment = c.moment; given = c.given } };

    ghost invariant = { λ c. All (λ reading. reading ≡ c.moment) c.given };
}

impl SteadyClock {
    ghost use Rattle.outside_mem.specs.Clock.{SteadyClockView};

    /// A clock that reads this, in nanoseconds since 2000.01.01.
    pub fn new(moment: i64) -> SteadyClock
        ensures { result ≡ record { moment = moment; given = [] } }
    {
        SteadyClock {
            moment,
            given: History::new(),
        }
    }

    /// The moment that it reads; each of its readings was this one.
    pub fn moment(&self) -> i64
        ensures moment { result ≡ self.now.moment }
        ensures steady { All (λ reading. reading ≡ self.now.moment) self.now.given }
    {
        let _given = &self.given;
        self.moment
    }
}

impl Clock for SteadyClock {
    ghost use Rattle.std.specs.Prelude.{Some};
    ghost use Rattle.outside_api.specs.Told.{told};

    ghost readings = { λ c. Some c.given };

    fn now(&mut self) -> i64
        ensures reads { Some self.new.given ≡ told (Some self.old.given) (result ∷ []) }
        ensures moment { result ≡ self.old.moment }
        ensures same { self.new.moment ≡ self.old.moment }
    {
        self.given.push(&self.moment);
        self.moment
    }
}
