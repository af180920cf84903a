//! The machine's clock.
ghost use Rattle.std.specs.Prelude.{◌≡◌, None, [], ◌∷◌};
ghost use Rattle.std.specs.Duration.{as_nanos};
ghost use Rattle.outside_api.specs.Told.{told};
ghost use Rattle.outside_real.specs.Clock.{moment, clock_faults, Takes, Reads};

use outside_api::Clock;
use std::time::Duration;
use std::{io, time};

/// The nanoseconds from 1970.01.01 to 2000.01.01.
const SINCE_1970: u64 = 946_684_800_000_000_000;

/// The last moment: that of the last `i64`, in nanoseconds since 1970.01.01.
const LAST_MOMENT: u64 = SINCE_1970 + (1 << 63) - 1;

/// The machine's clock, in nanoseconds since 2000.01.01; it saturates at the last `i64`, in the year 2292.
///
/// Where the system doesn't give the time, as where its clock is set before 1970, that is counted, and the reading is
/// the one before, at first 1970.01.01.
#[derive(Drop)]
pub struct RealClock<C> {
    clock: C,
    /// The last reading.
    last: i64,
    /// How many readings the system didn't give.
    faults: u64,
}

impl<C: time::Clock> RealClock<C> {
    /// The clock that reads the time from this one, such as a runtime.
    pub fn new(clock: C) -> RealClock<C>
        ensures { clock_faults result ≡ 0 }
    {
        RealClock {
            clock,
            last: -(SINCE_1970 as i64),
            faults: 0,
        }
    }

    /// How many readings the system didn't give. The count saturates at 2^64 - 1.
    pub fn faults(&self) -> u64
        ensures { result ≡ clock_faults self.now }
    {
        self.faults
    }

    /// The reading that an answer of the system makes.
    fn take(&mut self, answer: io::Result<Duration>) -> i64
        ensures { Takes answer self.old self.new result }
    {
        match answer {
            Ok(since_1970) => self.last = moment_of(since_1970),
            Err(_) => self.faults = self.faults.saturating_add(1),
        }
        self.last
    }
}

impl<C: time::Clock> Clock for RealClock<C> {
    ghost readings = { λ _. None };

    fn now(&mut self) -> i64
        ensures told { None ≡ told None (result ∷ []) }
        ensures reads { Reads self.old self.new result }
    {
        let answer = self.clock.since_1970();
        self.take(answer)
    }
}

/// The moment, in nanoseconds since 2000.01.01, that is this long after 1970.01.01.
fn moment_of(since_1970: Duration) -> i64
    ensures { result ≡ moment (as_nanos since_1970) }
{
    let nanoseconds = since_1970.as_nanos().min(u128::from(LAST_MOMENT)) as u64;
    if nanoseconds < SINCE_1970 {
        -((SINCE_1970 - nanoseconds) as i64)
    } else {
        (nanoseconds - SINCE_1970) as i64
    }
}
