//! A clock, read by whoever needs the date.
ghost use Rattle.std.specs.Prelude.{◌≡◌, [], ◌∷◌};

/// Gives the time, in nanoseconds since 2000.01.01. Readings may go backwards.
pub trait Clock {
    ghost use Rattle.std.specs.Prelude.{Option, List, ℤ};
    ghost use Rattle.outside_api.specs.Told.{told};

    /// The readings that it has given, where it reports them.
    ghost readings: { Self → Option (List ℤ) };

    /// The time now.
    fn now(&mut self) -> i64
        ensures { readings self.new ≡ told (readings self.old) (result ∷ []) };
}
