//! What holds of the documented order of every chronicle.
ghost use Rattle.day_rows.specs.Chronicle.{OpenDateByArrival, EndedDateBySymbol, EachRowOnce};
ghost use Rattle.day_rows.specs.Day.{KeepsRowsAtItsEnd, AscendsAtItsEnd};

/// The view of a chronicle goes date by date: what a day shows, while it is open and once it has ended, is the part of
/// the whole chronicle's view that belongs to its date.
pub fn view_is_by_dates()
    ensures arrival { OpenDateByArrival }
    ensures symbol { EndedDateBySymbol }
{}

/// The view of a chronicle has each row of each update exactly once. An ended day has the rows that it had while it was
/// open, sorted by symbol and arrival.
pub fn view_has_each_row_once()
    ensures view { EachRowOnce }
    ensures ended { KeepsRowsAtItsEnd }
    ensures ascends { AscendsAtItsEnd }
{}
