//! What holds of dates that are left out. Each law is the contract of a function with an empty body.
ghost use Rattle.qsql_dates.specs.Laws.{OtherDatesHaveNoPart};

/// The phrases of a query keep the same rows where the rows of the dates that it doesn't keep were left out before.
pub fn other_dates_have_no_part()
    ensures { OtherDatesHaveNoPart }
{}
