//! What holds of the dates that a query leaves out. The law is the contract of a function with an empty body.
ghost use Rattle.qsql_needs.specs.Laws.{OtherDatesHaveNoPart};

/// The value of a query is the same where the rows of the dates that it doesn't keep were left out before.
pub fn other_dates_have_no_part()
    ensures { OtherDatesHaveNoPart }
{}
