//! What holds of every chronicle.
ghost use Rattle.plant_memory.specs.Laws.{FirstCauseRefuses, ViewIsItsDates};

/// What a snapshot shows of a table, date by date in the order of its dates, is the whole view of the table.
pub fn view_is_its_dates()
    ensures { ViewIsItsDates }
{}

/// An update is refused with the first cause that holds, in the order of `UpdRefusal`, and accepted exactly where
/// none holds.
pub fn first_cause_refuses()
    ensures { FirstCauseRefuses }
{}
