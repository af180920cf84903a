//! The dates that a query reads.
ghost use Rattle.std.specs.Prelude.{◌≡◌, ◌++◌, ◌∷◌, [], if◌then◌else◌, OnOk, IfOk};
ghost use Rattle.qsql_request.specs.Views.{query_of};
ghost use Rattle.gateway.specs.DateRows.{kept_dates, AreDates};

use plant_memory::Snapshot;
use q_values::NoMemory;
use qsql_eval::Typed;
use qsql_needs::Reads;
use std::alloc::Global;

// Puts the index of a date at the end, where the date is kept.
fn push_date(dates: &mut Vec<usize>, k: usize, is_kept: bool) -> Result<(), NoMemory>
    ensures { OnOk result (dates.new.items ≡ dates.old.items ++ (if is_kept then k ∷ [] else [])) }
{
    if is_kept {
        dates.push(k)?;
    }
    Ok(())
}

/// The indices of the dates that a query keeps. Of other dates it reads nothing.
pub fn kept_dates(alloc: Global, typed: &Typed, snapshot: &Snapshot) -> Result<Vec<usize>, NoMemory>
    ensures dates { IfOk result (λ v. v.items
        ≡ kept_dates (query_of typed.now.query.now).phrases snapshot.now.frame.first snapshot.now.entries) }
    ensures within { IfOk result (λ v. AreDates snapshot.now.frame.first snapshot.now.entries v.items) }
{
    let mut dates = Vec::new(alloc);
    for k in 0..snapshot.dates() {
        let date = snapshot.date_at(k);
        let is_kept = typed.keeps(alloc, date)?;
        push_date(&mut dates, k, is_kept)?;
    }
    Ok(dates)
}
