//! The dates that a query keeps.
ghost use Rattle.std.specs.Prelude.{◌≡◌, IfOk};
ghost use Rattle.qsql_request.specs.Views.{query_of};
ghost use Rattle.qsql_dates.specs.Dates.{keeps};

use q_values::NoMemory;
use qsql_eval::Typed;
use std::alloc::Global;

/// Whether a query keeps a date.
pub(crate) fn is_date_kept(alloc: Global, typed: &Typed, date: i32) -> Result<bool, NoMemory>
    ensures { IfOk result (λ b. b ≡ keeps (query_of typed.now.query.now).phrases date) }
{
    let phrases = typed.query.phrases.as_slice();
    let is_kept = qsql_dates::keeps(alloc, phrases, date)?;
    Ok(is_kept)
}
