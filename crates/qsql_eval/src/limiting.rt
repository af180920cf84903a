//! The first or the last rows of a result.
ghost use Rattle.std.specs.Prelude.{◌≡◌, IfOk};
ghost use Rattle.qsql_eval.specs.Meaning.{limited_column};
ghost use Rattle.qsql_values.specs.Operands.{contents_of};
ghost use Rattle.qsql_eval.specs.Spans.{IsSpan};

use q_values::{NoMemory, Vector};
use qsql_values::Held;
use std::alloc::Global;

// Where the rows that `[n]` leaves of `size` begin, and how many they are.
fn span_of(first: &Option<i64>, size: usize) -> (usize, usize)
    ensures { IsSpan first.now size result.0 result.1 }
{
    match first {
        None => (0, size),
        Some(n) if *n >= 0 => (0, size.min(n.unsigned_abs() as usize)),
        Some(n) => {
            let from = size.saturating_sub(n.unsigned_abs() as usize);
            (from, size - from)
        }
    }
}

// A copy of the rows of a column that `[n]` leaves.
fn limited(alloc: Global, column: &Vector, first: &Option<i64>) -> Result<Vector, NoMemory>
    ensures { IfOk result (λ v. v ≡ limited_column first.now column.now) }
{
    let (from, count) = span_of(first, column.len());
    let part = column.take(alloc, from, count)?;
    Ok(part)
}

/// The rows of a column that `[n]` leaves; it is copied where it is lent, or where some are left out.
pub fn limited_held(alloc: Global, held: Held, first: &Option<i64>) -> Result<Vector, NoMemory>
    ensures { IfOk result (λ v. v ≡ limited_column first.now (contents_of held.entry)) }
{
    match (held, first) {
        (Held::Made(vector), None) => Ok(vector),
        (held, _) => limited(alloc, held.vector(), first),
    }
}
