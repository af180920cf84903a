//! The columns that a join adds: items of the right table's columns, and nulls.
ghost use Rattle.std.specs.Prelude.{◌≡◌, IfOk};
ghost use Rattle.asof_join.specs.Asof.{column_as_of};

use q_grouped::column_at;
use q_values::{NoMemory, Vector};
use std::alloc::Global;

/// The items of a column at these indices, and the null of its kind for no index.
pub(crate) fn items_as_of(
    alloc: Global,
    column: &Vector,
    indices: &[Option<usize>],
) -> Result<Vector, NoMemory>
    ensures { IfOk result (λ v. v ≡ column_as_of indices.now column.now) }
{
    Ok(Vector::from_column(column_at(alloc, column.column(), indices)?))
}
