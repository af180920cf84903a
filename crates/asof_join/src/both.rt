//! The key columns of both sides of a join, one after the other.
ghost use Rattle.std.specs.Prelude.{◌≡◌, ◌++◌, map, IfOk, OnOk, IsSome, All};
ghost use Rattle.qsql_values.specs.Beside.{beside};
ghost use Rattle.asof_join.specs.Asof.{column_named};
ghost use Rattle.asof_join.specs.Heads.{IsKey, both_atoms};
ghost use Rattle.asof_join.specs.Views.{grid_in};

use q_values::{NoMemory, Sym, TableValue, Vector, VectorRefusal};
use qsql_values::item_beside;
use std::alloc::Global;

// Puts the items of another column of the same kind at the end.
fn append(items: &mut Vector, more: &Vector) -> Result<(), NoMemory>
    requires { more.now.kind ≡ items.old.kind }
    ensures { OnOk result (items.new ≡ record items.old { atoms = items.old.atoms ++ more.now.atoms }) }
{
    match items.append(more) {
        Ok(()) => Ok(()),
        Err(VectorRefusal::NoMemory) => Err(NoMemory),
        Err(VectorRefusal::KindMismatch) => unreachable!(),
    }
}

/// The items of both columns, which have one kind.
pub(crate) fn appended(alloc: Global, left: &Vector, right: &Vector) -> Result<Vector, NoMemory>
    requires { right.now.kind ≡ left.now.kind }
    ensures { IfOk result (λ v. v.atoms ≡ left.now.atoms ++ right.now.atoms) }
{
    let mut both = Vector::new(alloc, left.kind());
    both.reserve(left.len().saturating_add(right.len()))?;
    append(&mut both, left)?;
    append(&mut both, right)?;
    Ok(both)
}

/// The table's column with this name.
pub(crate) fn column_named<'a>(table: &'a TableValue, name: &[u8]) -> &'a Vector
    requires { IsSome (beside name.now table.now.names table.now.columns) }
    ensures { result.now ≡ column_named (grid_in table.now) name.now }
{
    match item_beside(name, table.names.as_slice(), table.columns.as_slice()) {
        Some(column) => column,
        None => unreachable!(),
    }
}

/// The columns with these names, of both tables together.
pub(crate) fn both_columns(
    alloc: Global,
    names: &[Sym],
    left: &TableValue,
    right: &TableValue,
) -> Result<Vec<Vector>, NoMemory>
    requires { All (IsKey (grid_in left.now) (grid_in right.now)) names.now }
    ensures { IfOk result (λ v. map (λ c. c.atoms) v.items ≡ map (both_atoms (grid_in left.now) (grid_in right.now)) names.now) }
{
    let mut columns = Vec::new(alloc);
    for name in names {
        let of_left = column_named(left, name.bytes());
        let of_right = column_named(right, name.bytes());
        columns.push(appended(alloc, of_left, of_right)?)?;
    }
    Ok(columns)
}
