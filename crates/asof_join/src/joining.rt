//! The as-of join of two tables.
ghost use Rattle.std.specs.Prelude.{◌≡◌, ◌<◌, ◌+◌, ◌++◌, length, take, drop, map, IsSome, IfOk, OnOk, All};
ghost use Rattle.qsql_request.specs.Views.{aj_of};
ghost use Rattle.q_values.specs.Table.{rows_of};
ghost use Rattle.qsql_values.specs.Beside.{beside};
ghost use Rattle.asof_join.specs.Asof.{added_names, column_named, column_as_of, keyed_rows, rows_as_of, asof};
ghost use Rattle.asof_join.specs.Heads.{IsKey};
ghost use Rattle.asof_join.specs.Lines.{AreFound};
ghost use Rattle.asof_join.specs.Sources.{query_of_source, IsSource};
ghost use Rattle.asof_join.specs.Views.{grid_in};

use crate::both::column_named;
use crate::checking::is_added;
use crate::columns::items_as_of;
use crate::heads::Heads;
use crate::lasts::Lasts;
use crate::line::Line;
use crate::merge::rows_found;
use crate::typed::AjTyped;
use q_values::{Columns, Names, NoMemory, Sym, TableValue, Vector};
use std::alloc::Global;

// The rows of the right side that hold at those of the left one, from the numbers of their groups (of the left side and then
// of the right one) and of their last keys. Rows are told apart by group where those of the right side aren't in order
// without.
fn numbered_rows(
    alloc: Global,
    codes: &[u32],
    groups: usize,
    left: &[i64],
    right: &[i64],
) -> Result<Vec<Option<usize>>, NoMemory>
    requires size { length codes.now ≡ length left.now + length right.now }
    requires within { All (λ c. c < groups) codes.now }
    ensures { IfOk result (λ v. AreFound
        (record { codes = drop (length left.now) codes.now; numbers = right.now })
        (record { codes = take (length left.now) codes.now; numbers = left.now }) v.items) }
{
    let (of_left, of_right) = codes.split_at(left.len());
    let by_group = !right.is_sorted();
    let left = Line {
        codes: of_left,
        numbers: left,
        by_group,
    };
    let right = Line {
        codes: of_right,
        numbers: right,
        by_group,
    };
    rows_found(alloc, &left, &right, groups)
}

// For each row of the left table the row of the right one that holds at its keys.
fn found_rows(
    alloc: Global,
    keys: &[Sym],
    left: &TableValue,
    right: &TableValue,
) -> Result<Vec<Option<usize>>, NoMemory>
    requires some { 0 < length keys.now }
    requires keys { All (IsKey (grid_in left.now) (grid_in right.now)) keys.now }
    ensures rows { IfOk result (λ v. v.items ≡ rows_as_of (keyed_rows keys.now (grid_in left.now)) (keyed_rows keys.now (grid_in right.now))) }
    ensures size { IfOk result (λ v. length v.items ≡ rows_of left.now.columns) }
{
    let last = keys.len() - 1;
    let name = keys[last].bytes();
    let lasts = Lasts::of(alloc, column_named(left, name), column_named(right, name))?;
    let heads = Heads::of(alloc, &keys[..last], left, right)?;
    numbered_rows(
        alloc,
        heads.codes(),
        heads.groups(),
        lasts.left.as_slice(),
        lasts.right.as_slice(),
    )
}

fn copied_names(alloc: Global, names: &[Sym]) -> Result<Names, NoMemory>
    ensures { IfOk result (λ v. v ≡ names.now) }
{
    let mut copied = Names::with_capacity(alloc, names.len())?;
    for name in names {
        copied.push(Sym::copied(alloc, name.bytes())?)?;
    }
    Ok(copied)
}

// Puts the names of the columns that the join adds at the end.
fn push_added_names(
    alloc: Global,
    shown: &mut Names,
    keys: &[Sym],
    names: &[Sym],
) -> Result<(), NoMemory>
    ensures { OnOk result (shown.new ≡ shown.old ++ added_names keys.now names.now) }
{
    for name in names {
        if is_added(keys, name.bytes()) {
            shown.push(Sym::copied(alloc, name.bytes())?)?;
        }
    }
    Ok(())
}

fn copied_columns(alloc: Global, columns: &[Vector]) -> Result<Columns, NoMemory>
    ensures { IfOk result (λ v. v ≡ columns.now) }
{
    let mut copied = Columns::with_capacity(alloc, columns.len())?;
    for column in columns {
        copied.push(column.take(alloc, 0, column.len())?)?;
    }
    Ok(copied)
}

// The names of the columns that the join adds.
fn added_of(alloc: Global, keys: &[Sym], names: &[Sym]) -> Result<Names, NoMemory>
    ensures { IfOk result (λ v. v ≡ added_names keys.now names.now) }
{
    let mut added = Names::new(alloc);
    push_added_names(alloc, &mut added, keys, names)?;
    Ok(added)
}

// Puts the columns with these names at the end, with their items at these rows.
fn push_columns(
    alloc: Global,
    shown: &mut Columns,
    right: &TableValue,
    names: &[Sym],
    found: &[Option<usize>],
) -> Result<(), NoMemory>
    requires { All (λ name. IsSome (beside name right.now.names right.now.columns)) names.now }
    ensures { OnOk result (shown.new ≡ shown.old ++ map (λ name. column_as_of found.now (column_named (grid_in right.now) name)) names.now) }
{
    for name in names {
        let column = column_named(right, name.bytes());
        shown.push(items_as_of(alloc, column, found)?)?;
    }
    Ok(())
}

/// The as-of join of two tables, which have the columns that `check_aj` found for the two sides (KX, aj). For each row of the
/// left one, in order, the row of the right one counts that is equal to it in all keys but the last, and has the greatest last
/// key that isn't above its own; of several the last one. The result has the left table's columns, and then those of the
/// right one that are no keys, other than `date`, at these rows. Where there is no such row, they have nulls.
pub fn aj(
    alloc: Global,
    typed: &AjTyped,
    left: &TableValue,
    right: &TableValue,
) -> Result<TableValue, NoMemory>
    requires left { IsSource typed.now.left_table.now (query_of_source (aj_of typed.now.query.now).left) (grid_in left.now) }
    requires right { IsSource typed.now.right_table.now (query_of_source (aj_of typed.now.query.now).right) (grid_in right.now) }
    ensures { IfOk result (λ t. grid_in t ≡ asof typed.now.query.now.keys (grid_in left.now) (grid_in right.now)) }
{
    let keys = typed.query.keys.as_slice();
    let found = found_rows(alloc, keys, left, right)?;
    let mut names = copied_names(alloc, left.names.as_slice())?;
    push_added_names(alloc, &mut names, keys, right.names.as_slice())?;
    let added = added_of(alloc, keys, right.names.as_slice())?;
    let mut columns = copied_columns(alloc, left.columns.as_slice())?;
    push_columns(alloc, &mut columns, right, added.as_slice(), &found)?;
    Ok(TableValue { names, columns })
}
