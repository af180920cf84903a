//! The rows of a table, as a query needs them.
ghost use Rattle.std.specs.Prelude.{◌≡◌, ◌<◌, ◌≤◌, ◌++◌, ◌∷◌, [], if◌then◌else◌, length, map, codes, slice_get, Some, All, OnOk, IfOk, option_copied};
ghost use Rattle.std.specs.List.{filter};
ghost use Rattle.day_rows.specs.Rows.{column_of};
ghost use Rattle.plant_memory.specs.Memory.{HasColumn};
ghost use Rattle.q_values.specs.Bytes.{HasNoNul};
ghost use Rattle.qsql_values.specs.Frames.{AreWithin};
ghost use Rattle.gateway.specs.DateRows.{AreDates, rows_on};
ghost use Rattle.gateway.specs.Kept.{column_part, table_names, part_columns};
ghost use Rattle.gateway.specs.Needs.{is_wanted, chosen};
ghost use Rattle.gateway.specs.TableRows.{dates_of_rows, numbers_on};

use crate::columns::{date_column, number_column, whole_column};
use crate::wanted::Wanted;
use day_rows::Shape;
use plant_memory::Snapshot;
use q_values::{Columns, Kind, Names, NoMemory, Sym, Vector};
use qsql_eval::Rows;
use std::alloc::Global;

/// Rows of a table: those on some dates, or of these the ones at some indices.
#[derive(Drop)]
pub struct Part<'a> {
    /// The table's index in the schema.
    pub index: u32,
    /// The indices of the dates.
    pub dates: &'a [usize],
    /// The indices of the rows among those on these dates, where they aren't all of them.
    pub places: Option<&'a [usize]>,
}

// Puts the name at the end, where its column is wanted.
fn push_name(alloc: Global, names: &mut Names, name: &[u8], wanted: &Wanted) -> Result<(), NoMemory>
    requires { HasNoNul name.now }
    ensures { OnOk result (names.new ≡ names.old ++ filter (is_wanted wanted.now) (name.now ∷ [])) }
{
    if wanted.has(name) {
        names.push(Sym::copied(alloc, name)?)?;
    }
    Ok(())
}

// The names of the columns that are wanted.
fn names_of(alloc: Global, table: &Shape, wanted: &Wanted) -> Result<Names, NoMemory>
    ensures { IfOk result (λ names. names ≡ filter (is_wanted wanted.now) (table_names table.now)) }
{
    let mut names = Names::new(alloc);
    push_name(alloc, &mut names, b"date", wanted)?;
    push_name(alloc, &mut names, b"i", wanted)?;
    for i in 0..table.names.len() {
        push_name(alloc, &mut names, table.names.at(i).bytes(), wanted)?;
    }
    Ok(names)
}

// The items of a column at these indices, or the column itself where there are none.
fn at_places(alloc: Global, column: Vector, places: &Option<&[usize]>) -> Result<Vector, NoMemory>
    requires { AreWithin (length column.atoms) (option_copied places.now) }
    ensures { IfOk result (λ v. v ≡ column_part (option_copied places.now) column) }
{
    match places {
        Some(places) => column.gather(alloc, places),
        None => Ok(column),
    }
}

// The column `i` of these rows.
fn numbers_of(alloc: Global, snapshot: &Snapshot, part: &Part) -> Result<Vector, NoMemory>
    requires table { part.now.index < length snapshot.now.frame.schema }
    requires dates { AreDates snapshot.now.frame.first snapshot.now.entries part.now.dates.now }
    requires places { AreWithin (length (rows_on part.now.dates.now snapshot.now.frame.first snapshot.now.entries part.now.index))
        (option_copied part.now.places) }
    ensures { IfOk result (λ v. v ≡ column_part (option_copied part.now.places)
        (numbers_on part.now.dates.now snapshot.now.frame.first snapshot.now.entries part.now.index)) }
{
    let numbers = number_column(alloc, snapshot, part.dates, part.index)?;
    let found = at_places(alloc, numbers, &part.places)?;
    Ok(found)
}

// The columns `date` and `i`, as far as they are wanted.
fn virtual_columns(
    alloc: Global,
    snapshot: &Snapshot,
    part: &Part,
    wanted: &Wanted,
) -> Result<Columns, NoMemory>
    requires table { part.now.index < length snapshot.now.frame.schema }
    requires dates { AreDates snapshot.now.frame.first snapshot.now.entries part.now.dates.now }
    requires places { AreWithin (length (rows_on part.now.dates.now snapshot.now.frame.first snapshot.now.entries part.now.index))
        (option_copied part.now.places) }
    ensures { IfOk result (λ columns. columns ≡ map (column_part (option_copied part.now.places))
        (chosen (is_wanted wanted.now) (codes "date" ∷ codes "i" ∷ [])
        (dates_of_rows (rows_on part.now.dates.now snapshot.now.frame.first snapshot.now.entries part.now.index)
        ∷ numbers_on part.now.dates.now snapshot.now.frame.first snapshot.now.entries part.now.index ∷ []))) }
{
    let mut columns = Columns::new(alloc);
    if wanted.has(b"date") {
        let dates = date_column(alloc, snapshot, part.dates, part.index)?;
        columns.push(at_places(alloc, dates, &part.places)?)?;
    }
    if wanted.has(b"i") {
        columns.push(numbers_of(alloc, snapshot, part)?)?;
    }
    Ok(columns)
}

// Puts a column of the table at the end, where it is wanted.
fn push_column(
    alloc: Global,
    columns: &mut Columns,
    snapshot: &Snapshot,
    part: &Part,
    place: (u32, Kind),
    is_wanted: bool,
) -> Result<(), NoMemory>
    requires dates { AreDates snapshot.now.frame.first snapshot.now.entries part.now.dates.now }
    requires places { AreWithin (length (rows_on part.now.dates.now snapshot.now.frame.first snapshot.now.entries part.now.index))
        (option_copied part.now.places) }
    requires table { part.now.index < length snapshot.now.frame.schema }
    requires exists { HasColumn snapshot.now.frame.schema part.now.index place.0 place.1 }
    ensures { OnOk result (columns.new ≡ columns.old
        ++ map (column_part (option_copied part.now.places)) (if is_wanted
        then column_of place.1 place.0 (rows_on part.now.dates.now snapshot.now.frame.first snapshot.now.entries part.now.index) ∷ []
        else [])) }
{
    if !is_wanted {
        return Ok(());
    }
    let column = whole_column(alloc, snapshot, part.dates, part.index, place.0, place.1)?;
    columns.push(at_places(alloc, column, &part.places)?)
}

// The columns that are wanted, of these rows. Each is read whole, and only one at a time.
fn columns_of(
    alloc: Global,
    table: &Shape,
    snapshot: &Snapshot,
    part: &Part,
    wanted: &Wanted,
) -> Result<Columns, NoMemory>
    requires dates { AreDates snapshot.now.frame.first snapshot.now.entries part.now.dates.now }
    requires places { AreWithin (length (rows_on part.now.dates.now snapshot.now.frame.first snapshot.now.entries part.now.index))
        (option_copied part.now.places) }
    requires table { slice_get snapshot.now.frame.schema part.now.index ≡ Some table.now }
    requires named { length table.now.names ≡ length table.now.kinds }
    requires few { length table.now.names ≤ 48 }
    ensures { IfOk result (λ columns. columns ≡ part_columns (option_copied part.now.places) wanted.now
        part.now.dates.now snapshot.now.frame.first snapshot.now.entries part.now.index table.now) }
{
    let mut columns = virtual_columns(alloc, snapshot, part, wanted)?;
    for i in 0..table.names.len() {
        let kind = *table.kinds.at(i);
        let name = table.names.at(i);
        let is_made = wanted.has(name.bytes());
        push_column(
            alloc,
            &mut columns,
            snapshot,
            part,
            (i as u32, kind),
            is_made,
        )?;
    }
    Ok(columns)
}

/// These rows of the table, which is one of the snapshot's schema: of their columns those that are wanted.
pub fn rows_of_part(
    alloc: Global,
    table: &Shape,
    snapshot: &Snapshot,
    part: &Part,
    wanted: &Wanted,
) -> Result<Rows, NoMemory>
    requires dates { AreDates snapshot.now.frame.first snapshot.now.entries part.now.dates.now }
    requires places { AreWithin (length (rows_on part.now.dates.now snapshot.now.frame.first snapshot.now.entries part.now.index))
        (option_copied part.now.places) }
    requires table { slice_get snapshot.now.frame.schema part.now.index ≡ Some table.now }
    requires named { length table.now.names ≡ length table.now.kinds }
    requires few { length table.now.names ≤ 48 }
    ensures names { IfOk result (λ r. r.names ≡ filter (is_wanted wanted.now) (table_names table.now)) }
    ensures columns { IfOk result (λ r. r.columns ≡ part_columns (option_copied part.now.places) wanted.now
        part.now.dates.now snapshot.now.frame.first snapshot.now.entries part.now.index table.now) }
{
    let names = names_of(alloc, table, wanted)?;
    let columns = columns_of(alloc, table, snapshot, part, wanted)?;
    Ok(Rows { names, columns })
}

/// The rows of the table at these indices among those on these dates: of their columns those that are wanted.
pub fn rows_at_places(
    alloc: Global,
    table: &Shape,
    snapshot: &Snapshot,
    dates: &[usize],
    index: u32,
    places: &[usize],
    wanted: &Wanted,
) -> Result<Rows, NoMemory>
    requires dates { AreDates snapshot.now.frame.first snapshot.now.entries dates.now }
    requires places { All (λ p. p < length (rows_on dates.now snapshot.now.frame.first snapshot.now.entries index)) places.now }
    requires table { slice_get snapshot.now.frame.schema index ≡ Some table.now }
    requires named { length table.now.names ≡ length table.now.kinds }
    requires few { length table.now.names ≤ 48 }
    ensures names { IfOk result (λ r. r.names ≡ filter (is_wanted wanted.now) (table_names table.now)) }
    ensures columns { IfOk result (λ r. r.columns ≡ part_columns (Some places.now) wanted.now
        dates.now snapshot.now.frame.first snapshot.now.entries index table.now) }
{
    let part = Part {
        index,
        dates,
        places: Some(places),
    };
    let rows = rows_of_part(alloc, table, snapshot, &part, wanted)?;
    Ok(rows)
}
