//! Parts of updates, and the message of the rows that some parts of a table have together.
ghost use Rattle.std.specs.Prelude.{◌≡◌, ◌<◌, ◌++◌, [], Some, length, map, slice_get, IfOk, OnOk};
ghost use Rattle.std.specs.List.{AllByRecursion, flat_map};
ghost use Rattle.day_rows.specs.Day.{AreColumns};
ghost use Rattle.day_rows.specs.Schema.{IsShape};
ghost use Rattle.pubsub.specs.Parts.{IsPart, IsPassed, HaveSymbols, part_atoms, part_lines};
ghost use Rattle.pubsub.specs.Told.{upd, publication, columns_from, grid_of};

use crate::filter::Filter;
use crate::rows::{Rows, chosen_rows};
use day_rows::Shape;
use outside_api::TapMessage;
use q_values::{Columns, Kind, Names, NoMemory, Sym, TableValue, Vector};
use std::alloc::Global;

/// Some of the rows of an update.
#[derive(Drop)]
pub struct Part<'a> {
    /// The columns of the update.
    pub columns: &'a [Vector],
    /// The rows.
    pub rows: Rows,
}

/// The rows of an update that a filter chooses, or `None` where there are none.
pub fn passed<'a>(
    alloc: Global,
    filter: &Filter,
    columns: &'a [Vector],
) -> Result<Option<Part<'a>>, NoMemory>
    requires { HaveSymbols columns.now }
    ensures { IfOk result (IsPassed filter.now columns.now) }
{
    match chosen_rows(alloc, filter, &columns[1])? {
        None => Ok(None),
        Some(rows) => Ok(Some(Part { columns, rows })),
    }
}

// Puts a vector at the end of another one of its kind.
fn append(whole: &mut Vector, more: &Vector) -> Result<(), NoMemory>
    requires { more.now.kind ≡ whole.old.kind }
    ensures { OnOk result (whole.new ≡ record whole.old { atoms = whole.old.atoms ++ more.now.atoms }) }
{
    match whole.append(more) {
        Ok(()) => Ok(()),
        Err(_) => Err(NoMemory),
    }
}

// The atoms of a column in a part.
fn part_column(
    alloc: Global,
    kinds: &[Kind],
    column: usize,
    part: &Part<'_>,
) -> Result<Vector, NoMemory>
    requires column { column < length kinds.now }
    requires part { IsPart kinds.now part.now }
    ensures kind { IfOk result (λ found. slice_get kinds.now column ≡ Some found.kind) }
    ensures atoms { IfOk result (λ found. found.atoms ≡ part_atoms column part.now) }
{
    let own = &part.columns[column];
    match &part.rows {
        Rows::All => own.take(alloc, 0, own.len()),
        Rows::At(places) => own.gather(alloc, places),
    }
}

// Puts the atoms of a column in a part at the end. Where all rows are in the part, they are copied once.
fn append_part(
    alloc: Global,
    kinds: &[Kind],
    column: usize,
    part: &Part<'_>,
    whole: &mut Vector,
) -> Result<(), NoMemory>
    requires column { column < length kinds.now }
    requires part { IsPart kinds.now part.now }
    requires kind { slice_get kinds.now column ≡ Some whole.old.kind }
    ensures { OnOk result (whole.new ≡ record whole.old { atoms = whole.old.atoms ++ part_atoms column part.now }) }
{
    match &part.rows {
        Rows::All => append(whole, &part.columns[column]),
        Rows::At(_) => {
            let some = part_column(alloc, kinds, column, part)?;
            append(whole, &some)
        }
    }
}

// The number of rows of a part, for making room.
fn count_rows(part: &Part<'_>) -> usize {
    match (&part.rows, part.columns) {
        (Rows::At(places), _) => places.len(),
        (Rows::All, [first, ..]) => first.len(),
        (Rows::All, []) => 0,
    }
}

fn count_all(parts: &[Part<'_>]) -> usize {
    let mut count = 0usize;
    for part in parts {
        count = count.saturating_add(count_rows(part));
    }
    count
}

// The atoms of a column in all parts.
fn joined_column(
    alloc: Global,
    kinds: &[Kind],
    column: usize,
    parts: &[Part<'_>],
) -> Result<Vector, NoMemory>
    requires column { column < length kinds.now }
    requires parts { AllByRecursion (IsPart kinds.now) parts.now }
    ensures kind { IfOk result (λ found. slice_get kinds.now column ≡ Some found.kind) }
    ensures atoms { IfOk result (λ found. found.atoms ≡ flat_map (part_atoms column) parts.now) }
{
    let mut whole = Vector::new(alloc, kinds[column]);
    whole.reserve(count_all(parts))?;
    for part in parts {
        append_part(alloc, kinds, column, part, &mut whole)?;
    }
    Ok(whole)
}

// A column of all parts. Where there is one part, its rows are copied once.
fn whole_column(
    alloc: Global,
    kinds: &[Kind],
    column: usize,
    parts: &[Part<'_>],
) -> Result<Vector, NoMemory>
    requires column { column < length kinds.now }
    requires parts { AllByRecursion (IsPart kinds.now) parts.now }
    ensures kind { IfOk result (λ found. slice_get kinds.now column ≡ Some found.kind) }
    ensures atoms { IfOk result (λ found. found.atoms ≡ flat_map (part_atoms column) parts.now) }
{
    if parts.len() == 1 {
        part_column(alloc, kinds, column, &parts[0])
    } else {
        joined_column(alloc, kinds, column, parts)
    }
}

fn whole_columns(alloc: Global, kinds: &[Kind], parts: &[Part<'_>]) -> Result<Columns, NoMemory>
    requires { AllByRecursion (IsPart kinds.now) parts.now }
    ensures { IfOk result (λ columns. columns ≡ columns_from 0 kinds.now (flat_map part_lines parts.now)) }
{
    let mut columns = Columns::with_capacity(alloc, kinds.len())?;
    for i in 0..kinds.len() {
        columns.push(whole_column(alloc, kinds, i, parts)?)?;
    }
    Ok(columns)
}

fn copy_names(alloc: Global, names: &Names) -> Result<Names, NoMemory>
    ensures { IfOk result (λ copied. copied ≡ names.now) }
{
    let mut copied = Names::with_capacity(alloc, names.len())?;
    for i in 0..names.len() {
        copied.push(Sym::copied(alloc, names.at(i).bytes())?)?;
    }
    Ok(copied)
}

// The rows that these parts of updates of a table have, in order, under the table's names of columns.
fn table_of(alloc: Global, shape: &Shape, parts: &[Part<'_>]) -> Result<TableValue, NoMemory>
    requires shape { IsShape shape.now }
    requires parts { AllByRecursion (IsPart shape.now.kinds) parts.now }
    ensures { IfOk result (λ table. record { names = table.names; columns = table.columns } ≡ grid_of shape.now (flat_map part_lines parts.now)) }
{
    let columns = whole_columns(alloc, shape.kinds.as_slice(), parts)?;
    let names = copy_names(alloc, &shape.names)?;
    Ok(TableValue { names, columns })
}

/// The message of the rows that these parts of updates of a table have, in order.
pub fn message(alloc: Global, shape: &Shape, parts: &[Part<'_>]) -> Result<TapMessage, NoMemory>
    requires shape { IsShape shape.now }
    requires parts { AllByRecursion (IsPart shape.now.kinds) parts.now }
    ensures { IfOk result (λ message. publication message
        ≡ upd shape.now.table (grid_of shape.now (flat_map part_lines parts.now))) }
{
    let rows = table_of(alloc, shape, parts)?;
    let table = Sym::copied(alloc, shape.table.bytes())?;
    Ok(TapMessage::Rows { table, rows })
}

/// A table without rows, with the columns of a table of a schema.
pub fn empty_table(alloc: Global, shape: &Shape) -> Result<TableValue, NoMemory>
    requires { IsShape shape.now }
    ensures { IfOk result (λ table. record { names = table.names; columns = table.columns } ≡ grid_of shape.now []) }
{
    table_of(alloc, shape, &[])
}
