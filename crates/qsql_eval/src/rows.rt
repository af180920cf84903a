//! The rows of a query's table.
ghost use Rattle.std.specs.Prelude.{◌≡◌, IfOk, IfSome, IfNone, map};
ghost use Rattle.std.specs.List.{list_all};
ghost use Rattle.q_values.specs.Table.{rows_of};
ghost use Rattle.qsql_request.specs.Views.{query_of};
ghost use Rattle.qsql_values.specs.Beside.{beside};
ghost use Rattle.qsql_values.specs.Frames.{AreColumns, frame_of, kind_beside, are_of_size};
ghost use Rattle.qsql_eval.specs.Judgement.{all_columns};
ghost use Rattle.qsql_eval.specs.Views.{is_kind, has_column, has_columns};

use crate::typed::Typed;
use day_rows::Shape;
use q_values::{Columns, Kind, Names, NoMemory, Sym, Vector};
use qsql_request::names_of_query;
use qsql_values::{item_beside, kind_of_column};
use std::alloc::Global;

/// Rows, as named columns of one length: those of a table in the documented order, with `date` and `i` where a query names
/// them.
#[derive(Drop)]
pub struct Rows {
    /// A name for each column.
    pub names: Names,
    /// The columns.
    pub columns: Columns,
    pub ghost even: { AreColumns names columns },
}

fn are_of_size(columns: &[Vector], size: usize) -> bool
    ensures { result ≡ are_of_size size columns.now }
{
    for column in columns {
        if column.len() != size {
            return false;
        }
    }
    true
}

fn size_of(columns: &[Vector]) -> usize
    ensures { result ≡ rows_of columns.now }
{
    match columns.first() {
        Some(column) => column.len(),
        None => 0,
    }
}

impl Rows {
    /// Rows of these columns; `None` where there isn't a name for each, or where they have not one length.
    #[tactic(auto, using(crate::proofs::FrameRules::evenness))]
    pub fn new(names: Names, columns: Columns) -> Option<Rows>
        ensures names { IfSome result (λ r. r.names ≡ names) }
        ensures columns { IfSome result (λ r. r.columns ≡ columns) }
        ensures none { IfNone result (AreColumns names columns → ⊥) }
    {
        let size = size_of(columns.as_slice());
        if names.len() == columns.len() && are_of_size(columns.as_slice(), size) {
            Some(Rows { names, columns })
        } else {
            None
        }
    }
}

// The kind of the column with this name.
#[tactic(auto, using(crate::proofs::FrameRules::kinds))]
fn kind_named(name: &[u8], names: &[Sym], columns: &[Vector]) -> Option<Kind>
    ensures { result ≡ beside name.now names.now (map (λ c. c.kind) columns.now) }
{
    match item_beside(name, names, columns) {
        Some(column) => Some(column.kind()),
        None => None,
    }
}

fn is_wanted(wanted: Option<Kind>, there: Option<Kind>) -> bool
    ensures { result ≡ is_kind wanted there }
{
    match (wanted, there) {
        (Some(kind), Some(other)) => kind == other,
        _ => false,
    }
}

fn has_column_named(table: &Shape, rows: &Rows, name: &[u8]) -> bool
    ensures { result ≡ has_column table.now (kind_beside (frame_of rows.now.names rows.now.columns)) name.now }
{
    let there = kind_named(name, rows.names.as_slice(), rows.columns.as_slice());
    is_wanted(kind_of_column(table, name), there)
}

fn have_columns(table: &Shape, rows: &Rows, names: &[&Sym]) -> bool
    ensures { result ≡ list_all (has_column table.now (kind_beside (frame_of rows.now.names rows.now.columns))) (map (λ n. n.now) names.now) }
{
    for name in names {
        if !has_column_named(table, rows, name.bytes()) {
            return false;
        }
    }
    true
}

fn have_every_column(table: &Shape, rows: &Rows) -> bool
    ensures { result ≡ list_all (has_column table.now (kind_beside (frame_of rows.now.names rows.now.columns))) (all_columns table.now) }
{
    if !has_column_named(table, rows, b"date") {
        return false;
    }
    for name in table.names.as_slice() {
        if !has_column_named(table, rows, name.bytes()) {
            return false;
        }
    }
    true
}

impl<'a> Typed<'a> {
    /// Whether the rows have the columns that [`crate::eval`] needs, each of the kind that the table gives it.
    pub fn fits(&self, alloc: Global, rows: &Rows) -> Result<bool, NoMemory>
        ensures { IfOk result (λ b. b
            ≡ has_columns self.now.table.now (query_of self.now.query.now) (frame_of rows.now.names rows.now.columns)) }
    {
        let names = names_of_query(alloc, self.query)?;
        let named = have_columns(self.table, rows, &names);
        let every = !self.query.columns.is_empty() || have_every_column(self.table, rows);
        Ok(named && every)
    }
}
