//! The columns that a side of an as-of join shows: their names and kinds.
ghost use Rattle.std.specs.Prelude.{◌≡◌, map, IfOk, unwrap_or, None};
ghost use Rattle.qsql_request.specs.Unbuilt.{column_name};
ghost use Rattle.qsql_request.specs.Views.{column_form, query_of};
ghost use Rattle.qsql_values.specs.Beside.{beside};
ghost use Rattle.qsql_values.specs.Kinds.{column_kind, kind_in};
ghost use Rattle.qsql_eval.specs.Judgement.{all_columns};
ghost use Rattle.asof_join.specs.Sources.{shown_names, shown_kinds};

use day_rows::Shape;
use q_values::{Kind, Names, NoMemory, Sym};
use qsql_request::{Col, Query, name_of_column};
use qsql_values::{item_beside, kind_of_column, kind_of_expr};
use std::alloc::Global;

/// The names of some columns, and the kind of each; none where a verb doesn't take its sides.
#[derive(Drop)]
pub(crate) struct Shown {
    pub names: Names,
    pub kinds: Vec<Option<Kind>>,
}

// The names of all columns of a table, `date` first.
fn every_name(alloc: Global, table: &Shape) -> Result<Names, NoMemory>
    ensures { IfOk result (λ v. v ≡ all_columns table.now) }
{
    let mut names = Names::new(alloc);
    names.push(Sym::copied(alloc, b"date")?)?;
    for name in table.names.as_slice() {
        names.push(Sym::copied(alloc, name.bytes())?)?;
    }
    Ok(names)
}

fn names_of(alloc: Global, columns: &[Col]) -> Result<Names, NoMemory>
    ensures { IfOk result (λ v. v ≡ map column_name (map column_form columns.now)) }
{
    let mut names = Names::new(alloc);
    for column in columns {
        names.push(Sym::copied(alloc, name_of_column(column))?)?;
    }
    Ok(names)
}

// The kinds of a table's columns with these names.
fn kinds_named(alloc: Global, table: &Shape, names: &[Sym]) -> Result<Vec<Option<Kind>>, NoMemory>
    ensures { IfOk result (λ v. v.items ≡ map (column_kind table.now) names.now) }
{
    let mut kinds = Vec::new(alloc);
    for name in names {
        kinds.push(kind_of_column(table, name.bytes()))?;
    }
    Ok(kinds)
}

fn kinds_of(alloc: Global, table: &Shape, columns: &[Col]) -> Result<Vec<Option<Kind>>, NoMemory>
    ensures { IfOk result (λ v. v.items ≡ map (λ c. kind_in (column_kind table.now) c.expr) (map column_form columns.now)) }
{
    let mut kinds = Vec::new(alloc);
    for column in columns {
        kinds.push(kind_of_expr(table, &column.expr))?;
    }
    Ok(kinds)
}

/// The columns that a query of this table shows.
pub(crate) fn shown_by(alloc: Global, query: &Query, table: &Shape) -> Result<Shown, NoMemory>
    ensures names { IfOk result (λ s. s.names ≡ shown_names (query_of query.now) table.now) }
    ensures kinds { IfOk result (λ s. s.kinds.items ≡ shown_kinds (query_of query.now) table.now) }
{
    let columns = query.columns.as_slice();
    if query.columns.is_empty() {
        let names = every_name(alloc, table)?;
        let kinds = kinds_named(alloc, table, names.as_slice())?;
        Ok(Shown { names, kinds })
    } else {
        let names = names_of(alloc, columns)?;
        let kinds = kinds_of(alloc, table, columns)?;
        Ok(Shown { names, kinds })
    }
}

impl Shown {
    /// The kind of the column with this name.
    pub fn kind(&self, name: &[u8]) -> Option<Kind>
        ensures { result ≡ unwrap_or (beside name.now self.now.names self.now.kinds.items) None }
    {
        match item_beside(name, self.names.as_slice(), &self.kinds) {
            Some(kind) => *kind,
            None => None,
        }
    }
}
