//! The columns that a query names.
ghost use Rattle.std.specs.Prelude.{◌≡◌, ◌++◌, map, OnOk, IfOk};
ghost use Rattle.qsql_request.specs.Views.{form, column_form, query_of};
ghost use Rattle.qsql_request.specs.Names.{names_in, names_in_columns, names_in_phrases, names_of};

use crate::request::{Col, Expr, Query};
use q_values::{NoMemory, Sym};
use std::alloc::Global;

/// Appends the columns that the expression names, each as often as it does, in the order of the text.
pub fn push_names<'a>(names: &mut Vec<&'a Sym>, expr: &'a Expr) -> Result<(), NoMemory>
    ensures { OnOk result (map (λ n. n.now) names.new.items
        ≡ map (λ n. n.now) names.old.items ++ names_in (form expr.now)) }
{
    match expr {
        Expr::Literal(_) => Ok(()),
        Expr::Name(name) => Ok(names.push(name)?),
        Expr::One(_, side) => push_names(names, side),
        Expr::Two(_, left, right) => {
            push_names(names, left)?;
            push_names(names, right)
        }
    }
}

fn push_names_of_columns<'a>(names: &mut Vec<&'a Sym>, columns: &'a [Col]) -> Result<(), NoMemory>
    ensures { OnOk result (map (λ n. n.now) names.new.items
        ≡ map (λ n. n.now) names.old.items ++ names_in_columns (map column_form columns.now)) }
{
    for column in columns {
        push_names(names, &column.expr)?;
    }
    Ok(())
}

fn push_names_of_phrases<'a>(names: &mut Vec<&'a Sym>, phrases: &'a [Expr]) -> Result<(), NoMemory>
    ensures { OnOk result (map (λ n. n.now) names.new.items
        ≡ map (λ n. n.now) names.old.items ++ names_in_phrases (map form phrases.now)) }
{
    for phrase in phrases {
        push_names(names, phrase)?;
    }
    Ok(())
}

/// The columns that the query names, in the order of its text, each as often as it names it: those of its columns, then
/// those after `by`, then those after `where`.
pub fn names_of_query<'a>(alloc: Global, query: &'a Query) -> Result<Vec<&'a Sym>, NoMemory>
    ensures { IfOk result (λ v. map (λ n. n.now) v.items ≡ names_of (query_of query.now)) }
{
    let mut names = Vec::new(alloc);
    push_names_of_columns(&mut names, query.columns.as_slice())?;
    push_names_of_columns(&mut names, query.by.as_slice())?;
    push_names_of_phrases(&mut names, query.phrases.as_slice())?;
    Ok(names)
}
