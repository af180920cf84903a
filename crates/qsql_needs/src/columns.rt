//! The columns that a query needs.
ghost use Rattle.std.specs.Prelude.{◌≡◌, ◌==◌, length, map, IfOk};
ghost use Rattle.std.specs.List.{list_any};
ghost use Rattle.std.specs.Str.{bytes_eq};
ghost use Rattle.qsql_request.specs.Names.{names_in};
ghost use Rattle.qsql_request.specs.Views.{form, query_of};
ghost use Rattle.qsql_eval.specs.Judgement.{all_columns};
ghost use Rattle.qsql_eval.specs.Views.{needed};

use day_rows::Shape;
use q_values::{NoMemory, Sym};
use qsql_eval::Typed;
use qsql_request::{Expr, names_of_query, push_names};
use std::alloc::Global;
use std::marker::Model;

/// The columns that a query needs, as a list of their names: those that it names and, where it shows all columns, `date`
/// and those of its table.
#[derive(Drop)]
pub struct Needed<'a> {
    // the names in the query
    names: Vec<&'a Sym>,
    // whether the query shows all columns
    every: bool,
    // the query's table
    table: &'a Shape,
}

impl<'a> Model for Needed<'a> {
    ghost use Rattle.std.specs.Prelude.{ℕ, List, map};
    ghost use Rattle.qsql_needs.specs.Named.{names_or_all};

    ghost Value = { List (List ℕ) };

    ghost view = { λ w. names_or_all (map (λ n. n.now) w.names.items) w.every w.table.now };
}

// Whether one of the symbols has this name.
fn is_lent(names: &[&Sym], name: &[u8]) -> bool
    ensures { result ≡ list_any (bytes_eq name.now) (map (λ n. n.now) names.now) }
{
    for other in names {
        if name == other.bytes() {
            return true;
        }
    }
    false
}

// Whether one of the symbols is this name.
fn is_among(names: &[Sym], name: &[u8]) -> bool
    ensures { result ≡ list_any (bytes_eq name.now) names.now }
{
    for other in names {
        if name == other.bytes() {
            return true;
        }
    }
    false
}

// Whether a query that shows all columns of the table shows this one.
fn is_shown(table: &Shape, name: &[u8]) -> bool
    ensures { result ≡ list_any (bytes_eq name.now) (all_columns table.now) }
{
    name == b"date".as_slice() || is_among(table.names.as_slice(), name)
}

impl<'a> Needed<'a> {
    /// The columns of the table that an expression names, each as often as it does.
    #[tactic(auto, using(crate::proofs::NeededLemmas::named_only))]
    pub fn of_expr(alloc: Global, expr: &'a Expr, table: &'a Shape) -> Result<Needed<'a>, NoMemory>
        ensures { IfOk result (λ w. w ≡ names_in (form expr.now)) }
    {
        let mut names = Vec::new(alloc);
        push_names(&mut names, expr)?;
        Ok(Needed {
            names,
            every: false,
            table,
        })
    }

    /// Whether no column is needed.
    #[tactic(auto, using(crate::proofs::NeededLemmas::some_needed, crate::proofs::NeededLemmas::as_many))]
    pub fn is_empty(&self) -> bool
        ensures { result ≡ (length self.now == 0) }
    {
        !self.every && self.names.is_empty()
    }

    /// Whether the column with this name is needed.
    #[tactic(auto, using(crate::proofs::NeededLemmas::has_every, crate::proofs::NeededLemmas::has_named))]
    pub fn has(&self, name: &[u8]) -> bool
        ensures { result ≡ list_any (bytes_eq name.now) self.now }
    {
        if self.every {
            return is_shown(self.table, name) || is_lent(&self.names, name);
        }
        is_lent(&self.names, name)
    }
}

/// The columns that a query needs.
pub(crate) fn needed_by<'a>(alloc: Global, typed: &Typed<'a>) -> Result<Needed<'a>, NoMemory>
    ensures { IfOk result (λ w. w ≡ needed (query_of typed.now.query.now) typed.now.table.now) }
{
    let names = names_of_query(alloc, typed.query)?;
    Ok(Needed {
        names,
        every: typed.query.columns.is_empty(),
        table: typed.table,
    })
}
