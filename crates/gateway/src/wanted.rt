//! The columns that are read for a query, or for one of its phrases.
ghost use Rattle.std.specs.Prelude.{◌≡◌, IfOk};
ghost use Rattle.qsql_request.specs.Names.{names_in};
ghost use Rattle.qsql_request.specs.Views.{form, query_of};
ghost use Rattle.qsql_eval.specs.Views.{needed};
ghost use Rattle.gateway.specs.Needs.{is_wanted};

use day_rows::Shape;
use q_values::NoMemory;
use qsql_eval::Typed;
use qsql_needs::{Needed, Reads};
use qsql_request::Expr;
use std::alloc::Global;
use std::marker::Model;

/// The columns that are read for a query: those that it needs, or `date` where it needs none, so that the rows are counted.
#[derive(Drop)]
pub struct Wanted<'a> {
    needed: Needed<'a>,
}

impl<'a> Model for Wanted<'a> {
    ghost use Rattle.std.specs.Prelude.{ℕ, List};

    ghost Value = { List (List ℕ) };

    ghost view = { λ w. w.needed };
}

impl<'a> Wanted<'a> {
    /// The columns that are read for this query.
    pub fn of(alloc: Global, typed: &Typed<'a>) -> Result<Wanted<'a>, NoMemory>
        ensures { IfOk result (λ w. w ≡ needed (query_of typed.now.query.now) typed.now.table.now) }
    {
        let needed = typed.needs(alloc)?;
        Ok(Wanted { needed })
    }

    /// The columns that are read for this phrase of a query of the table.
    pub fn of_phrase(
        alloc: Global,
        phrase: &'a Expr,
        table: &'a Shape,
    ) -> Result<Wanted<'a>, NoMemory>
        ensures { IfOk result (λ w. w ≡ names_in (form phrase.now)) }
    {
        let needed = Needed::of_expr(alloc, phrase, table)?;
        Ok(Wanted { needed })
    }

    /// Whether the column with this name is read.
    #[tactic(auto, using(crate::proofs::WantedLemmas::wanted_none, crate::proofs::WantedLemmas::wanted_some))]
    pub fn has(&self, name: &[u8]) -> bool
        ensures { result ≡ is_wanted self.now name.now }
    {
        if self.needed.is_empty() {
            return name == b"date".as_slice();
        }
        self.needed.has(name)
    }
}
