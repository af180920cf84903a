//! Queries that fit a schema.
ghost use Rattle.qsql_request.specs.Views.{query_of};
ghost use Rattle.qsql_eval.specs.Judgement.{IsFit};

use day_rows::Shape;
use q_values::{NoMemory, Sym};
use qsql_request::Query;

/// Why a query doesn't fit a schema.
#[derive(Drop)]
pub enum CheckRefusal {
    /// The table, or else the first column in the text, that isn't there.
    NoName(Sym),
    /// A verb doesn't take the kinds that it is given, a phrase isn't boolean, or a `select` without columns has none left
    /// beside its `by` columns. A query with a form that is not built is refused so too.
    WrongType,
    /// Out of memory.
    NoMemory,
}

impl From<NoMemory> for CheckRefusal {
    ghost use Rattle.std.specs.Prelude.{◌≡◌};
    ghost use Rattle.qsql_eval.specs.declared.typed.CheckRefusal.TheVariants as r;

    ghost from_gives = { λ _ e. e ≡ r.NoMemory };

    fn from(_e: NoMemory) -> CheckRefusal {
        CheckRefusal::NoMemory
    }
}

/// A query that fits its table.
#[derive(Drop)]
pub struct Typed<'a> {
    /// The query.
    pub query: &'a Query,
    /// The query's table.
    pub table: &'a Shape,
    pub ghost fit: { IsFit table.now (query_of query.now) },
}
