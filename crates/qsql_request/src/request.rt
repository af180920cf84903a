//! The types of requests.

use q_values::{Names, Sequence, Sym, Value};
use q_verbs::{Verb, Verb1};

/// Columns, in the order of the text.
pub type Cols = Sequence<Col>;

/// Expressions, in the order of the text.
pub type Exprs = Sequence<Expr>;

/// An expression over the rows of a table (Q for Mortals, 4 and 9).
///
/// It is read from right to left without precedence: `a*b+c` is `a*(b+c)`.
pub enum Expr {
    /// A literal: an atom, or a vector of atoms.
    Literal(Value),
    /// A column, by its name.
    Name(Sym),
    /// A verb on its one side.
    One(Verb1, Box<Expr>),
    /// A verb between its left and its right side.
    Two(Verb, Box<Expr>, Box<Expr>),
}

// A loop along the sides at the right, so that a long expression takes little of the stack.
impl Drop for Expr {
    fn drop(mut self) {
        loop {
            match self {
                Expr::Literal(_) => return,
                Expr::Name(_) => return,
                Expr::One(_, side) => self = Box::into_inner(side),
                Expr::Two(_, _, right) => self = Box::into_inner(right),
            }
        }
    }
}

/// A column of a result, with the name that the text gives it.
#[derive(Drop)]
pub struct Col {
    /// The name before `:`, where there is one.
    pub name: Option<Sym>,
    /// What the column holds.
    pub expr: Expr,
}

/// A `select` or an `exec` (Q for Mortals, 9.3).
#[derive(Drop)]
pub struct Query {
    /// Whether it is an `exec`.
    pub exec: bool,
    /// The number in brackets after the verb: the first n rows, or the last n where it is negative.
    pub first: Option<i64>,
    /// The columns; empty for all of them.
    pub columns: Cols,
    /// The columns after `by`; empty where there is no `by`.
    pub by: Cols,
    /// The table.
    pub table: Sym,
    /// The phrases after `where`; empty where there is no `where`.
    pub phrases: Exprs,
}

/// A side of an as-of join.
#[derive(Drop)]
pub enum Source {
    /// A table with all its columns.
    All(Sym),
    /// The rows of a query.
    Of(Box<Query>),
}

/// An as-of join (KX, aj).
#[derive(Drop)]
pub struct AjQuery {
    /// The columns to join on. All but the last must be equal; for the last one the latest row counts.
    pub keys: Names,
    /// The rows of the result.
    pub left: Source,
    /// The rows that are looked up for each row of the left side.
    pub right: Source,
}

/// A subscription (KX, tick).
#[derive(Drop)]
pub struct SubRequest {
    /// The tables as the text names them: one, in a valid subscription. The null symbol means every table.
    pub tables: Names,
    /// Whether the names are the null symbol alone, as an atom.
    pub all: bool,
    /// The symbols whose rows are wanted.
    pub names: Names,
}

/// What a text asks for.
#[derive(Drop)]
pub enum Request {
    /// A query of a table.
    Query(Query),
    /// An as-of join.
    Aj(AjQuery),
    /// The number of updates since the last end of day.
    Count,
    /// The open date.
    Day,
    /// A subscription.
    Sub(SubRequest),
}
