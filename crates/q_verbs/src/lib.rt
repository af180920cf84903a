//! The verbs of the query language: which kinds they take, the kinds of their results, and the results themselves as
//! definitions (KX, Reference card).
//!
//! A verb is a value of [`Verb`] (two sides, as `+`) or [`Verb1`] (one side, as `sum`). Which kinds it takes, and the
//! kind of its result, is a table: [`result_kind`] and [`result_kind1`] read it, and return `None` where the verb doesn't
//! take the kinds. A crate that reads or judges the text of a query needs no more than this.
//!
//! A side is a column or an atom ([`Side`]). An atom stands for each item beside it, and isn't copied for them; the result
//! is that of the column which repeats it.
//!
//! ```text
//! result_kind(Verb::Add, Kind::Integer, Kind::Date)     // Some(Kind::Date)
//! result_kind(Verb::Like, Kind::Integer, Kind::Date)    // None
//! result_kind1(Verb1::Sum, Kind::Boolean)               // Some(Kind::Integer)
//! ```
//!
//! `specs/` says what each verb makes of its sides, exact at nulls, at the ends of kinds and at zero divisors. The calls
//! that compute stand in the crates above, and cite these definitions: `q_binary` (two sides, item by item), `q_unary`
//! (one side) and `q_matching` (`in`, `within`, `like`).
//!
//! This crate has no loops over columns, doesn't parse, doesn't plan queries, and has no verbs of floats.
#![tactic(auto)]

mod ends;
mod kinds;
mod side;
mod verb;

pub use ends::null_atom;
pub use kinds::{have, result_kind, result_kind1};
pub use side::{Side, rows_of};
pub use verb::{Verb, Verb1};
