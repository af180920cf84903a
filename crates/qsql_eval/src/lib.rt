//! The queries of the language: whether one fits a schema, and its value over rows.
//!
//! [`check`] judges a query by a schema. It finds its table and the columns that it names, and whether each verb takes
//! what it is given, and makes it a [`Typed`] query, which keeps the query and the table by reference.
//!
//! ```text
//! let typed = check(alloc, &query, &schema)?;     // Err(CheckRefusal::NoName(..)) where a column isn't there
//! ```
//!
//! [`eval`] gives the value of a typed query over the [`Rows`] of its table. With `by` the rows are grouped and each
//! column has a value for each group (`qsql_groups`), of which it makes a keyed table or a dictionary (`by_group`).
//!
//! What is found of a query is in `specs/Judgement.antt`, and the value of a query in `specs/Meaning.antt`. The value of an
//! expression and the rows that phrases keep are in the crate `qsql_values`, rows in groups in the crate `qsql_groups`.
//!
//! The crate reads no text (`qsql_parse` does), knows no dates beside the column `date` (whoever makes the rows does), and
//! joins no tables.
#![tactic(auto)]

mod by_group;
mod checking;
mod evaluation;
mod executing;
pub mod laws;
mod limiting;
mod rows;
mod selecting;
mod typed;

pub use checking::check;
pub use evaluation::eval;
pub use rows::Rows;
pub use typed::{CheckRefusal, Typed};
