//! The requests that texts of the query language make, and which of them are built.
//!
//! A [`Request`] is a [`Query`], an as-of join ([`AjQuery`]), a subscription ([`SubRequest`]), or one of the two calls
//! without arguments. A query's columns and phrases are expressions ([`Expr`]), which are trees: the language reads them
//! from right to left without precedence. [`is_request_unbuilt`] says whether a request has a form that is not built.
//!
//! ```text
//! select high:max price by sym from trade where size>100*lot
//!
//! Query {
//!     exec: false, first: None, table: trade,
//!     columns: [high: One(Max, Name(price))],
//!     by: [Name(sym)],
//!     phrases: [Two(Gt, Name(size), Two(Mul, Literal(100), Name(lot)))],
//! }
//! ```
//!
//! Whether a form is built is decided from the shapes of its values (`shapes`, `judging`) and the names of its columns
//! (`mentions`). The rules are in `specs/Unbuilt.antt`.
//!
//! An evaluator takes from here what an expression's value looks like ([`shape_of_expr`]), what a column of the answer is
//! called ([`name_of_column`]), and which columns a query names ([`names_of_query`]).
//!
//! The crate reads no text (`qsql_parse` does) and runs no query. It knows no schema, so it doesn't find unknown tables or
//! columns, or kinds that a verb doesn't take.
#![tactic(auto)]

mod judging;
mod mentions;
mod names;
mod request;
mod shapes;
mod unbuilt;

pub use judging::shape_of_expr;
pub use mentions::name_of_column;
pub use names::{names_of_query, push_names};
pub use request::{AjQuery, Col, Cols, Expr, Exprs, Query, Request, Source, SubRequest};
pub use shapes::{Shape, is_test};
pub use unbuilt::{is_query_unbuilt, is_request_unbuilt};
