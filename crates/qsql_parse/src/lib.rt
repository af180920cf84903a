//! From the text of a query to the request that it makes, or to the first reason why it makes none.
//!
//! [`parse`] reads a text to a [`Request`]. A text is a `select` or an `exec`, an as-of join, or one of the calls `.u.i`,
//! `.u.d` and `.u.sub`. A [`ParseRefusal`] says that the text is beyond the limits, at which offset it stops being a
//! request, or that the request has a form that is not built.
//!
//! ```text
//! parse(alloc, b"select price from trade where sym=`a")    Ok(Request::Query(..))
//! parse(alloc, b".u.sub[`trade;`]")                        Ok(Request::Sub(..))
//! parse(alloc, b"select price trade")                      Err(Parse(13)): after `price` no request has a name
//! parse(alloc, b"select price from trade where")           Err(Parse(29)): the text ends too early
//! parse(alloc, b"exec from trade")                         Err(Nyi)
//! ```
//!
//! `qsql_tokens` reads the tokens; `machine` then reads the request one token at a time, with a [`State`] in between that
//! says what has been read and what is expected next. So a fault is found at the first token with which no request
//! continues, and no text makes the reader recurse.
//!
//! `specs/Grammar.antt` is the grammar, with one constructor for each production; `laws` states that tokens are at most one
//! request, and that a text has at most one verdict.
//!
//! The crate knows no schema and runs no query: unknown tables and columns and kinds that don't fit are found later.
//!
//! [`State`]: state::State
#![tactic(auto)]

mod expression_steps;
pub mod laws;
mod machine;
mod names;
mod outer_steps;
mod parsing;
mod query_steps;
mod refusal;
mod state;

pub use parsing::parse;
pub use qsql_request::{AjQuery, Col, Cols, Expr, Exprs, Query, Request, Source, SubRequest};
pub use refusal::ParseRefusal;
