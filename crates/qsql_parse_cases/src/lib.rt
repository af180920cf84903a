//! Tests of `qsql_parse` with values from outside: texts with the requests that the language gives them, or the refusals
//! and their offsets.
//!
//! The tables of `requests` have one row per case: a text, and its request or refusal as text. A request is written with
//! all its parentheses, so that the tree of each expression can be seen; numbers have the letter of their kind.
//!
//! ```text
//! b"select max price by sym from trade where i<2"    b"select max[price] by sym from trade where (i < 2)"
//! b"select size -1 from trade"                       b"parse 12"
//! ```
//!
//! What a request gives over rows is tested in `qsql_eval_cases` and `gateway_cases`.
//!
//! The crate has tests only. They are not in `qsql_parse` itself because a crate with tests in it is proved twice. The laws
//! of the grammar need no tests: they are contracts, in `qsql_parse::laws`.
#![tactic(auto)]

#[cfg(test)]
mod requests;
