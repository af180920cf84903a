//! Tests of `gateway` with values from outside: texts over a plant, with the answers that the language gives them.
//!
//! `plants` makes a plant over the built-in schema, which began on 2024.01.02, of a list of updates. The tables of
//! `texts` have one row per case: a text, and its answer as text. A vector is written as the letter of its kind and
//! its items in brackets, an atom as the letter and its value, a table as its columns, a keyed table as its keys, a
//! bar and its other columns, and an error as a quote and its text.
//!
//! ```text
//! b"exec i from trade"                          b"j[0 1 2 0 1]"
//! b"select last price by sym from trade"        b"sym=s[a b c]|price=j[21 11 30]"
//! b"select foo from trade"                      b"'foo"
//! ```
//!
//! What a session sends for an answer or an error is tested in `query_vectors`.
//!
//! The crate has tests only. They are not in `gateway` itself because a crate with tests in it is proved twice.
#![tactic(auto)]

#[cfg(test)]
mod plants;
#[cfg(test)]
mod texts;
