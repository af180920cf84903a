//! Tests of `qsql_eval` with values from outside: texts over a few rows, with the values or the refusals that the language
//! gives them.
//!
//! The tables of `queries` have one row per case: a text, and its answer as text. A vector is written as the letter of its
//! kind and its items in brackets, an atom as the letter and its value, a table as its columns, and a keyed table as its
//! keys, a bar and its other columns.
//!
//! ```text
//! b"select sym,size from trade where size>5,i<2"    b"sym=s[b a] size=j[100 9]"
//! b"exec max size from trade"                       b"j:100"
//! b"select max size by sym from trade"              b"sym=s[a b c]|size=j[9 100 1]"
//! b"select foo from trade"                          b"name foo"
//! ```
//!
//! The crate has tests only. They are not in `qsql_eval` itself because a crate with tests in it is proved twice.
#![tactic(auto)]

#[cfg(test)]
mod bars;
#[cfg(test)]
mod by;
#[cfg(test)]
mod kinds;
#[cfg(test)]
mod queries;
#[cfg(test)]
mod trade;
