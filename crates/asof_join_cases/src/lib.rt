//! Tests of `asof_join` with values from outside, and against a plain slow program.
//!
//! The tables of `cases` have one row per case: a text over a few trades and quotes, and its answer as text (`q_shown`), a
//! table or the refusal that the language gives it:
//!
//! ```text
//! b"aj[`sym`time;select time,sym from trade;select time,sym,bid from quote]"    b"time=n[2 3] sym=s[a a] bid=j[4 5]"
//! b"aj[`sym`foo;trade;select time,sym,bid from quote]"                         b"name foo"
//! ```
//!
//! `compared` makes pairs of tables from a seed, with equal times, nulls, symbols that the other side lacks, and sides of no
//! rows. Its `slow` is the join as a program that anyone can read: for each row of the left side it goes over all rows of
//! the right one, and keeps each field as an `i64`. Both run on each pair, and what they give is compared, as text. `large`
//! joins 100,000 rows on 100,000, whose answers are known by how the rows are made.
//!
//! ```text
//! aj[`sym`time;select time,sym,price from trade;select time,sym,bid from quote]
//! seed 7    time=n[2 0] sym=s[a c] price=j[5 1] bid=j[3 -9223372036854775808]    by both
//! ```
//!
//! The crate has tests only. They are not in `asof_join` itself because a crate with tests in it is proved twice.
#![tactic(auto)]

#[cfg(test)]
mod cases;
#[cfg(test)]
mod compared;
#[cfg(test)]
mod shown;
#[cfg(test)]
mod tables;
