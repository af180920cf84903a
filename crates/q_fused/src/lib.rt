//! An aggregate of what a verb makes of two sides, as in `max price-100`.
//!
//! [`aggregate_of`] gives the atom that `q_unary::aggregate` would make of the column that `q_binary::binary` would make.
//! `min` and `max` of sums and differences of 64-bit numbers are computed in one loop, which makes no column; for the
//! others the column is made.
//!
//! ```text
//! let left = Side::Column(&prices);                                // 9 4 0N 7
//! let right = Side::Atom(&least);                                  // 4
//! aggregate_of(alloc, Verb1::Max, Verb::Sub, &left, &right)        // max 9 4 0N 7 - 4  is  5
//! ```
//!
//! Nulls and sums that don't fit go as in the two verbs, since the result is theirs.
//!
//! The loop reads each item once, as the verb and the aggregate alone would, and writes nothing, so over millions of rows it
//! takes the time of `max` of the column alone. This crate knows no other combination of verbs, and nothing of queries.
#![tactic(auto)]

mod aggregation;
mod lanes;

pub use aggregation::aggregate_of;
