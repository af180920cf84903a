//! Filters: the indices at which a column of booleans holds.
//!
//! The conditions of a query give a column of booleans, one for each row. [`places_where`] makes of it the indices of the
//! rows that are kept, in ascending order; [`q_values::Vector::gather`] then copies the kept items of each column. Where only
//! their number is wanted, [`count_where`] gives it, and makes no indices.
//!
//! ```text
//! places_where(alloc, &booleans)             // of 0110b the indices 1 2
//! prices.gather(alloc, &places)              // the prices of these rows
//! count_where(&booleans)                     // of 0110b 2
//! ```
//!
//! Both ask for a column of booleans: whether a condition gives one is judged before.
//!
//! The loops have no branch for each row, so their time doesn't depend on which rows are kept. They read no other column and
//! combine no conditions: `&` of two columns of booleans is a verb of `q_verbs`.
#![tactic(auto)]

#[cfg(test)]
mod cases;
mod filter;

pub use filter::{count_where, places_where};
