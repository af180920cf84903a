//! The verbs with one side, exact at nulls and at the ends of kinds (KX, Reference card).
//!
//! - [`unary`] applies `not`, `neg` or `distinct` to a column, and makes a column.
//! - [`aggregate`] makes one atom of a column: `count`, `sum`, `min`, `max`, `first` or `last`.
//! - [`picked_of`] is the loop of `min` and `max`, over any items that can be read by their indices.
//!
//! Which kinds a verb takes, and the kind of its result, `q_verbs::result_kind1` says; the calls ask that it has an
//! answer, so they have no error but that memory runs out.
//!
//! ```text
//! unary(alloc, Verb1::Neg, &ints)        // neg 1 0N 2  is  -1 0N -2
//! unary(alloc, Verb1::Distinct, &ints)   // distinct 3 1 3  is  3 1
//! aggregate(alloc, Verb1::Sum, &ints)    // sum 1 0N 2  is  3
//! ```
//!
//! Each loop runs over the typed slice of the column, at the column's own width ([`laws`] says what holds of the results).
//!
//! This crate doesn't group: an aggregate is of a whole column.
#![tactic(auto)]

mod aggregation;
mod distinct;
mod extremes;
pub mod laws;
mod one_side;
mod picks;
mod totals;

pub use aggregation::aggregate;
pub use one_side::unary;
pub use picks::{Greatest, Least, Pick, picked_of};
