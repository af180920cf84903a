//! The verbs that test each item of a side (KX, Reference card).
//!
//! - [`is_in`] tests whether an item is equal to one of another side.
//! - [`is_within`] tests whether it lies between two atoms.
//! - [`is_like`] tests whether a symbol matches a pattern.
//!
//! A side is a column or an atom (`q_verbs::Side`): an atom gives one item. Which kinds they take `q_verbs::result_kind`
//! says; the calls ask that it has an answer, so they have no error but that memory runs out. A null is equal to a null
//! and lies below every number.
//!
//! ```text
//! is_in(alloc, &Side::Column(&longs), &Side::Column(&others))   // 1 2 0N in 2 0N  is  011b
//! is_within(alloc, &Side::Column(&longs), &low, &high)          // 1 2 3 4 within 2 3  is  0110b
//! is_like(alloc, &Side::Atom(&symbol), b"a*")                   // `ab like "a*"  is  ,1b
//! ```
//!
//! A loop runs over the typed slice of a column at its own width, and widens no column.
//!
//! [`laws`] says what holds of patterns in other words. This crate has no regular expressions: a pattern has `*` and `?`.
#![tactic(auto)]

mod among;
mod among_names;
mod among_numbers;
mod flags;
pub mod laws;
mod like;
mod within;

pub use among::is_in;
pub use like::is_like;
pub use within::is_within;
