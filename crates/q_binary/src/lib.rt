//! The verbs with two sides that work item by item, exact at nulls, at the ends of kinds and at zero divisors (KX, Reference
//! card): `+ - * div mod xbar`, `= <> < > <= >=`, `&` and `|`.
//!
//! [`binary`] applies a verb to two sides. A side is a column or an atom (`q_verbs::Side`); an atom stands for each item
//! beside it, and isn't copied for them. Which kinds a verb takes, and the kind of its result, `q_verbs::result_kind`
//! says; the call asks that it has an answer, so it has no error but that memory runs out.
//!
//! ```text
//! binary(alloc, Verb::Add, &Side::Column(&ints), &Side::Column(&dates))   // 1 0N + 2024.01.02 2024.01.02  is  2024.01.03 0Nd
//! binary(alloc, Verb::Gt, &Side::Column(&longs), &Side::Atom(&least))     // 200 400 > 300  is  01b
//! binary(alloc, Verb::Lesser, &Side::Column(&a), &Side::Column(&b))       // 1 5 & 2 0N  is  1 0N
//! ```
//!
//! [`Computed`] is what [`binary`] makes of two items for an [`Operation`], for loops that read it without making a column.
//!
//! A loop runs over the typed slices of the sides, at the width of the two where they have one, or else over their
//! numbers widened to 64 bits ([`laws`] says what holds of the results).
//!
//! This crate doesn't apply a verb to one side (`q_unary`) and doesn't test items (`q_matching`).
#![tactic(auto)]

mod arithmetic;
mod by_place;
mod choice;
mod comparison;
mod divisor;
mod int_multiples;
pub mod laws;
mod multiples;
mod operation;

pub use by_place::binary;
pub use operation::{Computed, Difference, Operation, Sum};
