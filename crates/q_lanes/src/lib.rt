//! The items of columns and atoms as the loops of the verbs read them.
//!
//! - A [`Lane`] has items of one type: those of a column, or one item that stands at each index. [`zip_lanes`] makes the
//!   results of a [`Step`] for each two items of two lanes, and [`map_items`] those of a [`Rule`] for each item of a slice.
//! - [`Cells`] are the items of a side (`q_verbs::Side`) in the storage of their kind, and [`Texts`] its symbols, which a
//!   loop reads as a [`TextList`].
//! - [`Wide`] and [`WideSide`] are numbers of 64 bits: lent where a column has that width, made where it is narrower.
//! - [`Number`] and [`Reduced`] widen a number and reduce a result, with the null of each width.
//! - [`Ordered`] compares items as what they are worth, and a [`Relation`] is decided by their order.
//!
//! ```text
//! match (Cells::of(&left), Cells::of(&right)) {
//!     // one loop at the width of both sides
//!     (Cells::Integers(_, some), Cells::Integers(_, others)) => zip_lanes::<Compared<P>, i32, bool>(alloc, n, &some, &others),
//!     // or else over numbers of 64 bits
//!     _ => zip_lanes::<Compared<P>, i64, bool>(alloc, n, &WideSide::of(alloc, &left)?.lane(), ..),
//! }
//! ```
//!
//! A null is the least number of its width (KX, Datatypes reference). This crate has no verbs: `q_binary`, `q_unary` and
//! `q_matching` stand on it.
#![tactic(auto)]

mod cells;
mod lane;
mod number;
mod order;
mod texts;
mod vectors;
mod wide;

pub use cells::Cells;
pub use lane::{Items, Lane, Repeated, Rule, Slice, Step, Zipped, map_items, zip_lanes};
pub use number::{Number, Reduced, low_32, widened_all};
pub use order::{Above, AtLeast, AtMost, Below, Ordered, Other, Relation, Same, order_of};
pub use texts::{Beside, TextList, Texts, texts_of};
pub use vectors::booleans;
pub use wide::{Wide, WideSide, number_of_atom};
