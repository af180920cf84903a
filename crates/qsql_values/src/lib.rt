//! Expressions over rows: their kinds, their values, and the rows that phrases keep.
//!
//! A [`Scope`] lends named columns of one length. [`value_of`] is the value of an expression over it: an [`Operand`], which
//! is one atom, or a vector that is lent or made. [`kept_places`] applies phrases from left to right, each to the rows that
//! those before it keep, and gives the indices of the rows; [`kept_rows`] gives their columns, and [`kept_count`] their
//! number. [`kind_of_expr`] finds the kind of an expression over the columns of a table, before any rows.
//!
//! ```text
//! let scope = Scope::new(&names, &columns);
//! value_of(alloc, &expr, &scope)?                // of `price*size` a vector, of `max price` an atom
//! ```
//!
//! Rows and their columns are in `specs/Frames.antt`, the kind of an expression in `specs/Kinds.antt`, and its value and
//! the rows that phrases keep in `specs/Values.antt`.
//!
//! A scalar beside a column is never made as long as the column, and a column that is only named is lent. The crate knows
//! no queries and makes no tables: `qsql_eval` does.
#![tactic(auto)]

mod beside;
mod both;
mod by_row;
mod counting;
mod joining;
mod keeping;
mod kinds;
mod one_side;
mod operand;
mod scope;
mod two_sides;
mod values;

pub use beside::item_beside;
pub use by_row::{is_by_row, is_fixed};
pub use counting::{count_atom, is_row_count};
pub use keeping::{columns_at, kept_count, kept_places, kept_rows};
pub use kinds::{kind_of_column, kind_of_expr};
pub use one_side::apply_one;
pub use operand::{Held, Operand, repeated};
pub use scope::Scope;
pub use two_sides::by_item;
pub use values::value_of;
