//! Tests of groups: of `q_groups`, `q_keys` and `q_grouped`. What groups, keys, orders and aggregates are is proved there, and
//! these tests call them with ample memory, which proofs leave open.
//!
//! They are a crate of their own, since a crate with tests in it is proved twice.
//!
//! - `groups` has columns of longs, booleans, characters and dates, with a null among them, and their groups worked out by
//!   hand; an empty column; symbols in two parts, of which the second ends early, and one part with symbols of more than
//!   eight bytes. `as_many_as_a_day_has` has 100,000 rows of 128 and of 16,384 values, and compares the order with that of
//!   `Vector::order`, which sorts all rows.
//! - `keys` has small tables of one key, of two and of three: symbols and longs, nulls, one row, rows that are all equal, no
//!   rows; and the rows of each group of one table. `keys::many` has 100,000 rows with two keys, which are numbered again by a
//!   table of all keys that there could be, in order, of which those that a row has are counted.
//! - `grouped` has columns of longs, shorts, booleans, dates and symbols with a null among them, in three groups of which one
//!   has no item, and each verb's result; and an atom that stands for each row. `grouped::many` has 100,000 longs in 1,000
//!   groups, and compares each verb with `aggregate` of each group's items.
//!
//! ```text
//! longs 7 -3 7 0N 0 -3               codes 0 1 0 2 3 1, firsts 0 1 3 4, sorted 2 1 3 0, order 3 1 5 4 0 2
//! keys  b 2, a 1, b 2, a 0           codes 2 1 2 0, firsts 3 1 0, rows of group 2: 0 2
//! codes 0 2 0 0, longs 5 7 0N -2     sum 3 0 7, max 5 -0W 7, last -2 0N 7
//! ```
#![tactic(auto)]

#[cfg(test)]
mod columns;
#[cfg(test)]
mod grouped;
#[cfg(test)]
mod groups;
#[cfg(test)]
mod keys;
