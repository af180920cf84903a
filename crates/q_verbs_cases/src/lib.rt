//! Tests of `q_binary`, `q_unary`, `q_fused` and `q_matching`: each verb over whole columns, against rows that were worked out apart
//! from its code.
//!
//! They are a crate of their own, since a crate with tests in it is proved twice.
//!
//! - `two_sides_rows` and `one_side_rows` have the rows of each verb: at a null, at both ends of a kind, at a negative
//!   number, at 0 and without items. A row is text: the columns and the result, each as the letter of its kind and its
//!   items.
//! - `kinds_rows` has the kind of each verb's result for each pair of kinds.
//! - `table_test` reads the rows, runs the verbs and compares.
//! - `sizes` runs `in`, `within`, `min`, `max` and `neg` over 1,000 and 100,000 rows of each width.
//! - `odd_sizes` runs `sum`, `min` and `max` over 1,001 and 100,001 rows, and comparisons over 1,003 and 100,007, with items
//!   in the last rows that decide.
//! - `long_names` runs the verbs of symbols over 1,000 and 100,000 of more than eight bytes.
//! - `multiples` runs `xbar` by one width over 1,000 and 100,000 longs, and `int_multiples` over 1,000 and 100,001 ints.
//! - `one_loop` runs `min` and `max` of sums and differences, over 1,000 and 100,001 longs.
//! - `examples` has the published ones (KX, Q for Mortals, 4).
//!
//! ```text
//! (Verb::Add, &["i 1 0N; i 2 2; i 3 0N"])      // 1 0N + 2 2 is 3 0N
//! ```
//!
//! A new verb gets rows in these tables. What holds of all columns is proved, in these crates, and not tested.
#![tactic(auto)]

#[cfg(test)]
mod examples;
#[cfg(test)]
mod int_multiples;
#[cfg(test)]
mod kinds_rows;
#[cfg(test)]
mod long_names;
#[cfg(test)]
mod multiples;
#[cfg(test)]
mod odd_sizes;
#[cfg(test)]
mod one_loop;
#[cfg(test)]
mod one_side_rows;
#[cfg(test)]
mod sizes;
#[cfg(test)]
mod table_test;
#[cfg(test)]
mod two_sides_rows;
