//! Generated queries, evaluated by `qsql_eval` and by a plain slow program, whose answers must be equal.
//!
//! `slow` and `grouped` are the meaning of a query as a program that anyone can read: it goes over the kept rows one at a
//! time, keeps each field as an `i64`, and knows nothing of columns or of the verbs of other crates. `generated` makes texts
//! of the rows of `trade` from a seed; `compared` runs both on each text, and compares what they give, as text; `by_group`
//! shows what the slow program has for a text with `by`.
//!
//! ```text
//! seed 7    exec a:sum (price)-size,b:5 xbar i from trade where (size)>price,sym=`a
//!           j:-70;j[0 0 5]    by both
//! ```
//!
//! Where the two differ the test names the seed, from which the text can be made again.
//!
//! The crate has tests only. It generates no text that is refused for its type or its form, and no `aj`.
#![tactic(auto)]

#[cfg(test)]
mod by_group;
#[cfg(test)]
mod compared;
#[cfg(test)]
mod generated;
#[cfg(test)]
mod grouped;
#[cfg(test)]
mod slow;
#[cfg(test)]
mod trades;
