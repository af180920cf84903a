//! Tests of `pubsub` with values from outside: what subscriptions are told of entries, as text.
//!
//! `spans` makes entries over the built-in schema of short steps, subscriptions of what clients ask, and texts of messages.
//! The tables of `told` have one row per case: what is asked, whether in batches, and what is told. A message is a line: the
//! table and its columns, each the letter of its kind and its items in brackets, or the date that ended.
//!
//! ```text
//! trade time=n[0] sym=s[a] price=j[10] size=j[7]
//! end 8767
//! ```
//!
//! `sizes` has spans of 100,000 rows, of which it reads the numbers of rows and some prices.
//!
//! The bytes of these messages are tested in `publications_cases`.
//!
//! The crate has tests only. They are not in `pubsub` itself because a crate with tests in it is proved twice.
#![tactic(auto)]

#[cfg(test)]
mod sizes;
#[cfg(test)]
mod spans;
#[cfg(test)]
mod told;
