//! Tests of `schema_text` and of the days of `day_rows`, through their public calls.
//!
//! `texts` has schema texts with their expected outcomes: the built-in schema, a refusal of each kind with its offset, and
//! a table with as many columns as a table may have. `blocks` fills days with thousands of rows, and compares the number of
//! their blocks and the updates that they give back; `spans` compares the updates from an index on. `days` logs three
//! updates of the built-in schema's `trade` on one date, ends the date, and compares the order of arrival with the order by
//! symbol. The expected values come from the documented order of kdb+ and from counting bytes by hand, not from the
//! contracts.
//!
//! One of the rows:
//!
//! ```text
//! t:([]time:`timespan$();sym:`symbol$();x:`float$())    BadKind(41)
//! ```
//!
//! The tests are in a crate of their own since a crate with tests is proved twice, with and without them. They test what
//! no contract says: that a call doesn't run out of memory where there is enough, and that the definitions mean what
//! kdb+ means. Nothing else is in this crate.
#![tactic(auto)]

#[cfg(test)]
mod blocks;
#[cfg(test)]
mod days;
#[cfg(test)]
mod spans;
#[cfg(test)]
mod texts;
