//! Tests of `publications`, of `pubsub::messages` and of the answers to subscriptions, over plants with the built-in schema.
//!
//! `plants` logs updates of `trade` and ends dates. `bytes` has the messages of an update and of the end of a date byte by
//! byte, as KX's IPC reference lays them out, what a subscription to some symbols gets of them, and the answers to
//! subscriptions to one table and to all. `batches` has 17 updates, of which 16 make one message. `sizes` has 100,000 rows in
//! 100 updates, three times from where the last tail ended, and 1,000 rows.
//!
//! ```text
//! 01 00 00 00 1b 00 00 00 00 00 02 00 00 00 f5 2e 75 2e 65 6e 64 00 f2 3f 22 00 00    .u.end of 2024.01.02
//! ```
//!
//! No session runs here. Which rows a subscription is told is tested in `pubsub_cases`.
//!
//!
//! They are a crate of their own, since a crate with tests in it is proved twice.
#![tactic(auto)]

#[cfg(test)]
mod batches;
#[cfg(test)]
mod bytes;
#[cfg(test)]
mod plants;
#[cfg(test)]
mod sizes;
