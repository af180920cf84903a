//! Tests of `plant_shared` over a disk in memory, through its public calls: one thread with several passes, and threads that
//! feed and read one plant beside each other.
//!
//! ```text
//! opened      a lock round a new plant, its first pass, and the tables
//! logs        one update of one row through an access
//! feed        many updates, and now and then a snapshot that has to hold them
//! made        who made the entries in the plant's log
//! read        snapshots until the feeds have ended, each of which has to hold what the one before it held
//! ```
//!
//! No order between the threads is assumed: a test says what holds in each. Sessions on threads, whose bytes are compared, are in
//! `shared_sessions_cases`.
//!
//! The tests are in a crate of their own since a crate with tests is proved twice, with and without them. Nothing else is in
//! this crate.
#![tactic(auto)]

#[cfg(test)]
mod log;
#[cfg(test)]
mod passes;
#[cfg(test)]
mod plants;
#[cfg(test)]
mod threads;
