//! Tests of `outside_mem` through its public calls and the traits of `outside_api`.
//!
//! They stand in a crate of their own, since a crate with tests in it is proved twice. What a device does with its script
//! is said by contracts; these tests show that each call succeeds where memory is ample, and use each device through its
//! trait at a concrete type.
//!
//! ```text
//! a link       a script of pieces, timeouts and faults; writes that fail
//! a recorder   one with room, and one that is full
//! a tap        one that fails as planned and is full at the end, and one without room
//! a clock      the last reading repeated, and a clock that always reads one time
//! an outside   the lines printed, and what was handed back
//! a disk       10,000 files, each found by its number, before a crash and after it
//! ```
//!
//! A disk in memory is tested with a journal on it too, in `journal_stops`.
#![tactic(auto)]

#[cfg(test)]
mod many_files;
#[cfg(test)]
mod tests;
