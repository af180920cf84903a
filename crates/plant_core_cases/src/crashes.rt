//! A plant over a disk in memory that fails or goes down.
//!
//! `script` is twenty updates and two rolls, and what a later load finds of them. `stops` takes the disk down after each of
//! its calls, and within each call of one update; `faults` lets each call fail once and sends its entry again.
//!
//! ```text
//! script    abcdefgRhijklmnRopqrst
//! load      the entries that were logged, or these and the next one
//! ```
//!
//! The expected values come from the calls that the documented layout of a log asks for, not from the contracts.
mod faults;
mod script;
mod stops;
