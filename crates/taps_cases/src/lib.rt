//! Tests of `taps` with boxed taps in memory.
//!
//! A `Watched` tap is a `MemTap` that notes each message that it took in a number, which its test reads after the tap is boxed:
//! the prices of the messages, in order. The tests put such taps on a board and drive it: three messages, where a tap fails at
//! the second, and 1,000 messages a second and a third time.
//!
//! ```text
//! prices 1, 2 and 3    the first tap noted 10203, the second 1 and was dropped
//! ```
//!
//! Which messages an update makes is tested in `pubsub_cases` and `publications_cases`. Subscribers of a plant that sessions
//! share are in `shared_sessions_cases`.
//!
//!
//! They are a crate of their own, since a crate with tests in it is proved twice.
#![tactic(auto)]

#[cfg(test)]
mod boards;
#[cfg(test)]
mod watched;
