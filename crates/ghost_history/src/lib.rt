//! A list that only contracts see.
//!
//! A device that reports all that passed through it, for tests and for proofs about whole runs, keeps the list of it in a
//! [`History`]: each push is of the value as it is then, and the whole list takes no memory, however long it is. Nothing can
//! be read from it when the program runs.
//!
//! ```text
//! let mut given: History<i64> = History::new();
//! given.push(&reading);          // given.new ≡ given.old ++ reading ∷ []
//! ```
//!
//! A list of bytes also takes a slice at once: [`History::extend`] is for what a device read or wrote.
//!
//! It has no call that reads, and none that makes it shorter. What a test is to compare has to be kept as data, as the
//! devices of `outside_mem` keep what they were written.
#![tactic(auto)]

mod history;

pub use history::History;
