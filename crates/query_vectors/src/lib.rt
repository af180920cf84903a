//! Worked sessions that ask in texts, as tests: updates and texts come in, and the bytes of each response are compared.
//!
//! Each test serves one session over devices in memory and a plant of the built-in tables that is open on 2024.01.02, by
//! `test_sessions`. The expected bytes were written down by hand from the IPC reference; none comes from the program.
//!
//! - `building` makes messages: updates of `trade` and `quote`, texts, and responses round a value's bytes.
//! - `sitting` has what a session is given and asked, and compares what it sends and the turns that it notes.
//! - `answers` has queries over two dates: phrases, aggregates, groups, an as-of join, the count of updates and the date.
//! - `refusals` has texts that are answered with errors, and updates and texts that change nothing.
//! - `sizes` has answers over a hundred thousand rows, and the limit on a response.
//! - `large` has updates and answers at real sizes, of which none is out of memory.
//!
//! ```text
//! in      u:p 03 00, an update of trade by one row, "exec count i from trade"
//! out     03, (::), the long 1
//! turns   Greeted 3, Logged 0, Answered 1
//! ```
//!
//! The crate has no code outside its tests.
#![tactic(auto)]

#[cfg(test)]
mod answers;
#[cfg(test)]
mod building;
#[cfg(test)]
mod large;
#[cfg(test)]
mod refusals;
#[cfg(test)]
mod sitting;
#[cfg(test)]
mod sizes;
