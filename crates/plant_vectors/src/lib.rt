//! Worked sessions, as tests: the bytes that come in, the bytes that go out, and the turns that are noted.
//!
//! Each test serves one session over devices in memory and a plant of the built-in tables that is open on 2024.01.02, by
//! `test_sessions`, which also has the bytes.
//!
//! - `sessions` has sessions that read messages, whole, divided into pieces, truncated or malformed.
//! - `updates` has updates: the order of rows, the end of a date, refusals, and async messages.
//! - `faults` has links that fail or time out.
//! - `subscriptions` has sessions that subscribe. Subscribers of a plant that other sessions feed are in
//!   `shared_sessions_cases`.
//!
//! ```text
//! in      u:p 03 00, an update of trade by one row, "select from trade"
//! out     03, (::), the table trade with that row
//! turns   Greeted 3, Logged 0, Answered 1
//! end     Closed
//! ```
//!
//! Queries and sessions at real sizes are in `query_vectors`, the order of a session's calls in `session_order_cases`. The
//! crate has no code outside its tests: so the crates that it tests are proved once, and not again with
//! their tests.
#![tactic(auto)]

#[cfg(test)]
mod faults;
#[cfg(test)]
mod sessions;
#[cfg(test)]
mod subscriptions;
#[cfg(test)]
mod updates;
