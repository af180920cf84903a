//! Tests of `plant_serving`, and of the program's `serve`, over real sockets of this machine.
//!
//! They stand in a crate of their own, since a crate with tests in it is proved twice.
//!
//! Each test runs `serve` over a new plant in memory, on a port that was free, and its clients are threads of the test.
//!
//! ```text
//! talks       two clients, one told of the other's update; messages in pieces; both byte orders
//! strays      clients that vanish, send half a message, rubbish or nothing, or never read
//! crowds      fifty clients at once; three hundred one after the other
//! plans       runs of the program: a port that fails; a session that is held while another goes on
//! ```
//!
//! Sockets give no order between clients, so a test compares what each client received. Sessions over devices in memory,
//! whose every call can be compared, are in `session_order_cases` and `shared_sessions_cases`.
#![tactic(auto)]

#[cfg(test)]
mod client;
#[cfg(test)]
mod crowds;
#[cfg(test)]
mod planned;
#[cfg(test)]
mod plans;
#[cfg(test)]
mod strays;
#[cfg(test)]
mod talks;
