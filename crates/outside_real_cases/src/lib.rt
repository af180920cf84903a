//! Tests of `outside_real` and of `plant_edge` through their public calls.
//!
//! They stand in a crate of their own, since a crate with tests in it is proved twice. Contracts say little of a real
//! device, so these tests say what the devices do:
//!
//! ```text
//! a planned folder   which calls a disk makes, and in what order; short writes, signals, a full disk, a failed sync
//! a real folder      what was written is found again; faults; the lock; more files than are kept open
//! a journal          a thousand records, found again
//! a clock            known times, one that isn't given, the ends of the range; the machine's
//! a file             read whole, and refused
//! a port             in use; no connection for a while
//! a connection       what passes; a timeout; the end; a client that vanishes; a stream that fails as planned
//! woken reads        a read that another connection ends; bytes and the end on a connection whose reads may be woken
//! ```
//!
//! `edge` uses the real link over a reader and a writer that fail, and the real outside over a runtime whose standard error is
//! read back, and tells the arguments that ask for a session from those that don't:
//!
//! ```text
//! a read that is interrupted, a read that fails, one byte, the end
//! a write that fails
//! warnings, as a writer gets them
//! a port that is listened on once, and a connection that is handed back
//! command lines that are read, and those that aren't
//! ```
//!
//! Each real folder stands in the machine's folder for temporary files, under a name that has the process's number, and is
//! removed at the end. That bytes reach the real standard output is tested by the stored run of `plant_cli`.
#![tactic(auto)]

#[cfg(test)]
mod edge;
#[cfg(test)]
mod journal;
#[cfg(test)]
mod planned;
#[cfg(test)]
mod readings;
#[cfg(test)]
mod real;
#[cfg(test)]
mod sockets;
#[cfg(test)]
mod woken;
