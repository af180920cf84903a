//! Worked sessions over devices in memory, for tests: the bytes that come in, the bytes that go out, and the turns that are
//! noted.
//!
//! A session is served over devices of `outside_mem` and a plant of the built-in tables that is open on 2024.01.02. The bytes
//! are those of the IPC reference, written out in `bytes`; none comes from the program.
//!
//! ```text
//! bytes       messages and responses, as constants
//! sat         what came of a session: its end, what it sent, the turns that it noted
//! goes        whether it ended, sent and noted as a `Wanted` says
//! link_of     a link whose reads and writes go as listed
//! ```
//!
//! A script may also have a read that times out, and one that fails.
//!
//! Several crates of tests stand on it, so that this is proved once. It checks nothing itself.
#![tactic(auto)]

pub mod bytes;
mod sitting;

pub use sitting::{
    GREETED_TURN, LOGGED_TURN, NOW, Outcome, Read, TODAY, Wanted, are_joined, bytes_go, clock_of,
    goes, greeted, joined, link_of, messages_go, messages_go_at, pieces_go, sat, script_goes,
    script_goes_at, single_bytes,
};
