//! A plant on a port: it accepts connections and serves each on a thread of its own, over one plant.
//!
//! [`serve_port`] is the one call. It puts a lock round the plant, accepts as many connections as it is told to, draws a pass
//! for each, and starts its session on a thread. Where no thread can be started, it serves the session itself. A session that
//! has ended is joined within 50 milliseconds: its link, clock and recorder go back to the outside, which closes the
//! connection, and what its pass had seen is learnt. When all have ended, the lock is closed and the plant comes back.
//!
//! ```text
//! outside.listen(5010)?;
//! let (plant, end) = serve_port(&rt, alloc, plant, 8, &limits, &mut outside);
//! match end {
//!     ServeEnd::Served => ..,                 // eight sessions were served
//!     ServeEnd::NotAccepted(cause) => ..,     // an accept failed; the sessions before it were served to their ends
//!     ServeEnd::NoMemory => ..,               // a session, or the lock, was out of memory at its start
//! }
//! ```
//!
//! Its contract, `Serves` of `specs/Serving.antt`, says of each connection that was accepted that it was handed back once, and
//! was served through the one lock: the answers of its session are over prefixes of the chronicle of the plant that comes
//! back. No contract says that a session waits for a bounded time.
//!
//! A client that vanishes, sends rubbish or never reads holds up its own session and no other. The crate reads no byte and
//! judges no message itself (`session` does), and makes no device (the outside does).
#![tactic(auto)]

mod accepting;
mod end;
mod server;
mod sessions;
mod threads;

pub use end::ServeEnd;
pub use server::serve_port;
