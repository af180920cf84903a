//! Sessions that share one plant: each serves a connection of its own, on a thread of its own, through a lock.
//!
//! [`serve_shared`] is the one call. It lends a session the access of a pass to the plant under the lock, serves the
//! connection from its handshake to its end, and gives back a [`Finished`]: why the session ended, the devices of its
//! connection, and the pass. Its contract is that of `serve_session`, over what the pass has seen in the end.
//!
//! ```text
//! let (pass, other) = lock.pass(&rt, pass);
//! let connection = Connection { link, clock, gate, recorder };
//! let finished = serve_shared(&rt, alloc, &lock, other, schema, connection, &limits);
//! let (_other, note) = lock.note(finished.pass);
//! let pass = lock.learn(pass, note);
//! let plant = lock.close(&rt, pass);
//! ```
//!
//! A thread that serves a session may promise it by a [`Serving`], so that whoever joins the thread knows of the session what
//! the call says of it.
//!
//! A session's answers are over beginnings of one chronicle, each no shorter than what its session had been told. What a
//! pass has seen begins the chronicle of the plant once the lock is closed: `learn` and `close` say so.
//!
//! The call starts no thread, and closes no lock. No contract says that a session waits for a bounded time, or which of two
//! sessions comes first, unless one had been told of the other's entry.
#![tactic(auto)]

mod promise;
mod serve;

pub use promise::Serving;
pub use serve::{Connection, Finished, serve_shared};
