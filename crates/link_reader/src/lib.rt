//! Reads a link in large pieces, and finds the handshake and the messages in its bytes (KX, IPC reference).
//!
//! A [`Reader`] stands between a `Link` of `outside_api`, which gives bytes in whatever pieces they come, and a `Framer` of
//! `ipc_frame`, which knows where a message ends.
//!
//! - [`Reader::new`] takes all the memory that reading needs: the framer's buffer and a piece of 65,536 bytes.
//! - [`Reader::arrive`] takes one step and says what it came to, an [`Arrival`]: the handshake, a message, a fault of the
//!   bytes, a read timeout, the end of the input, or nothing yet.
//!
//! ```text
//! the link gives 75 3a 70 03             reader.arrive(&mut link)    Arrival::More: the bytes are in the piece
//!                                        reader.arrive(&mut link)    Arrival::More: the framer took them
//! the link gives 00                      reader.arrive(&mut link)    Arrival::More, and so once more
//!                                        reader.arrive(&mut link)    Arrival::Greeting { capability: 3 }
//! nothing until the read times out       reader.arrive(&mut link)    Arrival::Idle
//! the input ends                         reader.arrive(&mut link)    Arrival::Ended { between: true }
//! ```
//!
//! The link is read only where the framer needs more and has taken all of the last piece. So what was heard is a prefix of
//! what was read, and a reader holds the rest.
//!
//! It serves nothing and writes nothing. How often a read may time out, and what is done with a message, is the session's.
#![tactic(auto)]

mod reader;

pub use reader::{Arrival, Reader};
