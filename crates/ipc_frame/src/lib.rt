//! Reads the stream of bytes that a client of kdb+ sends: a handshake and then messages, in whatever pieces they arrive
//! (KX, IPC reference).
//!
//! The handshake is a user name and password, at times a capability byte, and a NUL. Each message is a header of eight
//! bytes (byte order, message type, compression, length) and one object. A [`Framer`] takes the pieces that a socket
//! gives and returns what they hold:
//!
//! - [`Framer::feed`] takes bytes of a piece, up to the end of the next handshake or message, and allocates nothing.
//! - [`Framer::next`] returns the next handshake or message as a [`Next`], or `Need` where more bytes have to be fed
//!   first, or the fault in the stream: a [`Bad`] with its offset.
//! - [`header`] is the other direction: the eight bytes in front of an object that is sent.
//!
//! ```text
//! let mut framer = Framer::new(alloc, &Limits::standard())?;
//! framer.feed(b"u:p\x03\0").taken                          // 5
//! framer.next()                                            // Next::Greeting { capability: 3 }
//! framer.feed(b"\x01\0\0\0\x0d\0\0\0\xfa\x01\0\0\0").taken  // 13
//! framer.next()                                            // Next::Message: asynchronous, the int 1
//! framer.next()                                            // Next::Need
//! ```
//!
//! A framer holds one handshake or message at most, in a buffer that `new` allocates for the longest one; only a
//! message's value takes more memory. [`laws`] says that what `next` returns doesn't depend on how the stream was split
//! into pieces.
//!
//! This crate reads no socket, doesn't check user names, doesn't decompress, and knows objects only through `ipc_codec`.
#![tactic(auto)]

mod bad;
mod framer;
mod head;
pub mod laws;
mod next;
mod standing;
mod taking;

pub use bad::Bad;
pub use framer::{Fed, Framer};
pub use head::header;
pub use next::{Message, Next};
