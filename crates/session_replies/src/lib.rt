//! Responses: the bytes that answer a message (KX, IPC reference).
//!
//! A response is a whole message: the header of eight bytes and a value. The responses that a session gives most often,
//! `(::)` and the errors of a fixed text, are constants and take no memory, so that a session that is out of memory can
//! still say so. The others are encoded by `ipc_codec`.
//!
//! - [`Reply`] is a response; [`Reply::as_slice`] has its bytes.
//! - [`done`], [`nyi`], [`mistyped`], [`over_the_limit`], [`disk`] and [`wsfull`] are the constant ones.
//! - [`respond`] encodes a value, [`respond_wrong`] an error with any text, and [`refuse`] has the error of a refused
//!   update.
//!
//! ```text
//! done(&limits)                       01 02 00 00 0a 00 00 00 65 00
//! nyi(&limits)                        01 02 00 00 0d 00 00 00 80 "nyi" 00
//! respond(alloc, &value, &limits)     the header and the value; the error `limit` where that is longer than limits.reply
//! wsfull()                            01 02 00 00 10 00 00 00 80 "wsfull" 00, whatever the limits
//! ```
//!
//! Each response but `wsfull` is judged against `limits.reply`, before anything is encoded: one that would be longer is
//! the error `limit` instead.
//!
//! It decides nothing: which response a message gets, and whether one is waited for, is the session's. It writes to no
//! link.
#![tactic(auto)]

mod reply;

pub use reply::{
    Reply, disk, done, mistyped, nyi, over_the_limit, refuse, respond, respond_wrong, wsfull,
};
