//! Tests of `ipc_codec`: published objects, one of each type in both byte orders, and each refusal with its offset; and of
//! `ipc_frame`: streams of a handshake and messages, whole, split and faulty, and what a framer returns for them.
//!
//! They are a crate of their own, since a crate with tests in it is proved twice. Tests of objects are tables: a name, the
//! bytes, and what is expected.
//!
//! - `objects` reads, measures and writes each object again, and compares the bytes with its canonical encoding.
//! - `memory` reads lists of short objects, up to a million of them, and compares which are refused for the memory that they
//!   would take.
//! - `refusals` compares the refusal of `decode` and of `measure` with the expected one.
//! - `streams` has a stream of a handshake and five messages in both byte orders, one of them with a type that is not
//!   supported. It is split at each offset and into single bytes, and the framer has to return the same each time. The other
//!   tests of streams have one fault each, with its code and its offset.
//!
//! ```text
//! ("int atom", Order::Big, b"\xfa\xff\xff\xff\xfd", b"\xfa\xfd\xff\xff\xff"),
//! ("a float vector", Order::Little, b"\x09\0\0\0\0\0", DecodeRefusal::NotBuilt(0)),
//! (b"\x02\x01\0\0\x1f\0\0\0", Bad::Order, 5)      // a header after a handshake of 5 bytes
//! ```
//!
//! A new type of object gets a row in each byte order. What holds of all bytes is proved, in `ipc_codec::laws` and
//! `ipc_frame::laws`, and not tested. Sockets and sessions are tested in `plant_vectors`.
#![tactic(auto)]

#[cfg(test)]
mod memory;
#[cfg(test)]
mod object_rows;
#[cfg(test)]
mod objects;
#[cfg(test)]
mod refusal_rows;
#[cfg(test)]
mod refusals;
#[cfg(test)]
mod streams;
