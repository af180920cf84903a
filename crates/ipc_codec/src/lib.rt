//! The objects of kdb+ IPC: values to bytes and bytes to values, in both byte orders (KX, IPC reference).
//!
//! An object is a type byte and what that type asks for: the element of an atom; the attribute byte, the count and the
//! elements of a vector; the objects of a list or a dictionary. One value has many encodings: either byte order, any
//! attribute byte, any byte but 0 for true, 99 or 127 for a dictionary. All of them are read, and one is written, the
//! canonical encoding: little-endian, with attributes 0, booleans 0 or 1, and 99 for each dictionary.
//!
//! - [`decode`] reads the object at the front of the bytes, and returns its value and its length in bytes, or a
//!   [`DecodeRefusal`] with the offset of the first fault.
//! - [`measure`] returns the same length or the same refusal, and allocates nothing.
//! - [`encode`] appends the canonical encoding of a value.
//! - [`encoded_length`] returns the length of that encoding, and allocates nothing.
//! - [`Order`] is the byte order, which a message's header says.
//! - [`encode_vector`], [`encode_vectors`], [`encode_list_head`] and [`encode_symbol`] append parts of objects, and
//!   [`decode_vector`] reads a vector that is in its canonical encoding: for formats that keep objects without a `Value`.
//!
//! ```text
//! let (value, length) = decode(alloc, b"\xfa\0\0\0\x01\x65", Order::Big)?;
//!                                        // the int 1; 5 bytes: the sixth is no part of it
//! let mut out = Vec::new(alloc);
//! encode(&mut out, &value)?;             // appends fa 01 00 00 00
//! measure(b"\xfa\x01", Order::Little)    // Err(DecodeRefusal::Truncated(2))
//! ```
//!
//! [`laws`] says how they fit together: what is written is read again as the same value, and no encoding begins
//! another one.
//!
//! This crate doesn't know message headers or the handshake (`ipc_frame` does), doesn't compress, and refuses the
//! types of kdb+ that have no `Value` (real, float, guid, datetime, enumerations, functions) as `NotBuilt`. An object
//! may nest 64 levels deep.
#![tactic(auto)]

mod budget;
mod elements;
mod fault;
mod form;
mod heads;
pub mod laws;
mod lengths;
mod order;
mod reach;
mod reading;
mod refusal;
mod vectors;
mod writing;

pub use lengths::{columns_length as encoded_vectors_length, encoded_length};
pub use order::Order;
pub use reach::measure;
pub use reading::decode;
pub use refusal::DecodeRefusal;
pub use vectors::{VectorFault, decode_vector, encode_list_head, encode_symbol};
pub use writing::{encode, put_columns as encode_vectors, put_vector as encode_vector};
