//! The bytes of publications and of answers to subscriptions (KX, IPC reference; u.q).
//!
//! What a subscriber is told it is sent in async messages, one for each publication: the rows of an update as the list of
//! `upd`, the table's name and the table, and the end of a date as the list of `.u.end` and the date. [`publications`] makes
//! all bytes that a subscriber is sent for the tail of a plant:
//!
//! ```text
//! publications(alloc, &tail, &subscription, false)?    // Publications::Messages(bytes), to be written as they are
//! 01 00 00 00 1b 00 00 00                              // an async message of 27 bytes: the end of 2024.01.02
//! 00 00 02 00 00 00 f5 2e 75 2e 65 6e 64 00 f2 3f 22 00 00
//! ```
//!
//! A message whose length doesn't fit its header is never made: where a publication would need one, the answer is
//! [`Publications::TooLong`], and nothing is encoded. Lengths are judged first, which takes no memory; then the room for all
//! bytes is made once.
//!
//! [`subscription_answer`] is the value that answers a subscription: a table's name and the table without rows, or the list
//! of these pairs for all tables.
//!
//! It knows nothing of sessions and links: who calls it writes the bytes. `specs/Notice.antt` has the bytes of a publication,
//! `specs/Answer.antt` the answers.
#![tactic(auto)]

mod answer;
mod notice;
mod outcome;
mod schema;
mod sending;

pub use answer::subscription_answer;
pub use outcome::Publications;
pub use sending::publications;
