//! A journal of records on a disk: an append adds its record whole or not at all, at whatever moment a crash comes.
//!
//! A [`Journal`] is one file of a `Disk`. [`Journal::append`] adds the bytes of a [`Payload`] as a record by two synced
//! writes: the record with a closed gate at its end, and then the gate before it, which is opened. [`Journal::load`] gives
//! the [`Records`] of a file. After a call that failed the journal isn't clean until it is repaired.
//!
//! ```text
//! let mut journal = Journal::fresh(disk, 3)?;
//! let mut payload = Payload::with_room(alloc, 1024)?;
//! payload.fill(b"10050 200");
//! journal.append(disk, &payload)?;                       // durable from here on
//! let (journal, records) = Journal::load(alloc, disk, 3)?;
//! records.at(0)                                          // 10050 200
//! ```
//!
//! What a record means isn't known here, and nothing depends on a checksum. The bytes of the file are drawn in `layout`.
//! A crash within [`Journal::fresh`] may leave any bytes in the file, and nobody else may write it.
#![tactic(auto)]

mod journal;
mod laws;
mod layout;
mod payload;
mod payloads;
mod records;
mod refusal;
mod scan;
mod state;

pub use journal::Journal;
pub use laws::reads_in_one_way;
pub use payload::Payload;
pub use payloads::Payloads;
pub use records::Records;
pub use refusal::{JournalRefusal, ReadRefusal};
pub use scan::ValidPrefix;
pub use state::State;
