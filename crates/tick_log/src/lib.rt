//! A log of updates: each record of a journal is one update and nothing else.
//!
//! A tickerplant writes each update to a log before it counts, and reads the log when it starts again. Here an update
//! becomes the payload of a record, a *chunk*, and the records of a log become updates again. A chunk is the number of the
//! pass that made the update, and then the update as kdb+ sends it, ``(`upd;table;columns)``, in the canonical encoding.
//! `layout` has the picture.
//!
//! - [`chunk_of`] makes the chunk of an update: its columns are encoded straight into the payload. [`chunk_into`] reuses the
//!   memory of an older chunk.
//! - [`replay`] gives the updates of a log's records, or [`ReplayRefusal::Corrupt`] with the offset of the first record that
//!   is no chunk. [`replay_into`] adds them to a day as they are read, so that no list of them is kept, and counts them
//!   ([`Replayed`]).
//! - [`count_valid`] reports how many chunks of a file are good, and whether a fault follows them.
//!
//! ```text
//! let chunk = chunk_of(alloc, &schema, &entry)?;
//! journal.append(disk, &chunk)?;
//! let (journal, records) = Journal::load(alloc, disk, file)?;
//! let entries = replay(alloc, &schema, &records)?;       // the updates, in order
//! ```
//!
//! A record counts as a chunk only where it is what [`chunk_of`] writes of an update that the schema allows. So a log is read
//! in one way ([`a_log_is_read_in_one_way`]), and what another program wrote differently is refused.
//!
//! It opens no file but through a `Disk`, and doesn't judge updates by clocks or limits of its own.
#![tactic(auto)]

mod chunk;
mod columns;
mod count;
mod day;
mod laws;
mod layout;
mod reading;
mod records;
mod refusal;

pub use chunk::{Chunk, chunk_into, chunk_length, chunk_of, is_loggable};
pub use count::{CountRefusal, Valid, count_valid};
pub use day::{Replayed, replay_into};
pub use laws::a_log_is_read_in_one_way;
pub use records::replay;
pub use refusal::ReplayRefusal;
