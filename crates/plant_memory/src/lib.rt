//! A plant's entries in memory: it judges updates, appends them, ends its dates, and gives snapshots to read from.
//!
//! A [`Memory`] stands for one list, its chronicle: updates, rolls (a roll ends the open date and opens a later one)
//! and faults (the disk failed at an update or a roll, which isn't logged). Everything that it answers is a function
//! of that list, of its schema, its first date and its limits.
//!
//! - [`Memory`] changes in two steps. `prepare` judges an update and makes room for it, which may run out of memory;
//!   `commit` then appends it, which can't fail. `prepare_roll` and `commit_roll` end the open date in the same way.
//!   Between the two steps a caller may write the log record that [`Prepared`] holds to a disk.
//! - [`Snapshot`] is the whole chronicle at one moment, read by date, table and column. It shares the dates that have
//!   ended with the memory that it was taken of.
//! - [`Tail`] is the chronicle at one moment too, from an index on: what a subscriber that has read up to there has yet to
//!   be sent.
//!
//! ```text
//! let mut memory = Memory::begin(alloc, schema, 8_767, &Limits::standard())?;    // 2024.01.02
//! match memory.prepare(alloc, by, &request, now) {
//!     Ok(update) if update.rolls() => ..,     // end the open date, and then commit the update
//!     Ok(update) => memory.commit(update),    // the index of its entry
//!     Err(why) => ..,                         // why: the first refusal that holds, or NoMemory
//! }
//! let snapshot = memory.snapshot(alloc)?;
//! let prices = snapshot.column(alloc, 0, 1, 2, 0, snapshot.rows_at(0, 1))?;
//! ```
//!
//! An update is refused for the first of these that holds: no such table, the number or lengths of its items, a kind, a
//! clock that is two or more days ahead, a limit. `specs/Verdict.antt` defines it.
//!
//! It reads no clock and no bytes, runs no queries (`gateway` does), and keeps nothing on a disk (`plant_core` does).
#![tactic(auto)]

mod faults;
mod history;
mod items;
mod judge;
pub mod laws;
mod memory;
mod prepared;
mod refusal;
mod request;
mod snapshot;
mod tail;
mod weaving;

pub use judge::is_next_day;
pub use memory::Memory;
pub use prepared::{Prepared, PreparedRoll};
pub use refusal::UpdRefusal;
pub use request::UpdRequest;
pub use snapshot::Snapshot;
pub use tail::Tail;
