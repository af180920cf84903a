//! A plant: it judges updates, logs them in memory and on a disk, ends its dates, and gives snapshots and tails to read.
//!
//! A plant stands for one list, its chronicle: updates, rolls (a roll ends the open date and opens the next) and faults (the
//! disk failed at an update or a roll, which isn't logged).
//! Everything that it answers is a function of that list, of its schema, its first date and its limits.
//!
//! - [`Plant`] changes in two steps. `prepare` judges an update and makes room for it, which may run out of memory;
//!   `commit` then writes it to the disk and logs it. `prepare_roll` and `commit_roll` end the open date in the same way.
//! - [`Access`] is what a session sees of a plant: it asks for an update, a look at the clock, or a snapshot. [`Solo`] is
//!   the access of a session that has a plant to itself.
//!
//! ```text
//! Plant::<D>::format(alloc, &mut disk, &schema)?;
//! let plant = Plant::load(alloc, disk, schema, 8_767, &Limits::standard())?;    // 2024.01.02
//! let mut solo = Solo::new(plant);
//! match solo.upd(&rt, alloc, &request, now) {
//!     UpdTurn::Logged { rolled, place } => ..,    // the indices of the roll before it, if any, and of its entry
//!     UpdTurn::Refused { length, why } => ..,     // why: the first refusal that holds, or NoMemory
//!     UpdTurn::Failed { rolled, place } => ..,    // the disk failed: the indices of the roll before it, if any, and of the fault
//! }
//! let disk = solo.into_plant().close();
//! ```
//!
//! What is logged outlives the process: whatever a restart finds of the disk, after a crash at any moment, is the log, or
//! the log and the one entry that was being written. `specs/Plant.antt` says so of each plant.
//!
//! The entries in memory, the verdict on an update and the snapshots are `plant_memory`'s. This crate reads no clock and runs
//! no queries (`session` does).
#![tactic(auto)]

mod access;
mod chronicle;
mod commits;
mod load;
mod plant;
mod solo;
mod turns;

pub use access::{Access, TickTurn, UpdTurn};
pub use chronicle::PlantFrame;
pub use load::LoadFailure;
pub use plant::Plant;
pub use plant_memory::{Snapshot, Tail};
pub use solo::Solo;
