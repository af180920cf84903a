//! Tests of `plant_core` over a disk in memory, through its public calls.
//!
//! `passes` goes through the calls of a pass that has a plant to itself; `damaged` spoils a log; `sizes` logs many rows and
//! many updates, and loads them again; `closed` gives the disks and the plants that they share. `reload` closes plants and
//! loads them again; `crashes` lets calls of the disk fail, and takes the disk down after each of them.
//!
//! ```text
//! let mut solo = new_solo(alloc)?;                       // a plant on a new disk, held by one pass
//! logs(rt, alloc, &mut solo, row, now)?;                  // one update of one row
//! let mut disk = solo.into_plant().close();
//! disk.write_at(log, 96, b"\xa5");                       // spoils the log
//! load(alloc, disk, date)                                // `CorruptLog`, with the date, the whole chunks and their bytes
//! ```
//!
//! The expected values come from the documented layout of the log, not from the contracts. The tests are in a crate of
//! their own since a crate with tests is proved twice, with and without them. No session asks here (`disk_sessions`).
#![tactic(auto)]

#[cfg(test)]
mod closed;
#[cfg(test)]
mod crashes;
#[cfg(test)]
mod damaged;
#[cfg(test)]
mod passes;
#[cfg(test)]
mod reload;
#[cfg(test)]
mod sizes;
