//! Tests of `partition_set`, `date_logs` and `date_loading` over a disk in memory: manifests, the logs of dates, and the plants
//! that they make, whole and spoiled.
//!
//! `manifests` has the bytes of a manifest, written out from the documented layout, and files that are damaged in one way each,
//! with the offset that `Manifest::load` answers; it opens many dates and loads them again, and lets a call of the disk fail.
//! `logs` goes through a script of twenty updates and two rolls and reads back what a restart finds, with a crash after each
//! call of the disk and with each call failing once. `plant` makes a plant of two dates and loads what its disk holds; `whole`
//! loads plants whose files are sound, `refused` those whose schema, date or files aren't, and `faults` lets calls of the disk
//! fail:
//!
//! ```text
//! qtplant1 | a5 3d 0 0 0 | 1, the table `quote` | a5 32 0 0 0 | 1, the table `trade` | 0
//! offset 0 |  8          |  13                  | 74          | 79                   | 129
//!
//! script    abcdefgRhijklmnRopqrst
//! restart   the entries that were added, or these and the next one
//!
//! 2024.01.02    some updates of the pass 3
//! 2024.01.03    opened by the pass 7, and one update of the pass 5
//! ```
//!
//! The contracts of the three crates say the same of every run; these tests show that the calls succeed at all, at a real size
//! too, and that the definitions mean these files.
#![tactic(auto)]

#[cfg(test)]
mod faults;
#[cfg(test)]
mod logs;
#[cfg(test)]
mod manifests;
#[cfg(test)]
mod plant;
#[cfg(test)]
mod refused;
#[cfg(test)]
mod whole;
