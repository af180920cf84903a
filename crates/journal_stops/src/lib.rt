//! Tests of `gated_journal` over a disk in memory: each call of the disk failing in turn, and a crash after each.
//!
//! `bytes` compares the bytes of a journal with their written layout, and loads each kind of corrupt file. `prefix` reads
//! files up to their first fault. `faults` lets one call of an append, a repair and a load fail, undone, torn at a byte or
//! done, and looks which records are found afterwards. `lost` lets a sync fail and drop what it should have written, and
//! looks what a crash leaves after later calls that succeed. `stops` takes the disk down after each call of an append, also one
//! that fails, and restarts it with images of what wasn't synced: kept, lost, torn at a byte, or as it was before:
//!
//! ```text
//! after call  0 1 2      3 (the gate was written, not synced)     4 (synced)
//! records     ab         ab, or ab and cde                        ab and cde
//! ```
//!
//! The contracts of the journal say the same of every run; these tests show that the calls succeed at all, and that the
//! definitions mean these bytes.
#![tactic(auto)]

#[cfg(test)]
mod bytes;
#[cfg(test)]
mod faults;
#[cfg(test)]
mod lost;
#[cfg(test)]
mod prefix;
#[cfg(test)]
mod steps;
#[cfg(test)]
mod stops;
