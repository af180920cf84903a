//! Tests of `tick_log`, over journals in a disk in memory.
//!
//! `update` has one update and its chunk, byte by byte. `chunks` makes the chunk of the update, and reads chunks in which one
//! rule is broken; `files` counts and replays files that are truncated, extended or overwritten; `sizes` logs and replays 100,000
//! updates of one row, and 100 of 1,000 rows.
//!
//! ```text
//! ("another word", 15, b"upx"),        // the chunk with these bytes at this offset is refused
//! ```
//!
//! Each test makes its journals anew, on a disk that it has for itself.
//!
//! Updates are rows of the built-in table `trade`. What a crash leaves of a file is tested below, in `journal_stops`, and a
//! plant that is loaded again above, in `plant_core_cases`.
//!
//! Expected bytes and offsets are worked by hand from the layout, and come from no output of `tick_log`.
#![tactic(auto)]

#[cfg(test)]
mod chunks;
#[cfg(test)]
mod files;
#[cfg(test)]
mod sizes;
#[cfg(test)]
mod update;
