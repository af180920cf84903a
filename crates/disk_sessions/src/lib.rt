//! Tests of sessions whose disk fails: the error `disk`, and what follows it.
//!
//! Each test serves one session over a plant on a disk in memory, one call of which fails. Then it loads the plant again
//! from what a crash leaves of the disk. The bytes are those of the IPC reference, written out in `test_sessions`.
//!
//! ```text
//! in      u:p 03 00, an update of trade by one row, the same again, "select from trade"
//! out     03, 'disk, (::), the table trade with one row
//! turns   Greeted 3, Failed 0, Logged 1, Answered 2
//! load    one update
//! ```
//!
//! Which calls of the disk a commit makes, and what each leaves where it fails, is tested in `plant_core_cases`.
//!
//! The crate has no code outside its tests. What a session answers over a disk that works is in `plant_vectors`.
#![tactic(auto)]

#[cfg(test)]
mod sessions;
#[cfg(test)]
mod sitting;
