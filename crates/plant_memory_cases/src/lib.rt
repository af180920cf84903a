//! Tests of `plant_memory`, through its public calls.
//!
//! `plants` begins a memory over the built-in schema, on 2024.01.02, and commits updates of its `trade`: atoms that
//! are spread to columns, a time that is left out, updates that are refused, a clock that is a day or two ahead, and
//! the order of rows before and after a date ends. `days` takes over a day of updates, and opens a date three days
//! later. `faults` notes a disk fault between updates. `tails` compares the entries from an index on with what was logged,
//! over blocks, rolls and faults. `records` compares the limit of log records, and the record that is prepared, with a
//! record's length, counted by hand. The expected values come from the documented order and the error texts of kdb+, not
//! from the contracts.
//!
//! One of the cases: after updates of `b`, `a` and `b`, the symbols are read as
//!
//! ```text
//! b a b    while the date is open, by arrival
//! a b b    once it has ended, by symbol and arrival
//! ```
//!
//! The tests are in a crate of their own since a crate with tests is proved twice, with and without them. They test
//! what no contract says: that a call doesn't run out of memory where there is enough, and that the definitions mean
//! what kdb+ means. Nothing else is in this crate.
#![tactic(auto)]

#[cfg(test)]
mod days;
#[cfg(test)]
mod faults;
#[cfg(test)]
mod plants;
#[cfg(test)]
mod records;
#[cfg(test)]
mod tails;
