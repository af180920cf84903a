//! Tests of `plant_words` through its public call.
//!
//! They stand in a crate of their own, since a crate with tests in it is proved twice. Words are written in one text with
//! `|` between them:
//!
//! ```text
//! asked_words        command lines in several orders, and what they ask for
//! faulty_words       command lines that ask for nothing, and the line that says what is wrong
//! help_and_version   the texts that are shown
//! ```
//!
//! A row of a table is a command line and what it asks for, or the line that `bin/plant` prints under `plant: usage`:
//!
//! ```text
//! once|--step|7|--batch|--dir|d    one session over the folder `d`, with a clock that steps by 7 nanoseconds
//! ```
//!
//! No plant is run here: whole runs of the program are in `plant_serving_cases`.
#![tactic(auto)]

#[cfg(test)]
mod tests;
