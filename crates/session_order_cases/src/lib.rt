//! In which order a session calls its devices, as tests.
//!
//! The devices of `watched` are those in memory; each call of them, and of the access to the plant, goes into one list. Each
//! test of `order` serves one session and compares that list: a turn is noted before its bytes are written, and the gate pauses
//! after a roll, and between a snapshot and the answer over it.
//!
//! ```text
//! in      u:p 03 00, an update of trade by one row
//! calls   note, write, update, note, write
//! ```
//!
//! A disk that fails, and what a session answers then, is in `disk_sessions`. A contract says what each device got and keeps
//! no list over all of them, so the order of the calls of two devices is tested here.
//!
//! The crate has no code outside its tests. What is sent is compared in `plant_vectors`.
#![tactic(auto)]

#[cfg(test)]
mod order;
#[cfg(test)]
mod watched;
