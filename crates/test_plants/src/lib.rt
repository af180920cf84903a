//! Plants over a disk in memory, for tests.
//!
//! A plant has the built-in schema and begins on 2024.01.02. The calls format its disk, load it, send updates of one row of
//! `trade`, and read columns of `trade` from a snapshot.
//!
//! ```text
//! new_solo    a plant on a new disk, held by one pass
//! logs        one update of one row
//! load        the plant that a disk stands for
//! shown       a column of one date
//! ```
//!
//! A row of `trade` is a tuple: a time in nanoseconds, a symbol, a price and a size. `one_failing` is the plan of a disk of
//! which one call fails, for tests of what a plant does then.
//!
//! Several crates of tests stand on it, so that this is proved once. It checks nothing itself.
#![tactic(auto)]

mod plants;

pub use plants::{
    FIRST, LOAD_CALLS, NINE_THIRTY, NOW, Row, TRADE, alone, are_longs, are_symbols, formatted,
    load, logs, new_solo, one_failing, request_of, sent, shown, solo_at, symbol,
};
