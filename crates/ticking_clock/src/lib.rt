//! A clock that ticks: it reads a start, and each further time a step more.
//!
//! A session with such a clock does the same at each run, so tests and examples use it (`once --clock T --step N`). It is a
//! `Clock` that reports all its readings, and which they are its contract says, by a type that names the start and the
//! step: a call picks them with `std::marker::Brand`.
//!
//! ```text
//! fn first_two<K: Ticks>(start: i64, step: i64) -> (i64, i64)      // requires start ≡ K.start, step ≡ K.step
//! {
//!     let mut clock = TickingClock::<K>::new(start, step);
//!     (clock.now(), clock.now())                                   // start, start + step
//! }
//! ```
//!
//! It saturates at the last `i64`, and reads no real time (`outside_real` has the machine's clock).
#![tactic(auto)]

mod ticking;

pub use ticking::{TickingClock, Ticks};
