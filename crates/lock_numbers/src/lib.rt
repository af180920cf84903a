//! A caller of `plant_lock`: threads that add numbers to one list under a lock, each number with the pass that added it.
//!
//! [`Numbers`] is the state under the lock and stands for its list of [`Made`] numbers. [`add`] takes the lock, adds one
//! number and gives the list back; [`push_both`] does it from two threads at once, and its contract says what both passes
//! have then seen: one list that begins with all that each had seen before, with each one's own number once.
//!
//! ```text
//! let (lock, first) = PlantLock::new(rt, alloc, Numbers { all: Vec::new(alloc) }, 1)?;
//! let (first, second) = lock.pass(rt, first);
//! let ((first, _), (second, _)) = push_both(rt, &lock, first, second, 7, 8);
//! ```
//!
//! It shows that the conditions of the lock's calls can be met, and what its promises come to for a program with threads.
//! Which of two threads adds first isn't said. Times are in `lock_bench`, and the plant that is shared so in `plant_shared`.
//! Nothing that runs in the program stands on this crate.
#![tactic(auto)]

mod numbers;
mod threads;

pub use numbers::{Asker, Made, Numbers, add, add_all};
pub use threads::push_both;

#[cfg(test)]
mod tests;
