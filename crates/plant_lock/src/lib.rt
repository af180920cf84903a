//! A lock round a state that stands for a growing list of entries. Whoever takes it finds a list that begins with all
//! that their pass had seen, and two passes that exchanged a note have seen beginnings of one list.
//!
//! A [`Pass`] belongs to one user of the lock, such as one session. It has a number of its own, the beginning of the list
//! that this user has seen, and the entries that this user added. [`PlantLock::take`] gives a [`Held`], which has the
//! state; it can't be dropped, and [`Held::give`] puts the state back and counts the entries that were added.
//! [`PlantLock::note`] and [`PlantLock::learn`] carry what one pass has seen to another, and [`PlantLock::pass`] draws a
//! new number:
//!
//! ```text
//! let (lock, first) = PlantLock::new(rt, alloc, state, 1)?;
//! let (first, second) = lock.pass(rt, first);    // the second pass has seen what the first has
//! let mut held = lock.take(rt, first);           // waits for its turn
//! held.state().add(entry);                       // an entry of the number `held.number()`
//! let (first, note) = lock.note(held.give());
//! let second = lock.learn(second, note);         // it has now seen the entry too
//! ```
//!
//! The order of the holders is that of their tickets. A taker draws a ticket where it is served at once; until then it
//! waits without one, and after two sleeps it draws the next and keeps its place. A give wakes one thread: whoever has the
//! next ticket, or one of those without. No call but [`PlantLock::new`] takes memory. No contract claims anything of
//! waiting, of fairness or of freedom from deadlock.
#![tactic(auto)]

mod board;
mod chronicle;
mod held;
mod lock;
mod pass;
mod plays;
mod sleepers;
mod steps;
mod view;

pub use chronicle::Chronicle;
pub use held::Held;
pub use lock::{NewFailure, NoteOf, PassOf, PlantLock};
pub use pass::{Note, Pass};
