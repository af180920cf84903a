//! Many passes at one plant: the access of a session that shares a plant with others, on threads of their own.
//!
//! [`Shared`] implements `plant_core::Access`, as `Solo` does for a plant that one session has to itself. Each call that
//! reaches the plant takes the lock round it once, makes one step, and gives it back; `by`, `schema` and `last_fault` take
//! no lock. What the access then shows as seen is the plant's whole chronicle at that moment. It begins with all that it had
//! seen before, and its entries with the access's number are exactly those that this access made.
//!
//! ```text
//! let schema = plant.shared_schema(alloc)?;
//! let first = plant.first_pass().ok_or(..)?;
//! let (lock, pass) = PlantLock::new(&rt, alloc, plant, first)?;
//! let (pass, other) = lock.pass(&rt, pass);
//! let mut session = Shared::new(&lock, other, schema);
//! match session.upd(&rt, alloc, &request, now) { .. }
//! let other = session.into_parts();
//! ```
//!
//! A function that starts a thread over the lock takes it as a [`PlantGuard`].
//!
//! While the lock is held an update is judged and its log record encoded and written; a snapshot or a tail shares the dates
//! that have ended, so it costs the open date's loose rows and the number of dates. Nothing is answered to a client then, and
//! no snapshot or tail is dropped. Which of two sessions comes first isn't said, unless one was told of the other's entry.
#![tactic(auto)]

mod guard;
mod shared;
mod turns;

pub use guard::PlantGuard;
pub use shared::Shared;
pub use turns::{Lock, PlantPass};
