//! The days of a plant: its schema, its entries, and the rows that they make, in kdb+'s documented order.
//!
//! A tickerplant keeps one list of entries, its *chronicle*: updates, the end of each date, faults. This crate defines
//! what such a list means, as rows in an order, and has the two forms in which the updates of one date are kept.
//!
//! - [`OpenDay`] is the date that is still written. It keeps its updates in blocks of at least 1,024 rows, each with the
//!   columns of its rows and a mark for each update, and reads a column in the order of arrival. Copies share the blocks
//!   that are full, and copy the rows after them.
//! - [`ClosedDay`] is a date that has ended. It has the blocks, and for each table the order of its rows, by symbol and
//!   then by arrival: no row is kept twice.
//! - [`Schema`] names the tables of a plant and their columns. Contracts know of it that it is sorted by name, that its
//!   names are names, and that each table begins with `time` and `sym`.
//!
//! One date, from its first update to its end:
//!
//! ```text
//! let mut day = OpenDay::new(alloc, &schema, 8_767)?;       // 2024.01.02
//! if day.admits(&entries) {
//!     day.reserve(&entries)?;                               // copies the rows; may run out of memory, and then changes nothing
//!     day.push(entry);                                      // the first of `entries`; takes no memory
//! }
//! let prices = day.column(alloc, 1, 2, 0, day.rows(1))?;    // table 1, column 2, by arrival
//! let order = day.close_order(alloc)?;                      // sorts by symbol; may run out of memory
//! let ended = day.close(order);                             // a ClosedDay; takes no memory
//! ```
//!
//! Indices count from 0: a table's in the schema, a column's in its table, a row's in its table and date. Dates are in
//! days since 2000.01.01. The only error is `NoMemory`.
//!
//! It doesn't judge updates or clocks (`plant_core` does), has no chronicle of more than one date in memory, and writes
//! nothing to a disk. `specs/Chronicle.antt` has the documented order; [`view_is_by_dates`] and
//! [`view_has_each_row_once`] are what holds of it for every chronicle.
#![tactic(auto)]

mod admits;
mod block;
mod blocks;
mod chronicle;
mod closed_day;
mod copies;
mod entry;
mod open_day;
mod schema;
mod schema_copies;
mod store;
mod table;
mod trace;
mod updates;

pub use admits::{have_equal_lengths, have_kinds, row_count};
pub use chronicle::{view_has_each_row_once, view_is_by_dates};
pub use closed_day::{ClosedDay, DayOrder};
pub use entry::{Entries, Entry};
pub use open_day::OpenDay;
pub use schema::{Counts, Kinds, SavedRecord, Schema, Shape};
