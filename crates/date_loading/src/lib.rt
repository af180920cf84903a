//! Loading a plant from its disk, one date after the other.
//!
//! [`Loading::open`] reads the manifest and judges it: the plant's tables are those of a schema, and the last date
//! that it opened isn't later than a given one. [`Loading::next_day`] then loads the log of one date after the
//! other, straight into a day ([`LoadedDay`]), so that no more than a day's log and one update's columns stand
//! beside the days. At the end [`Loading::finish`] gives the [`DateLogs`](date_logs::DateLogs) that store all of
//! them.
//!
//! ```text
//! let mut loading = Loading::open(alloc, disk, &schema, 8768)?;      // to go on at 2024.01.03
//! while let Some(loaded) = loading.next_day(alloc, disk, &schema)? {
//!     // loaded.by opened loaded.day, of loaded.counts.updates updates
//! }
//! match loading.finish() {
//!     Finished::Dated(logs) => ..,                // the open date is the last that was loaded
//!     Finished::Undated(manifest) => ..,          // no date was opened yet
//! }
//! ```
//!
//! [`LoadRefusal`] says why a plant isn't loaded, the first cause in its order. [`a_load_goes_in_one_way`] says
//! that no two of these causes hold at once.
//!
//! Nothing is written. Each file is synced before it is read. So from then on a crash keeps the entries that were
//! loaded, if no sync of these files had failed before. Dates that are saved as parts aren't known here.
#![tactic(auto)]

mod laws;
mod loading;
mod logs;
mod refusal;
mod tables;

pub use laws::a_load_goes_in_one_way;
pub use loading::{Finished, LoadedDay, Loading};
pub use refusal::LoadRefusal;
