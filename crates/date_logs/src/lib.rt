//! The manifest and the dates' logs of a plant's disk, as one durable list of entries.
//!
//! A plant notes updates and rolls. The manifest says which dates were opened, and each date has a log of its updates.
//! [`DateLogs`] is both: [`DateLogs::append`] adds an update to the open date's log, and [`DateLogs::roll`] ends the
//! open date and opens the next. Whenever the machine crashes, the files that are left restart as the entries so far, or
//! as these and the one that was being added. After an `Ok` the entry is in every image of the disk.
//!
//! ```text
//! let mut logs = DateLogs::begin(manifest, disk, 0, 8767)?;     // 2024.01.02, by pass 0
//! logs.append(disk, &chunk_of(alloc, &schema, &update)?)?;
//! logs.reserve()?;
//! if logs.may_open(7, 8768) {
//!     logs.roll(disk, 7, 8768)?;                                // 2024.01.03, by pass 7
//! }
//! ```
//!
//! The disk isn't held: each call is given it, and nobody else may write its files. `Stores` says what the files are,
//! and `Restarts` which entries a plant finds in an image of them; [`stored_entries_restart`] joins the two.
//!
//! A call that failed leaves the logs unclean, and perhaps its own entry, which a restart may find. The next call
//! repairs them first, and then that entry is in no image. Dates that are saved as parts aren't known here.
#![tactic(auto)]

mod file;
mod laws;
mod logs;
mod making;
mod refusal;

pub use file::log_file;
pub use laws::{files_restart_once, stored_entries_restart};
pub use logs::DateLogs;
pub use making::{NAMES_FILE, format};
pub use refusal::FormatRefusal;
