//! An outside in memory, for tests of whole runs of the program.
//!
//! [`MemOutside`] is given the devices that it has to give: a link, a recorder, a folder and a file, and what its clocks
//! read. It keeps what was printed and what was handed back, so a test looks at all of a run and gives the disk of one run
//! to the next.
//!
//! ```text
//! let mut outside = MemOutside::new(alloc, MemDevices { link, recorder, folder, file, moment });
//! let status = run(&rt, alloc, &arguments, &mut outside);
//! let left = outside.into_left();
//! left.errors                 // the lines on standard error, each with its line feed
//! left.handed                 // the link, the clock and the recorder that were handed back last
//! left.disk                   // the folder's disk, for the next start
//! ```
//!
//! It reports all that it made, read, printed and took back. It opens no real file.
#![tactic(auto)]

mod devices;
mod outside;

pub use devices::{Handed, MemDevices, MemFile, MemFolder, MemLeft};
pub use outside::MemOutside;
