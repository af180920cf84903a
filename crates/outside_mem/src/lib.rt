//! Devices in memory, for tests and for proofs about whole runs: what comes in is given to them beforehand, what goes out
//! is kept, and all of it is reported, so that contracts over `outside_api` say everything of it.
//!
//! [`MemLink`] reads a script of pieces, timeouts and faults, and keeps what it was written. [`MemDisk`] has numbered
//! files; its calls fail where that is planned, and [`MemDisk::restart`] is the disk as a crash leaves it. Beside them
//! [`MemClock`], [`SteadyClock`], [`MemRecorder`], [`MemTap`] and [`NoGate`].
//!
//! ```text
//! let mut disk = MemDisk::new(alloc);
//! disk.write_at(0, 0, b"abc")?;
//! disk.restart(alloc, Leaving::Shortest)?.bytes_of(0)   // empty: nothing was synced
//! disk.sync(0)?;
//! disk.restart(alloc, Leaving::Torn(0))?.bytes_of(0)    // abc, whatever the crash leaves
//! ```
//!
//! A device keeps no history as data: its past is a ghost that only contracts see. A call that is out of memory is a
//! fault like others, and is counted apart as `short`; a tap goes on without it, and keeps no more messages. A file of a
//! disk is found by an index, however many there are.
#![tactic(auto)]

mod calling;
mod clock;
mod copying;
mod files;
mod gate;
mod input;
mod link;
mod mem_disk;
mod mem_file;
mod recorder;
mod steady;
mod taking;
mod tap;
mod tape;

pub use calling::{Calling, Leaving, RangeLeft};
pub use clock::{MemClock, Moments};
pub use gate::NoGate;
pub use input::Piece;
pub use link::{MemLink, Pieces, Takings};
pub use mem_disk::{Callings, MemDisk};
pub use recorder::MemRecorder;
pub use steady::SteadyClock;
pub use taking::Taking;
pub use tap::{MemTap, Receiving, Receivings};
