//! What a program uses of the world outside, as one trait: [`Outside`] makes its devices, reads its files, prints its
//! lines, listens for connections, and takes the devices back at its end.
//!
//! The program is generic over it, so that one body serves a real machine and, in tests, an outside in memory of which
//! everything is known. Each device that it makes is new: a link has given and taken nothing, a clock was never read, a
//! recorder has noted nothing. A folder is a `Disk` of numbered files. What couldn't be made, read, printed or listened for
//! is counted, and the fault names its cause in plain words. All devices but the outside itself may move to other threads.
//!
//! ```text
//! let disk = outside.folder(alloc, "plant")?;       // Err: MakeFault { cause: Cause::InUse }
//! let link = outside.standard()?;                   // standard input and output
//! outside.listen(5010)?;                            // Err: MakeFault { cause: Cause::PortInUse }
//! let client = outside.accept()?;                   // None: no connection came for a while
//! ..
//! outside.back(Some(link), None, Some(recorder));   // handed back, for whoever looks at the whole run
//! outside.keep(disk);
//! ```
//!
//! An outside may report what it made, read, printed and took back (`specs/Outside.antt`); its counts of faults and the port
//! that it listens on it always shows. The traits of the devices are `outside_api`'s. The outside in memory is
//! `mem_outside`'s, the real one `plant_edge`'s.
#![tactic(auto)]

mod fault;
mod outside;

pub use fault::{Cause, FileRefusal, MakeFault, SayFault};
pub use outside::Outside;
