//! What a plant uses of the world outside, as traits: a link, a disk, a clock, a gate, a recorder and a tap.
//!
//! Each call of the plant that reads, writes or waits is generic over these traits, and its contract speaks of what the
//! device shows before and after. A device may report what passed through it (a [`Link`] the bytes given and taken, a
//! [`Disk`] its files at each moment, a [`Clock`] its readings, a [`Recorder`] the turns noted, a [`Tap`] the
//! messages taken). What it doesn't report,
//! no contract says; its counts of faults and read timeouts it always shows. So one body serves a device in memory, of
//! which everything is known, and a real one, of which nothing is.
//!
//! ```text
//! fn echo<L: Link>(link: &mut L, buf: &mut [u8]) -> bool {
//!     match link.read(buf) {
//!         Got::Bytes(n) => link.write(&buf[..n]).is_ok(),
//!         Got::End | Got::Idle | Got::Failed => false,
//!     }
//! }
//! ```
//!
//! The devices themselves are in other crates: in memory in `outside_mem`, the real ones in `plant_edge`. Nothing here
//! says that a read ever gives bytes, or how long a call takes.
#![tactic(auto)]

mod clock;
mod disk;
mod gate;
mod link;
mod range;
mod recorder;
mod tap;

pub use clock::Clock;
pub use disk::{Disk, DiskFault};
pub use gate::{Gate, Point};
pub use link::{Got, Link, LinkFault};
pub use range::{RangeState, WrittenRange};
pub use recorder::Recorder;
pub use tap::{Tap, TapFault, TapMessage};
