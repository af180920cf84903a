//! The edge of the program: the devices of the machine that it runs on.
//!
//! - `StandardLink` makes the `Link` of a session from a reader and a writer. It counts read faults, write faults and read
//!   timeouts, and its contract says which bytes each read took from the reader and each write gave to the writer.
//! - `StandardOutside` makes the devices of a program over a runtime: standard input and output are a link of it, and so is
//!   each connection that it accepts on a port of this machine (`MachineLink`); its folders are the machine's, each locked
//!   while it is open, and its clock is the machine's. Warnings go to standard error.
//!
//! ```text
//! let wakers = Wakers::new(rt.alloc());
//! let mut outside = StandardOutside::new(&rt, &wakers, rt.stderr());
//! let disk = outside.folder(rt.alloc(), "plant");    // Err(MakeFault { cause: Cause::InUse }) where another has it open
//! ```
//!
//! It serves no session itself (`session` does), and keeps no bytes: a `SilentRecorder` forgets each turn, and a
//! `StandardLink` passes on what it reads and writes. The folders, the clock and the connections themselves are
//! `outside_real`'s.
#![tactic(auto)]

mod causes;
mod link;
mod machine_link;
mod outside;
mod recorder;

pub use link::StandardLink;
pub use machine_link::MachineLink;
pub use outside::StandardOutside;
pub use outside_mem::NoGate;
pub use outside_real::Wakers;
pub use recorder::SilentRecorder;
