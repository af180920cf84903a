//! Devices of the real machine: a folder of numbered files as a disk, its clock, a file read whole, and connections.
//!
//! - [`LockedFolder`] is a folder that this process has open and locked, and [`FolderDisk`] the `Disk` of a folder's
//!   files: the file of the number 7 is `f7`.
//! - [`RealClock`] is the machine's `Clock`, in nanoseconds since 2000.01.01.
//! - [`read_file`] reads a file whole, up to a size.
//! - [`OpenPort`] is a port of this machine that connections come to, and [`SocketLink`] the `Link` of one; the links of the
//!   same [`Wakers`] end each other's reads.
//! - [`read_waiting`], [`write_waiting`] and [`got_of`] are what links of other readers and writers are made of.
//!
//! ```text
//! let folder = LockedFolder::open(rt, alloc, "plant")?;   // Err(InUse) while another process has it open
//! let mut disk = FolderDisk::new(alloc, folder);
//! disk.write_at(7, 0, b"abc")?;                           // makes plant/f7
//! disk.sync(7)?;                                          // a power cut leaves f7 there, with its three bytes
//! let port = OpenPort::listen(rt, 5010)?;                 // Err(InUse) while another process listens on it
//! let wakers = Wakers::new(alloc);
//! if let Some(stream) = port.accept(rt)? {
//!     let mut link = SocketLink::new(rt, &wakers, stream);
//! }
//! ```
//!
//! What the machine holds no contract says: these devices report nothing of it. What is proved is that each call
//! returns, that a call of the disk fails only with its count of faults raised, and what is made of the system's
//! answers. Short writes, signals, a full disk and the order of the system's calls are tested, over a folder that
//! fails as planned, and each device once on real files and sockets, in `outside_real_cases`.
//!
//! `plant_edge` has standard input and output.
#![tactic(auto)]

mod clock;
mod folder;
mod folder_disk;
mod locked_folder;
mod numbered_files;
mod port;
mod reading;
mod retry;
mod socket;
mod wake;

pub use clock::RealClock;
pub use folder::{Folder, FolderFile};
pub use folder_disk::FolderDisk;
pub use locked_folder::{FolderRefusal, LockedFolder};
pub use port::{OpenPort, PortRefusal};
pub use reading::{ReadRefusal, read_file, read_whole};
pub use retry::{got_of, read_waiting, write_waiting};
pub use socket::{ReadTimeout, SocketLink, set_options};
pub use wake::Wakers;
