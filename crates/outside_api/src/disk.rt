//! A disk of numbered files, on a machine that may crash at any moment.
ghost use Rattle.std.specs.Prelude.{◌≡◌, ◌<◌, ◌≤◌, ◌+◌, ◌^◌, IsTrue, length, take, drop, IfOk, OnOk, OnErr};

use thiserror::Error;

/// A call of a disk failed.
#[derive(Clone, Copy, Debug, PartialEq, Eq, Error)]
#[error("the disk failed")]
pub struct DiskFault;

/// Numbered files of bytes. A file that was never written has size 0, and each size is below 2^63.
///
/// A disk may report what its files hold, for each moment: one after each call, whether that failed or not. So the moments
/// also tell how many calls were made. A crash at a moment leaves an image of each file as it is then; a crash within a
/// call leaves what one before the call or one after it may leave.
///
/// A sync that fails may have dropped what it should have made durable, and a later sync that succeeds doesn't bring that
/// back: what was written since the last sync before the failed one counts only once it is written anew and then synced.
/// Reads still give it until the machine goes down.
pub trait Disk {
    ghost use Rattle.outside_api.specs.Disk.{DiskView, Counts, Looks, Changes, IsWithin, Writing, Cutting, Syncing};

    /// What it shows: its count of faults and, where it reports them, its files at each moment.
    ghost shown: { Self → DiskView };

    /// The file's size, in bytes.
    fn size(&mut self, file: u64) -> Result<u64, DiskFault>
        ensures size { IfOk result (λ n. IsTrue (shown self.old).tells → n ≡ length ((shown self.old).now file).bytes) }
        ensures small { IfOk result (λ n. n < 2 ^ 63) }
        ensures looks { Looks (shown self.old) (shown self.new) }
        ensures counts { Counts (shown self.old) (shown self.new) result };

    /// Fills the buffer with the bytes from the offset `at` on.
    fn read(&mut self, file: u64, at: u64, buf: &mut [u8]) -> Result<(), DiskFault>
        requires { IsWithin (shown self.old) file at (length buf.old) }
        ensures bytes { OnOk result (IsTrue (shown self.old).tells →
            buf.new ≡ take (length buf.old) (drop at ((shown self.old).now file).bytes)) }
        ensures looks { Looks (shown self.old) (shown self.new) }
        ensures counts { Counts (shown self.old) (shown self.new) result };

    /// Writes the bytes from the offset `at` on, over what is there and past the end. Until a sync that succeeds, a crash may
    /// leave any bytes in this range. A sync that succeeds makes the write durable, unless the write failed, or a sync
    /// between them did.
    fn write_at(&mut self, file: u64, at: u64, bytes: &[u8]) -> Result<(), DiskFault>
        requires { IsWithin (shown self.old) file at 0 }
        ensures small { OnOk result (at + length bytes.now < 2 ^ 63) }
        ensures changes { IsTrue (shown self.old).tells → Changes (shown self.old) (shown self.new) file (Writing at bytes.now result) }
        ensures counts { Counts (shown self.old) (shown self.new) result };

    /// Truncates the file to a size, in bytes. Until a sync that succeeds, a crash may leave what was there; where a sync of
    /// the file has failed, that may come back later too.
    fn cut(&mut self, file: u64, size: u64) -> Result<(), DiskFault>
        requires { IsWithin (shown self.old) file size 0 }
        ensures changes { IsTrue (shown self.old).tells → Changes (shown self.old) (shown self.new) file (Cutting size result) }
        ensures counts { Counts (shown self.old) (shown self.new) result };

    /// Makes durable what was written since the last sync. Where no sync of the file has failed, a crash afterwards leaves
    /// what reads give.
    ///
    /// After a fault what was written since the last sync may be lost.
    fn sync(&mut self, file: u64) -> Result<(), DiskFault>
        ensures changes { IsTrue (shown self.old).tells → Changes (shown self.old) (shown self.new) file (Syncing result) }
        ensures counts { Counts (shown self.old) (shown self.new) result };
}
