//! A disk in memory.
ghost use Rattle.std.specs.Prelude.{◌≡◌, ◌<◌, ◌≤◌, ◌+◌, ◌^◌, [], ◌∷◌, Option, None, Some, IfOk, OnOk, OnErr, IsTrue, length, take, drop};
ghost use Rattle.outside_api.specs.Counts.{counted};
ghost use Rattle.outside_mem.specs.MemFile.{file_in};
ghost use Rattle.outside_mem.specs.MemDisk.{new_disk, shown_by, next_calling, part_written, PlaysOn, AreLeft};

use crate::calling::{Calling, Leaving};
use crate::files::Files;
use crate::tape::Tape;
use ghost_history::History;
use outside_api::{Disk, DiskFault};
use q_values::{NoMemory, Sequence};
use std::alloc::Global;
use std::marker::Model;

/// How the calls of a disk go, in order; those after the last succeed.
pub type Callings = Sequence<Calling>;

// No file reaches this number of bytes.
const SIZE_LIMIT: u64 = 1 << 63;

/// A disk in memory. It reports its files at each moment, and so what a crash at each moment may leave of them; the
/// moments that have passed take no memory.
///
/// Its calls may be planned to fail, and it may go down: from then on each call fails. A call that is out of memory
/// counts as a fault, and is counted apart too.
#[derive(Drop)]
pub struct MemDisk {
    alloc: Global,
    // The files now.
    files: Files,
    // The files at each moment before, which only contracts see.
    past: History<Files>,
    // How the next calls go.
    callings: Tape<Calling>,
    // After how many more calls each call fails, if that is planned.
    left: Option<u64>,
    // How many calls failed.
    faults: u64,
    // How many calls were out of memory.
    short: u64,
}

impl Model for MemDisk {
    ghost use Rattle.outside_mem.specs.MemDisk.{MemDiskView};

    ghost Value = { MemDiskView };

    ghost view = { λ d. record { faults = d.faults; files = d.files; past = d.past; callings = d.callings; left = d.left; short = d.short } };
}

impl MemDisk {
    ghost use Rattle.outside_mem.specs.MemDisk.{MemDiskView};

    /// A disk whose files were never written, and whose calls all succeed. It takes no memory.
    pub fn new(alloc: Global) -> MemDisk
        ensures { result ≡ new_disk [] None }
    {
        MemDisk {
            alloc,
            files: Files::new(alloc),
            past: History::new(),
            callings: Tape::new(Sequence::new(alloc)),
            left: None,
            faults: 0,
            short: 0,
        }
    }

    /// Plans the next calls: they go as these, in order, and after `left` calls the disk goes down.
    pub fn plan(&mut self, callings: Callings, left: Option<u64>)
        ensures { self.new ≡ record self.old { callings = callings; left = left } }
    {
        self.callings = Tape::new(callings);
        self.left = left;
    }

    /// The disk as a crash at this moment leaves it, and as a restart finds it: of each file the image that is chosen,
    /// all of it durable.
    pub fn restart(&self, alloc: Global, leaving: Leaving) -> Result<MemDisk, NoMemory>
        ensures left { IfOk result (λ d. AreLeft leaving (file_in self.now.files) (file_in d.files)) }
        ensures fresh { IfOk result (λ d. d ≡ record (new_disk [] None) { files = d.files }) }
    {
        Ok(MemDisk {
            alloc,
            files: self.files.images(alloc, leaving)?,
            past: History::new(),
            callings: Tape::new(Sequence::new(alloc)),
            left: None,
            faults: 0,
            short: 0,
        })
    }

    /// The bytes of a file as reads give them.
    pub fn bytes_of(&self, file: u64) -> &[u8]
        ensures { result.now ≡ (file_in self.now.files file).bytes }
    {
        self.files.bytes_of(file)
    }

    /// How many calls failed.
    pub fn faults(&self) -> u64
        ensures { result ≡ self.now.faults }
    {
        self.faults
    }

    /// How many calls were out of memory.
    pub fn short(&self) -> u64
        ensures { result ≡ self.now.short }
    {
        self.short
    }

    fn fault(&mut self) -> DiskFault
        ensures { self.new ≡ record self.old { faults = counted self.old.faults 1 } }
    {
        self.faults = self.faults.saturating_add(1);
        DiskFault
    }

    // A fault of a call that is out of memory.
    fn short_fault(&mut self) -> DiskFault
        ensures { self.new ≡ record self.old { faults = counted self.old.faults 1; short = counted self.old.short 1 } }
    {
        self.short = self.short.saturating_add(1);
        self.fault()
    }

    // How this call goes.
    fn next(&mut self) -> Calling
        ensures calling { result ≡ next_calling self.old.left self.old.callings }
        ensures plays { PlaysOn self.old self.new }
        ensures same { self.new ≡ record self.old { callings = self.new.callings; left = self.new.left } }
    {
        let planned = self.callings.next();
        match self.left {
            Some(0) => return Calling::FailsUndone,
            Some(calls) => self.left = Some(calls - 1),
            None => {}
        }
        match planned {
            Some(calling) => calling,
            None => Calling::Succeeds,
        }
    }
}

impl Disk for MemDisk {
    ghost use Rattle.outside_api.specs.Disk.{Counts, Looks, Changes, IsWithin, Writing, Cutting, Syncing};
    ghost use Rattle.outside_mem.specs.MemDisk.{Goes, GoesFreely, Writes, Cuts, Syncs};

    ghost shown = { shown_by };

    fn size(&mut self, file: u64) -> Result<u64, DiskFault>
        ensures size { IfOk result (λ n. IsTrue (shown_by self.old).tells → n ≡ length ((shown_by self.old).now file).bytes) }
        ensures small { IfOk result (λ n. n < 2 ^ 63) }
        ensures looks { Looks (shown_by self.old) (shown_by self.new) }
        ensures counts { Counts (shown_by self.old) (shown_by self.new) result }
        ensures plays { PlaysOn self.old self.new }
        ensures goes { GoesFreely self.old self.new result }
    {
        let calling = self.next();
        self.past.push(&self.files);
        if calling != Calling::Succeeds {
            return Err(self.fault());
        }
        Ok(self.files.bytes_of(file).len() as u64)
    }

    fn read(&mut self, file: u64, at: u64, buf: &mut [u8]) -> Result<(), DiskFault>
        requires { IsWithin (shown_by self.old) file at (length buf.old) }
        ensures bytes { OnOk result (IsTrue (shown_by self.old).tells →
            buf.new ≡ take (length buf.old) (drop at ((shown_by self.old).now file).bytes)) }
        ensures looks { Looks (shown_by self.old) (shown_by self.new) }
        ensures counts { Counts (shown_by self.old) (shown_by self.new) result }
        ensures plays { PlaysOn self.old self.new }
        ensures goes { GoesFreely self.old self.new result }
    {
        let calling = self.next();
        self.past.push(&self.files);
        if calling != Calling::Succeeds {
            return Err(self.fault());
        }
        let bytes = self.files.bytes_of(file);
        copy_from(bytes, at as usize, buf);
        Ok(())
    }

    fn write_at(&mut self, file: u64, at: u64, bytes: &[u8]) -> Result<(), DiskFault>
        requires { IsWithin (shown_by self.old) file at 0 }
        ensures small { OnOk result (at + length bytes.now < 2 ^ 63) }
        ensures changes { IsTrue (shown_by self.old).tells → Changes (shown_by self.old) (shown_by self.new) file (Writing at bytes.now result) }
        ensures counts { Counts (shown_by self.old) (shown_by self.new) result }
        ensures plays { PlaysOn self.old self.new }
        ensures goes { Goes self.old self.new result }
        ensures writes { Writes self.old self.new file at bytes.now }
    {
        let calling = self.next();
        self.past.push(&self.files);
        if calling == Calling::FailsUndone {
            return Err(self.fault());
        }
        if at >= SIZE_LIMIT || bytes.len() as u64 >= SIZE_LIMIT - at {
            return Err(self.short_fault());
        }
        if calling == Calling::Succeeds {
            if self.files.write(self.alloc, file, at, bytes).is_err() {
                return Err(self.short_fault());
            }
            return Ok(());
        }
        let size = bytes.len() as u64;
        let part = part_of(calling, bytes);
        if self.files.spoil(self.alloc, file, at, part, size).is_err() {
            return Err(self.short_fault());
        }
        Err(self.fault())
    }

    fn cut(&mut self, file: u64, size: u64) -> Result<(), DiskFault>
        requires { IsWithin (shown_by self.old) file size 0 }
        ensures changes { IsTrue (shown_by self.old).tells → Changes (shown_by self.old) (shown_by self.new) file (Cutting size result) }
        ensures counts { Counts (shown_by self.old) (shown_by self.new) result }
        ensures plays { PlaysOn self.old self.new }
        ensures goes { GoesFreely self.old self.new result }
        ensures cuts { Cuts self.old self.new file size }
    {
        let calling = self.next();
        self.past.push(&self.files);
        if calling == Calling::FailsUndone {
            return Err(self.fault());
        }
        self.files.cut(file, size);
        if calling != Calling::Succeeds {
            return Err(self.fault());
        }
        Ok(())
    }

    fn sync(&mut self, file: u64) -> Result<(), DiskFault>
        ensures changes { IsTrue (shown_by self.old).tells → Changes (shown_by self.old) (shown_by self.new) file (Syncing result) }
        ensures counts { Counts (shown_by self.old) (shown_by self.new) result }
        ensures plays { PlaysOn self.old self.new }
        ensures goes { GoesFreely self.old self.new result }
        ensures syncs { Syncs self.old self.new file }
    {
        let calling = self.next();
        self.past.push(&self.files);
        match calling {
            Calling::Succeeds => self.files.sync(file),
            Calling::FailsUndone => return Err(self.fault()),
            Calling::FailsDone | Calling::FailsTorn(_) => {
                self.files.lose(file);
                return Err(self.fault());
            }
        }
        Ok(())
    }
}

// What a write of these bytes that fails writes.
fn part_of(calling: Calling, bytes: &[u8]) -> &[u8]
    ensures part { result.now ≡ part_written calling bytes.now }
    ensures short { length result.now ≤ length bytes.now }
{
    match calling {
        Calling::FailsTorn(count) => &bytes[..bytes.len().min(count as usize)],
        Calling::Succeeds | Calling::FailsUndone | Calling::FailsDone => bytes,
    }
}

fn copy_from(bytes: &[u8], at: usize, buf: &mut [u8])
    requires { at + length buf.old ≤ length bytes.now }
    ensures { buf.new ≡ take (length buf.old) (drop at bytes.now) }
{
    let count = buf.len();
    buf.copy_from_slice(&bytes[at..][..count]);
}
