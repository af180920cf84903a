//! The files of a disk in memory, by their numbers.
ghost use Rattle.std.specs.Prelude.{◌≡◌, ◌≢◌, ◌⊎◌, ◌<◌, ◌≤◌, ◌+◌, ◌^◌, ℕ, length, take, drop, map, slice_get, Some, IfOk, IfSome, IfNone, OnOk, OnErr, List};
ghost use Rattle.outside_api.specs.Disk.{FileState, put, written, spoiled, cut_to, synced, unsettled, empty_file};
ghost use Rattle.outside_mem.specs.Places.{Finds};
ghost use Rattle.outside_mem.specs.MemFile.{file_in, ChangesFile, LosesFile, IsFirst, IsAbsent};

use crate::calling::Leaving;
use crate::mem_file::MemFile;
use q_values::NoMemory;
use std::alloc::Global;
use std::collections::BTreeMap;
use std::marker::Model;

/// A file and its number.
#[derive(Drop)]
pub struct Numbered {
    /// The file's number.
    pub number: u64,
    /// The file.
    pub file: MemFile,
}

/// Numbered files, each found by an index, however many there are.
#[derive(Drop)]
pub struct Files {
    // The files that were written, in the order of their first writes.
    entries: Vec<Numbered>,
    // The place of each number among them.
    places: BTreeMap<u64, usize>,
}

impl Model for Files {
    ghost use Rattle.std.specs.Prelude.{List};
    ghost use Rattle.outside_mem.specs.declared.files.Numbered.{Numbered};

    ghost Value = { List Numbered };

    ghost view = { λ f. f.entries.items };

    ghost use Rattle.std.specs.Prelude.{map};
    ghost use Rattle.outside_mem.specs.Places.{Finds};

    ghost invariant = { λ f. Finds f.places (map (λ e. e.number) f.entries.items) };
}

// The index of the file of this number.
fn place_of(places: &BTreeMap<u64, usize>, entries: &[Numbered], number: u64) -> Option<usize>
    requires { Finds places.now (map (λ e. e.number) entries.now) }
    ensures within { IfSome result (λ i. i < length entries.now) }
    ensures found { IfSome result (λ i. IsFirst entries.now number i) }
    ensures none { IfNone result (IsAbsent entries.now number) }
{
    let _entries = entries;
    match places.get(&number) {
        Some(place) => Some(*place),
        None => None,
    }
}

impl Files {
    ghost use Rattle.std.specs.Prelude.{[]};
    ghost use Rattle.outside_mem.specs.MemDisk.{AreLeft};

    /// No files, which takes no memory.
    pub fn new(alloc: Global) -> Files
        ensures { result ≡ [] }
    {
        Files {
            entries: Vec::new(alloc),
            places: BTreeMap::new(alloc),
        }
    }

    /// The bytes of a file as reads give them; none of one that was never written.
    pub fn bytes_of(&self, number: u64) -> &[u8]
        ensures bytes { result.now ≡ (file_in self.now number).bytes }
        ensures small { length result.now < 2 ^ 63 }
    {
        match place_of(&self.places, self.entries.as_slice(), number) {
            Some(i) => self.entries[i].file.bytes(),
            None => &[],
        }
    }

    /// Writes the bytes from the offset `at` on. A refused call changes no file.
    pub fn write(
        &mut self,
        alloc: Global,
        number: u64,
        at: u64,
        bytes: &[u8],
    ) -> Result<(), NoMemory>
        requires within { at ≤ length (file_in self.old number).bytes }
        requires small { at + length bytes.now < 2 ^ 63 }
        ensures ok { OnOk result (ChangesFile (file_in self.old) (file_in self.new) number
            (written (file_in self.old number) at (length bytes.now) (put (file_in self.old number).bytes at bytes.now))) }
        ensures err { OnErr result ((k : ℕ) → file_in self.new k ≡ file_in self.old k) }
    {
        let i = self.entry(alloc, number)?;
        self.entries[i].file.write(alloc, at, bytes)
    }

    /// Writes bytes from the offset `at` on, of a write of `size` bytes that fails. A refused call changes no file.
    pub fn spoil(
        &mut self,
        alloc: Global,
        number: u64,
        at: u64,
        bytes: &[u8],
        size: u64,
    ) -> Result<(), NoMemory>
        requires within { at ≤ length (file_in self.old number).bytes }
        requires part { length bytes.now ≤ size }
        requires small { at + size < 2 ^ 63 }
        ensures ok { OnOk result (ChangesFile (file_in self.old) (file_in self.new) number
            (spoiled (file_in self.old number) at size (put (file_in self.old number).bytes at bytes.now))) }
        ensures err { OnErr result ((k : ℕ) → file_in self.new k ≡ file_in self.old k) }
    {
        let i = self.entry(alloc, number)?;
        self.entries[i].file.spoil(alloc, at, bytes, size)
    }

    // The index of the file of this number, which is made where it is missing.
    fn entry(&mut self, alloc: Global, number: u64) -> Result<usize, NoMemory>
        ensures same { (k : ℕ) → file_in self.new k ≡ file_in self.old k }
        ensures within { IfOk result (λ i. i < length self.new) }
        ensures first { IfOk result (λ i. IsFirst self.new number i) }
    {
        if let Some(i) = place_of(&self.places, self.entries.as_slice(), number) {
            return Ok(i);
        }
        let i = self.entries.as_slice().len();
        self.entries.reserve(1)?;
        self.places.insert(number, i)?;
        let file = MemFile::new(alloc);
        self.entries.push_reserved(Numbered { number, file });
        Ok(i)
    }

    /// Truncates a file to a size, in bytes.
    pub fn cut(&mut self, number: u64, size: u64)
        requires { size ≤ length (file_in self.old number).bytes }
        ensures { ChangesFile (file_in self.old) (file_in self.new) number (cut_to size (file_in self.old number)) }
    {
        if let Some(i) = place_of(&self.places, self.entries.as_slice(), number) {
            self.entries[i].file.cut(size);
        }
    }

    /// Syncs a file.
    pub fn sync(&mut self, number: u64)
        ensures { ChangesFile (file_in self.old) (file_in self.new) number (synced (file_in self.old number)) }
    {
        if let Some(i) = place_of(&self.places, self.entries.as_slice(), number) {
            self.entries[i].file.sync();
        }
    }

    /// A sync of a file that fails: what isn't durable may be lost. A file that was never written stays as it is.
    pub fn lose(&mut self, number: u64)
        ensures { LosesFile (file_in self.old) (file_in self.new) number }
    {
        if let Some(i) = place_of(&self.places, self.entries.as_slice(), number) {
            self.entries[i].file.lose();
        }
    }

    /// The files as a crash leaves them, all of them durable.
    pub fn images(&self, alloc: Global, leaving: Leaving) -> Result<Files, NoMemory>
        ensures { IfOk result (λ f. AreLeft leaving (file_in self.now) (file_in f)) }
    {
        let places = self.places.clone()?;
        let mut entries = Vec::with_capacity(alloc, self.entries.as_slice().len())?;
        for entry in &self.entries {
            let image = entry.file.image(alloc, leaving)?;
            entries.push(Numbered {
                number: entry.number,
                file: MemFile::from_vec(alloc, image),
            })?;
        }
        Ok(Files { entries, places })
    }
}
