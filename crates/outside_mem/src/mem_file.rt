//! A file in memory, and what a crash may leave of it.
ghost use Rattle.std.specs.Prelude.{◌≡◌, ◌⊎◌, ◌<◌, ◌≤◌, ◌+◌, ◌-◌, ◌^◌, ℕ, length, take, drop, slice_index, map, IfOk, OnOk, OnErr, [], ◌∷◌};
ghost use Rattle.std.specs.List.{AllByRecursion};
ghost use Rattle.outside_api.specs.Disk.{put, IsBeside, IsDurableAt, IsKeptAt, in_state, after_sync, after_fault};
ghost use Rattle.outside_mem.specs.Ranges.{EndsEarly, IsInDoubt, IsNotKept};
ghost use Rattle.outside_mem.specs.MemFile.{IsLeftSo, IsRangeLeft};

use crate::calling::{Leaving, RangeLeft};
use outside_api::{RangeState, WrittenRange};
use q_values::NoMemory;
use std::alloc::Global;
use std::marker::Model;

/// A file in memory: its bytes, and the ranges of it that were written.
#[derive(Drop)]
pub struct MemFile {
    // The bytes as reads give them.
    bytes: Vec<u8>,
    // The ranges that were written since the last sync, or since the last one before a sync failed, each ending below 2^63.
    ranges: Vec<WrittenRange>,
    // For each of these ranges the bytes that its write replaced.
    replaced: Vec<Vec<u8>>,
    // The least size that a crash may leave, at most the number of bytes.
    least: u64,
    // The greatest size that a crash may leave, at least the number of bytes and below 2^63.
    greatest: u64,
    // How far the writes reach that succeeded since the last sync.
    reach: u64,
    // Whether a sync has failed.
    failed: bool,
}

impl Model for MemFile {
    ghost use Rattle.std.specs.Prelude.{◌≤◌, ◌<◌, ◌^◌, ◌+◌, length};
    ghost use Rattle.std.specs.List.{AllByRecursion};
    ghost use Rattle.outside_api.specs.Disk.{FileState};
    ghost use Rattle.outside_mem.specs.Ranges.{EndsEarly};

    ghost Value = { FileState };

    ghost view = { λ f. record {
      bytes = f.bytes.items;
      ranges = f.ranges.items;
      least = f.least;
      greatest = f.greatest;
      reach = f.reach;
      failed = f.failed;
    } };

    ghost invariant = { λ f. (f.least ≤ length f.bytes.items) × (length f.bytes.items ≤ f.greatest) × (f.greatest < 2 ^ 63)
        × AllByRecursion EndsEarly f.ranges.items };
}

impl MemFile {
    ghost use Rattle.outside_api.specs.Disk.{FileState, empty_file, kept_file, with_range, written, spoiled, cut_to, synced, unsettled};
    ghost use Rattle.outside_mem.specs.MemFile.{IsLeft};

    /// A file that was never written; it takes no memory.
    pub fn new(alloc: Global) -> MemFile
        ensures { result ≡ empty_file }
    {
        MemFile {
            bytes: Vec::new(alloc),
            ranges: Vec::new(alloc),
            replaced: Vec::new(alloc),
            least: 0,
            greatest: 0,
            reach: 0,
            failed: false,
        }
    }

    /// A file that holds these bytes, all of them durable.
    pub fn from_vec(alloc: Global, bytes: Vec<u8>) -> MemFile
        requires { length bytes.items < 2 ^ 63 }
        ensures { result ≡ kept_file bytes.items }
    {
        let size = bytes.as_slice().len() as u64;
        MemFile {
            bytes,
            ranges: Vec::new(alloc),
            replaced: Vec::new(alloc),
            least: size,
            greatest: size,
            reach: 0,
            failed: false,
        }
    }

    /// The bytes as reads give them.
    pub fn bytes(&self) -> &[u8]
        ensures bytes { result.now ≡ self.now.bytes }
        ensures small { length result.now < 2 ^ 63 }
    {
        self.bytes.as_slice()
    }

    /// Writes the bytes from the offset `at` on. A refused call changes nothing.
    pub fn write(&mut self, alloc: Global, at: u64, bytes: &[u8]) -> Result<(), NoMemory>
        requires within { at ≤ length self.old.bytes }
        requires small { at + length bytes.now < 2 ^ 63 }
        ensures ok { OnOk result (self.new ≡ written self.old at (length bytes.now) (put self.old.bytes at bytes.now)) }
        ensures err { OnErr result (self.new ≡ self.old) }
    {
        let size = bytes.len() as u64;
        let state = RangeState::Unsynced;
        self.add_range(alloc, WrittenRange { at, size, state }, bytes)?;
        self.reach = self.reach.max(at + size);
        Ok(())
    }

    /// Writes bytes from the offset `at` on, of a write of `size` bytes that fails. A refused call changes nothing.
    pub fn spoil(&mut self, alloc: Global, at: u64, bytes: &[u8], size: u64) -> Result<(), NoMemory>
        requires within { at ≤ length self.old.bytes }
        requires part { length bytes.now ≤ size }
        requires small { at + size < 2 ^ 63 }
        ensures ok { OnOk result (self.new ≡ spoiled self.old at size (put self.old.bytes at bytes.now)) }
        ensures err { OnErr result (self.new ≡ self.old) }
    {
        let state = RangeState::Lost;
        self.add_range(alloc, WrittenRange { at, size, state }, bytes)
    }

    // Writes bytes at the beginning of a range.
    fn add_range(
        &mut self,
        alloc: Global,
        range: WrittenRange,
        bytes: &[u8],
    ) -> Result<(), NoMemory>
        requires within { range.at ≤ length self.old.bytes }
        requires part { length bytes.now ≤ range.size }
        requires small { range.at + range.size < 2 ^ 63 }
        ensures ok { OnOk result (self.new ≡ with_range self.old range (put self.old.bytes range.at bytes.now)) }
        ensures err { OnErr result (self.new ≡ self.old) }
    {
        self.ranges.reserve(1)?;
        self.replaced.reserve(1)?;
        let at = range.at as usize;
        let before = bytes_from(alloc, self.bytes.as_slice(), at, bytes.len())?;
        write_over(&mut self.bytes, at, bytes)?;
        self.greatest = self.greatest.max(range.at + range.size);
        self.ranges.push_reserved(range);
        self.replaced.push_reserved(before);
        Ok(())
    }

    /// Truncates it to a size, in bytes.
    pub fn cut(&mut self, size: u64)
        requires { size ≤ length self.old.bytes }
        ensures { self.new ≡ cut_to size self.old }
    {
        self.bytes.truncate(size as usize);
        self.least = self.least.min(size);
    }

    /// Syncs it: what was written since the last sync is durable, and all of it where no sync has failed.
    pub fn sync(&mut self)
        ensures { self.new ≡ synced self.old }
    {
        let size = self.bytes.as_slice().len() as u64;
        if self.failed {
            keep_all(self.ranges.as_mut_slice());
            self.least = self.least.max(size.min(self.reach));
            self.reach = 0;
            return;
        }
        self.ranges.clear();
        self.replaced.clear();
        self.least = size;
        self.greatest = size;
        self.reach = 0;
    }

    /// A sync that fails: what isn't durable may be lost.
    pub fn lose(&mut self)
        ensures { self.new ≡ unsettled self.old }
    {
        lose_all(self.ranges.as_mut_slice());
        self.reach = 0;
        self.failed = true;
    }

    /// What a crash leaves of it, as chosen.
    pub fn image(&self, alloc: Global, leaving: Leaving) -> Result<Vec<u8>, NoMemory>
        ensures left { IfOk result (λ v. IsLeft leaving self.now v.items) }
        ensures small { IfOk result (λ v. length v.items < 2 ^ 63) }
    {
        match leaving {
            Leaving::Whole => Ok(Vec::from_slice(alloc, self.bytes.as_slice())?),
            Leaving::Torn(byte) => {
                let mut torn = Vec::from_slice(alloc, self.bytes.as_slice())?;
                tear(
                    torn.as_mut_slice(),
                    self.ranges.as_slice(),
                    byte,
                    self.bytes.as_slice(),
                );
                Ok(torn)
            }
            Leaving::Shortest => Ok(Vec::from_slice(
                alloc,
                &self.bytes.as_slice()[..self.least as usize],
            )?),
            Leaving::Range { index, left } => self.image_of_range(alloc, index, left),
        }
    }

    // What reads give, with the range of an index left so.
    fn image_of_range(
        &self,
        alloc: Global,
        index: usize,
        left: RangeLeft,
    ) -> Result<Vec<u8>, NoMemory>
        ensures left { IfOk result (λ v. IsLeftSo index left self.now v.items) }
    {
        let mut image = Vec::from_slice(alloc, self.bytes.as_slice())?;
        if index >= self.ranges.len() {
            return Ok(image);
        }
        let range = self.ranges[index];
        if range.state == RangeState::Kept {
            return Ok(image);
        }
        let before: &[u8] = match self.replaced.get(index) {
            Some(bytes) => bytes.as_slice(),
            None => &[],
        };
        let later = &self.ranges.as_slice()[index + 1..];
        leave_so(
            image.as_mut_slice(),
            &range,
            later,
            left,
            before,
            self.bytes.as_slice(),
        );
        Ok(image)
    }
}

// Leaves a range so, and puts back what was written to it later and is durable.
fn leave_so(
    image: &mut [u8],
    range: &WrittenRange,
    later: &[WrittenRange],
    left: RangeLeft,
    before: &[u8],
    kept: &[u8],
)
    requires early { EndsEarly range.now }
    requires ends { AllByRecursion EndsEarly later.now }
    requires whole { image.old ≡ kept.now }
    ensures length { length image.new ≡ length image.old }
    ensures others { (k : ℕ) → IsBeside k range.now → slice_index image.new k ≡ slice_index kept.now k }
    ensures kept { (k : ℕ) → k < length image.new → IsKeptAt k later.now → slice_index image.new k ≡ slice_index kept.now k }
    ensures so { AllByRecursion IsNotKept later.now → IsRangeLeft left range.now.at range.now.size kept.now image.new }
{
    leave_range(image, range.at, range.size, left, before);
    put_kept(image, later, kept);
}

// The state of a range after a sync that succeeded.
fn state_kept(state: RangeState) -> RangeState
    ensures { result ≡ after_sync state }
{
    match state {
        RangeState::Unsynced | RangeState::Kept => RangeState::Kept,
        RangeState::Lost => RangeState::Lost,
    }
}

// The state of a range after a sync that failed.
fn state_lost(state: RangeState) -> RangeState
    ensures { result ≡ after_fault state }
{
    match state {
        RangeState::Unsynced | RangeState::Lost => RangeState::Lost,
        RangeState::Kept => RangeState::Kept,
    }
}

// The ranges after a sync that succeeded.
fn keep_all(ranges: &mut [WrittenRange])
    ensures states { ranges.new ≡ map (in_state after_sync) ranges.old }
    ensures ends { AllByRecursion EndsEarly ranges.old → AllByRecursion EndsEarly ranges.new }
{
    for range in ranges.iter_mut() {
        range.state = state_kept(range.state);
    }
}

// The ranges after a sync that failed.
fn lose_all(ranges: &mut [WrittenRange])
    ensures states { ranges.new ≡ map (in_state after_fault) ranges.old }
    ensures ends { AllByRecursion EndsEarly ranges.old → AllByRecursion EndsEarly ranges.new }
{
    for range in ranges.iter_mut() {
        range.state = state_lost(range.state);
    }
}

// A copy of the bytes from an offset on, at most `size` of them.
fn bytes_from(alloc: Global, bytes: &[u8], at: usize, size: usize) -> Result<Vec<u8>, NoMemory>
    requires { at ≤ length bytes.now }
{
    let rest = &bytes[at..];
    Ok(Vec::from_slice(alloc, &rest[..size.min(rest.len())])?)
}

// Writes bytes from an offset on, over what is there and past the end. A refused call changes nothing.
fn write_over(old: &mut Vec<u8>, at: usize, bytes: &[u8]) -> Result<(), NoMemory>
    requires { at ≤ length old.old.items }
    ensures ok { OnOk result (old.new.items ≡ put old.old.items at bytes.now) }
    ensures err { OnErr result (old.new.items ≡ old.old.items) }
{
    let room = old.as_slice().len() - at;
    let over = room.min(bytes.len());
    let (front, rest) = bytes.split_at(over);
    old.extend_from_slice(rest)?;
    put_at(old.as_mut_slice(), at, front);
    Ok(())
}

fn put_at(buffer: &mut [u8], at: usize, bytes: &[u8])
    requires { at + length bytes.now ≤ length buffer.old }
    ensures { buffer.new ≡ put buffer.old at bytes.now }
{
    buffer[at..at + bytes.len()].copy_from_slice(bytes);
}

// Fills these ranges with a byte, but where they are durable.
fn tear(bytes: &mut [u8], ranges: &[WrittenRange], byte: u8, kept: &[u8])
    requires ends { AllByRecursion EndsEarly ranges.now }
    requires whole { bytes.old ≡ kept.now }
    ensures length { length bytes.new ≡ length bytes.old }
    ensures durable { (k : ℕ) → IsDurableAt k ranges.now → slice_index bytes.new k ≡ slice_index kept.now k }
    ensures torn { (k : ℕ) → k < length bytes.new → IsInDoubt k ranges.now → slice_index bytes.new k ≡ byte }
{
    for range in ranges {
        tear_range(bytes, range, byte, kept);
    }
}

// Fills a range with a byte, or puts it back where it is durable.
fn tear_range(bytes: &mut [u8], range: &WrittenRange, byte: u8, kept: &[u8])
    requires ends { EndsEarly range.now }
    requires size { length bytes.old ≡ length kept.now }
    ensures length { length bytes.new ≡ length bytes.old }
    ensures others { (k : ℕ) → IsBeside k range.now → slice_index bytes.new k ≡ slice_index bytes.old k }
    ensures kept { range.now.state ≡ RangeState.Kept → (k : ℕ) → k < length bytes.new → range.now.at ≤ k → k < range.now.at + range.now.size
        → slice_index bytes.new k ≡ slice_index kept.now k }
    ensures torn { IsNotKept range.now → (k : ℕ) → k < length bytes.new → range.now.at ≤ k → k < range.now.at + range.now.size
        → slice_index bytes.new k ≡ byte }
{
    let end = range.at + range.size;
    if range.state == RangeState::Kept {
        put_range(bytes, range.at, end, kept);
        return;
    }
    tear_one(bytes, range.at, end, byte);
}

// Puts the durable ones of these ranges back.
fn put_kept(bytes: &mut [u8], ranges: &[WrittenRange], kept: &[u8])
    requires ends { AllByRecursion EndsEarly ranges.now }
    requires size { length bytes.old ≡ length kept.now }
    ensures length { length bytes.new ≡ length bytes.old }
    ensures kept { (k : ℕ) → k < length bytes.new → IsKeptAt k ranges.now → slice_index bytes.new k ≡ slice_index kept.now k }
    ensures each { (k : ℕ) → (slice_index bytes.new k ≡ slice_index bytes.old k) ⊎ (slice_index bytes.new k ≡ slice_index kept.now k) }
    ensures none { AllByRecursion IsNotKept ranges.now → bytes.new ≡ bytes.old }
{
    for range in ranges {
        put_if_kept(bytes, range, kept);
    }
}

// Puts a range back where it is durable.
fn put_if_kept(bytes: &mut [u8], range: &WrittenRange, kept: &[u8])
    requires ends { EndsEarly range.now }
    requires size { length bytes.old ≡ length kept.now }
    ensures length { length bytes.new ≡ length bytes.old }
    ensures kept { range.now.state ≡ RangeState.Kept → (k : ℕ) → k < length bytes.new → range.now.at ≤ k → k < range.now.at + range.now.size
        → slice_index bytes.new k ≡ slice_index kept.now k }
    ensures each { (k : ℕ) → (slice_index bytes.new k ≡ slice_index bytes.old k) ⊎ (slice_index bytes.new k ≡ slice_index kept.now k) }
    ensures none { IsNotKept range.now → bytes.new ≡ bytes.old }
{
    if range.state == RangeState::Kept {
        put_range(bytes, range.at, range.at + range.size, kept);
    }
}

// Puts these bytes back from an offset to another.
fn put_range(bytes: &mut [u8], from: u64, to: u64, kept: &[u8])
    requires { length bytes.old ≡ length kept.now }
    ensures length { length bytes.new ≡ length bytes.old }
    ensures others { (k : ℕ) → (k < from) ⊎ (to ≤ k) → slice_index bytes.new k ≡ slice_index bytes.old k }
    ensures each { (k : ℕ) → (slice_index bytes.new k ≡ slice_index bytes.old k) ⊎ (slice_index bytes.new k ≡ slice_index kept.now k) }
    ensures put { (k : ℕ) → k < length bytes.new → from ≤ k → k < to → slice_index bytes.new k ≡ slice_index kept.now k }
{
    let end = to.min(bytes.len() as u64);
    for k in from..end {
        bytes[k as usize] = kept[k as usize];
    }
}

fn tear_one(bytes: &mut [u8], from: u64, to: u64, byte: u8)
    ensures length { length bytes.new ≡ length bytes.old }
    ensures others { (k : ℕ) → (k < from) ⊎ (to ≤ k) → slice_index bytes.new k ≡ slice_index bytes.old k }
    ensures torn { (k : ℕ) → k < length bytes.new → from ≤ k → k < to → slice_index bytes.new k ≡ byte }
{
    let end = to.min(bytes.len() as u64);
    for k in from..end {
        bytes[k as usize] = byte;
    }
}

// What a crash leaves of a range, over the bytes that were written to it.
fn leave_range(bytes: &mut [u8], at: u64, size: u64, left: RangeLeft, before: &[u8])
    requires { at + size < 2 ^ 63 }
    ensures length { length bytes.new ≡ length bytes.old }
    ensures others { (k : ℕ) → (k < at) ⊎ (at + size ≤ k) → slice_index bytes.new k ≡ slice_index bytes.old k }
    ensures so { IsRangeLeft left at size bytes.old bytes.new }
{
    match left {
        RangeLeft::Kept => {}
        RangeLeft::Lost(byte) => tear_one(bytes, at, at + size, byte),
        RangeLeft::Torn(count) => put_back(bytes, at, count.min(size), size, before),
        RangeLeft::Old => put_back(bytes, at, 0, size, before),
    }
}

// Puts the earlier bytes back into a range of `size` bytes, but for the first `kept` of it.
fn put_back(bytes: &mut [u8], at: u64, kept: u64, size: u64, before: &[u8])
    requires small { at + size < 2 ^ 63 }
    requires within { kept ≤ size }
    ensures length { length bytes.new ≡ length bytes.old }
    ensures others { (k : ℕ) → (k < at + kept) ⊎ (at + size ≤ k) → slice_index bytes.new k ≡ slice_index bytes.old k }
    ensures back { (k : ℕ) → k < length bytes.new → at + kept ≤ k → k < at + size → slice_index bytes.new k ≡ slice_index before.now (k - at) }
{
    let end = (at + size).min(bytes.len() as u64);
    for k in at + kept..end {
        bytes[k as usize] = byte_or_zero(before, (k - at) as usize);
    }
}

fn byte_or_zero(bytes: &[u8], i: usize) -> u8
    ensures { result ≡ slice_index bytes.now i }
{
    if i < bytes.len() { bytes[i] } else { 0 }
}
