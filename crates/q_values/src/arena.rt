//! Symbols of any length in one arena: all their bytes in order, and the offset at which each ends. An offset has four
//! bytes, so that an arena has at most 4,294,967,295 bytes.
ghost use Rattle.std.specs.Prelude.{◌≡◌, ◌<◌, ◌+◌, ◌-◌, ◌≤◌, ◌^◌, vec_len, vec_capacity, [], ◌∷◌, ◌++◌, length, take, drop, ◌==◌};
ghost use Rattle.std.specs.Prelude.{Some, map, slice_get, option_copied, OnOk, OnErr, IfOk, All, min};
ghost use Rattle.std.specs.List.{sum_by};
ghost use Rattle.q_values.specs.Bytes.{HasNoNul};
ghost use Rattle.q_values.specs.Lists.{gathered};
ghost use Rattle.q_values.specs.Order.{IsOrder};
ghost use Rattle.std.specs.Ordering.{nat_cmp};
ghost use Rattle.std.specs.Cmp.Lexicographic.{slice_cmp};
ghost use Rattle.q_values.specs.Arena.{EndsAscend, IsPiece, IsPart, start_of, moved, lowered, with_head};

use crate::copies::{MOST_OF_SHORT, append_short};
use crate::order::order_of_items;
use crate::refusal::NoMemory;
use crate::short::{ShortSymbol, bytes_in};
use std::alloc::Global;
use std::marker::Model;

/// A list of symbols in two blocks of memory, however many they are. A call that would bring their bytes above
/// 4,294,967,295 answers `NoMemory`.
#[derive(Drop)]
pub struct Arena {
    // The bytes of all symbols, in order. None is 0.
    bytes: Vec<u8>,
    // For each symbol the offset after its last byte. They never fall, and the last is the length of the bytes.
    ends: Vec<u32>,
}

impl Model for Arena {
    ghost use Rattle.std.specs.Prelude.{ℕ, List};
    ghost use Rattle.q_values.specs.Arena.{cut, IsArena};

    ghost Value = { List (List ℕ) };

    ghost view = { λ s. cut 0 s.bytes.items s.ends.items };

    ghost invariant = { λ s. IsArena s.bytes.items s.ends.items };
}

impl Arena {
    /// No symbols, which takes no memory.
    pub fn new(alloc: Global) -> Arena
        ensures { result ≡ [] }
    {
        Arena {
            bytes: Vec::new(alloc),
            ends: Vec::new(alloc),
        }
    }

    // No symbols, with room for this many of them and of their bytes.
    fn with_capacity(alloc: Global, count: usize, bytes: usize) -> Result<Arena, NoMemory>
        ensures { IfOk result (λ arena. arena ≡ []) }
    {
        Ok(Arena {
            bytes: Vec::with_capacity(alloc, bytes)?,
            ends: Vec::with_capacity(alloc, count)?,
        })
    }

    /// The same symbols.
    pub fn of_short(alloc: Global, symbols: &[ShortSymbol]) -> Result<Arena, NoMemory>
        ensures { IfOk result (λ arena. arena ≡ symbols.now) }
    {
        let mut arena = Arena::with_capacity(alloc, symbols.len(), bytes_in(symbols))?;
        for symbol in symbols {
            arena.push(symbol.bytes())?;
        }
        Ok(arena)
    }

    /// The number of symbols.
    pub fn len(&self) -> usize
        ensures { result ≡ length self.now }
    {
        self.ends.len()
    }

    /// The number of bytes of all symbols together.
    pub fn bytes_len(&self) -> usize
        ensures total { result ≡ sum_by length self.now }
        ensures no_nul { All HasNoNul self.now }
    {
        self.bytes.len()
    }

    /// Lends the bytes of the symbol at the index `i`.
    pub fn at(&self, i: usize) -> &[u8]
        requires { i < length self.now }
        ensures value { slice_get self.now i ≡ Some result.now }
        ensures no_nul { HasNoNul result.now }
    {
        let (start, end) = span_of(&self.bytes, &self.ends, i);
        &self.bytes[start..end]
    }

    /// Puts a symbol of these bytes at the end. A refused call changes nothing.
    pub fn push(&mut self, symbol: &[u8]) -> Result<(), NoMemory>
        requires { HasNoNul symbol.now }
        ensures ok { OnOk result (self.new ≡ self.old ++ symbol.now ∷ []) }
        ensures err { OnErr result (self.new ≡ self.old) }
    {
        let start = self.bytes.len();
        let is_usual = symbol.len() <= MOST_OF_SHORT && start <= u32::MAX as usize - MOST_OF_SHORT;
        let has_room = MOST_OF_SHORT <= self.bytes.capacity() - start
            && self.ends.len() < self.ends.capacity();
        if !(is_usual && has_room) {
            return self.push_growing(symbol);
        }
        append_short(&mut self.bytes, symbol);
        self.ends.push_reserved((start + symbol.len()) as u32);
        Ok(())
    }

    // A push that makes room first, or of a symbol of more than 32 bytes.
    #[cold]
    #[inline(never)]
    fn push_growing(&mut self, symbol: &[u8]) -> Result<(), NoMemory>
        requires { HasNoNul symbol.now }
        ensures ok { OnOk result (self.new ≡ self.old ++ symbol.now ∷ []) }
        ensures err { OnErr result (self.new ≡ self.old) }
    {
        let end = end_after(self.bytes.len(), symbol.len())?;
        self.ends.reserve(1)?;
        self.bytes.extend_from_slice(symbol)?;
        self.ends.push_reserved(end);
        Ok(())
    }

    /// Appends the `n` symbols of the others from the index `from` on. A refused call changes nothing.
    pub fn append_part(&mut self, other: &Arena, from: usize, n: usize) -> Result<(), NoMemory>
        requires { from + n ≤ length other.now }
        ensures ok { OnOk result (self.new ≡ self.old ++ take n (drop from other.now)) }
        ensures err { OnErr result (self.new ≡ self.old) }
    {
        let (start, end) = bounds_of(&other.bytes, &other.ends, from, n);
        let last = end_after(self.bytes.len(), (end - start) as usize)?;
        self.ends.reserve(n)?;
        self.bytes
            .extend_from_slice(&other.bytes[start as usize..end as usize])?;
        let base = last - (end - start);
        push_moved(&mut self.ends, &other.ends[from..][..n], start, base);
        Ok(())
    }

    /// Makes room for `n` more symbols, and none for their bytes. It changes no symbol.
    pub fn reserve(&mut self, n: usize) -> Result<(), NoMemory>
        ensures { self.new ≡ self.old }
    {
        Ok(self.ends.reserve(n)?)
    }

    /// Keeps the first `n` symbols, where there are more.
    pub fn truncate(&mut self, n: usize)
        ensures { self.new ≡ take n self.old }
    {
        if n < self.len() {
            let end = start_of_symbol(&self.ends, n);
            self.bytes.truncate(end as usize);
            self.ends.truncate(n);
        }
    }

    /// A copy of the symbols at these indices, in their order.
    pub fn gather(&self, alloc: Global, places: &[usize]) -> Result<Arena, NoMemory>
        requires { All (λ i. i < length self.now) places.now }
        ensures { IfOk result (λ s. s ≡ gathered self.now places.now) }
    {
        let mut found = Arena::with_capacity(alloc, places.len(), self.bytes_at(places))?;
        for place in places {
            found.push(self.at(*place))?;
        }
        Ok(found)
    }

    /// A copy of the `n` symbols from the index `from` on.
    pub fn take(&self, alloc: Global, from: usize, n: usize) -> Result<Arena, NoMemory>
        requires { from + n ≤ length self.now }
        ensures { IfOk result (λ s. s ≡ take n (drop from self.now)) }
    {
        let mut found = Arena::new(alloc);
        found.append_part(self, from, n)?;
        Ok(found)
    }

    /// The indices of the symbols in ascending order of their bytes, ties by index.
    pub fn order(&self, alloc: Global) -> Result<Vec<usize>, NoMemory>
        ensures { IfOk result (λ places. IsOrder (slice_cmp nat_cmp) self.now places.items) }
    {
        let texts = self.headed(alloc)?;
        let places = order_of_items(alloc, &texts)?;
        Ok(places)
    }

    // The number of bytes of the symbols at these indices together, or `usize::MAX` where it is more.
    fn bytes_at(&self, places: &[usize]) -> usize
        requires { All (λ i. i < length self.now) places.now }
        ensures { result ≡ min (sum_by length (gathered self.now places.now)) 18446744073709551615 }
    {
        let mut total = 0usize;
        for place in places {
            total = total.saturating_add(self.at(*place).len());
        }
        total
    }

    // The first eight bytes of each symbol, and all of them. Most comparisons end at the first eight, without a look at
    // where the symbol lies.
    fn headed(&self, alloc: Global) -> Result<Vec<(ShortSymbol, &[u8])>, NoMemory>
        ensures { IfOk result (λ v. map (λ pair. (pair.0, pair.1.now)) v.items ≡ map with_head self.now) }
    {
        let mut texts = Vec::with_capacity(alloc, self.len())?;
        for i in 0..self.len() {
            let text = self.at(i);
            texts.push_reserved((ShortSymbol::head_of(text), text));
        }
        Ok(texts)
    }
}

// Where `more` bytes end that come after this many others.
fn end_after(count: usize, more: usize) -> Result<u32, NoMemory>
    ensures { IfOk result (λ end. end ≡ count + more) }
{
    match count.checked_add(more) {
        Some(end) if end <= u32::MAX as usize => Ok(end as u32),
        _ => Err(NoMemory),
    }
}

// Where the symbol i starts and ends.
fn span_of(bytes: &[u8], ends: &[u32], i: usize) -> (usize, usize)
    requires ascends { EndsAscend 0 bytes.now ends.now }
    requires within { i < length ends.now }
    ensures { IsPiece 0 bytes.now ends.now i result.0 result.1 }
{
    (start_of_symbol(ends, i) as usize, ends[i] as usize)
}

// The offset at which the symbol i starts; after the last symbol, where the bytes end.
fn start_of_symbol(ends: &[u32], i: usize) -> u32
    requires { i ≤ length ends.now }
    ensures { result ≡ start_of 0 ends.now i }
{
    if i == 0 { 0 } else { ends[i - 1] }
}

// The offsets at which the `n` symbols from the index `from` on start and end.
fn bounds_of(bytes: &[u8], ends: &[u32], from: usize, n: usize) -> (u32, u32)
    requires ascends { EndsAscend 0 bytes.now ends.now }
    requires within { from + n ≤ length ends.now }
    ensures { IsPart bytes.now ends.now from n result.0 result.1 }
{
    (start_of_symbol(ends, from), start_of_symbol(ends, from + n))
}

// Appends these ends for bytes that were copied from the offset `start` to the offset `base`.
fn push_moved(ends: &mut Vec<u32>, more: &[u32], start: u32, base: u32)
    requires room { vec_len ends.old + length more.now ≤ vec_capacity ends.old }
    requires after { All (λ end. start ≤ end) more.now }
    requires fits { All (λ end. base + (end - start) < 2 ^ 32) more.now }
    ensures { ends.new.items ≡ ends.old.items ++ moved base (lowered start more.now) }
{
    for end in more {
        ends.push_reserved(base + (*end - start));
    }
}
