//! A symbol of at most eight bytes, in eight bytes.
ghost use Rattle.std.specs.Prelude.{◌≡◌, ◌<◌, ◌≤◌, length, take, min, All, MatchOption};
ghost use Rattle.std.specs.List.{sum_by};
ghost use Rattle.q_values.specs.Bytes.{HasNoNul};
ghost use Rattle.q_values.specs.Short.{IsShort, number_of, text_of, filled};

use std::cmp::Ordering;
use std::hash::{Hash, Hasher};
use std::marker::Model;
use std::simd::prelude::*;

/// The most bytes of a short symbol.
const LENGTH: usize = 8;

// The index of each of the eight bytes.
const LANES: [u8; LENGTH] = [0, 1, 2, 3, 4, 5, 6, 7];

/// A symbol of at most eight bytes. It has no zero byte, so the zeros after it show its length. The eight bytes, read as
/// a big-endian number, compare as the symbols do.
#[derive(Clone, Copy)]
pub struct ShortSymbol {
    // The bytes of the symbol, and then zeros.
    bytes: [u8; LENGTH],
}

impl Model for ShortSymbol {
    ghost use Rattle.std.specs.Prelude.{ℕ, List};
    ghost use Rattle.std.proofs.Common.{ap, sym};
    ghost use Rattle.q_values.specs.Short.{text_of, filled, IsFilled};

    ghost Value = { List ℕ };

    ghost view = { λ s. text_of s.bytes };

    ghost invariant = { λ s. IsFilled s.bytes };

    ghost inverse = { λ text. record { bytes = filled 8 text } };

    ghost inverse_ok = { λ s h. ap (λ bytes. record { bytes = bytes }) (sym h.full) };
}

impl ShortSymbol {
    /// The symbol of these bytes, or `None` where they are more than eight.
    pub fn of(symbol: &[u8]) -> Option<ShortSymbol>
        requires { HasNoNul symbol.now }
        ensures { MatchOption result (8 < length symbol.now) (λ short. short ≡ symbol.now) }
    {
        if symbol.len() > LENGTH {
            return None;
        }
        Some(ShortSymbol::filled_with(symbol))
    }

    // The symbol of these bytes.
    fn filled_with(symbol: &[u8]) -> ShortSymbol
        requires no_nul { HasNoNul symbol.now }
        requires short { length symbol.now ≤ 8 }
        ensures { result ≡ symbol.now }
    {
        let mut bytes = [0u8; LENGTH];
        bytes[..symbol.len()].copy_from_slice(symbol);
        ShortSymbol { bytes }
    }

    /// The first eight bytes of a symbol, or all where there are fewer.
    pub fn head_of(symbol: &[u8]) -> ShortSymbol
        requires { HasNoNul symbol.now }
        ensures { result ≡ take 8 symbol.now }
    {
        let length = symbol.len().min(LENGTH);
        ShortSymbol::filled_with(&symbol[..length])
    }

    /// The symbol whose bytes are those before the first 0, or all eight where none is 0.
    pub fn before_nul(bytes: &[u8; LENGTH]) -> ShortSymbol
        ensures { result ≡ text_of bytes.now }
    {
        let lanes = u8x8::from_array(*bytes);
        let length = u8x8::splat(count_before_nul(bytes) as u8);
        let kept = u8x8::from_array(LANES).simd_lt(length);
        ShortSymbol {
            bytes: kept.select(lanes, u8x8::splat(0)).to_array(),
        }
    }

    /// Its bytes, and then zeros up to eight.
    pub fn padded(&self) -> [u8; LENGTH]
        ensures { result ≡ filled 8 self.now }
    {
        self.bytes
    }

    /// Lends its bytes.
    pub fn bytes(&self) -> &[u8]
        ensures value { result.now ≡ self.now }
        ensures short { IsShort self.now }
    {
        &self.bytes[..self.len()]
    }

    /// The number of its bytes.
    pub fn len(&self) -> usize
        ensures value { result ≡ length self.now }
        ensures short { IsShort self.now }
    {
        count_before_nul(&self.bytes)
    }

    /// The number whose big-endian bytes are the symbol's, and then zeros.
    pub fn number(&self) -> u64
        ensures value { result ≡ number_of self.now }
        ensures short { IsShort self.now }
    {
        u64::from_be_bytes(self.bytes)
    }
}

// The number of bytes before the first 0, or all eight where none is 0.
fn count_before_nul(bytes: &[u8; LENGTH]) -> usize
    ensures { result ≡ length (text_of bytes.now) }
{
    let nuls = u8x8::from_array(*bytes)
        .simd_eq(u8x8::splat(0))
        .to_bitmask();
    if nuls == 0 {
        LENGTH
    } else {
        nuls.trailing_zeros() as usize
    }
}

/// The number of bytes of these symbols together, or `usize::MAX` where it is more.
pub fn bytes_in(symbols: &[ShortSymbol]) -> usize
    ensures total { result ≡ min (sum_by length symbols.now) 18446744073709551615 }
    ensures no_nul { All HasNoNul symbols.now }
{
    let mut total = 0usize;
    for symbol in symbols {
        total = total.saturating_add(symbol.len());
    }
    total
}

impl PartialEq for ShortSymbol {
    ghost use Rattle.std.specs.Prelude.{◌==◌};
    ghost use Rattle.std.specs.Cmp.Lexicographic.{pointwise};
    ghost use Rattle.std.proofs.Common.{rules};
    ghost use Rattle.std.specs.Cmp.Rules.{comparing};

    ghost eq = { pointwise ◌==◌ };

    ghost laws = { Prim.search (comparing, rules) };

    fn eq(&self, other: &ShortSymbol) -> bool {
        self.number() == other.number()
    }
}

impl Eq for ShortSymbol {
    ghost use Rattle.std.proofs.Common.{rules};
    ghost use Rattle.std.specs.Cmp.Rules.{comparing};

    ghost laws = { Prim.search (comparing, rules) };
}

impl Ord for ShortSymbol {
    ghost use Rattle.std.specs.Ordering.{nat_cmp};
    ghost use Rattle.std.specs.Cmp.Lexicographic.{slice_cmp};
    ghost use Rattle.std.proofs.Common.{rules};
    ghost use Rattle.std.specs.Cmp.Rules.{comparing};

    ghost cmp = { slice_cmp nat_cmp };

    ghost total = { Prim.search (comparing, rules) };

    ghost matches_partial_cmp = { Prim.search (comparing, rules) };

    ghost matches_eq = { Prim.search (comparing, rules) };

    fn cmp(&self, other: &ShortSymbol) -> Ordering {
        self.number().cmp(&other.number())
    }
}

impl PartialOrd for ShortSymbol {
    ghost use Rattle.std.specs.Ordering.{nat_cmp, as_partial_cmp};
    ghost use Rattle.std.specs.Cmp.{partial_order_from_own_ties};
    ghost use Rattle.std.specs.Cmp.Lexicographic.{slice_cmp};
    ghost use Rattle.std.proofs.Common.{rules};
    ghost use Rattle.std.specs.Cmp.Rules.{comparing};

    ghost partial_cmp = { as_partial_cmp (slice_cmp nat_cmp) };

    ghost laws = { partial_order_from_own_ties (Prim.search (comparing, rules)) (Prim.search (comparing, rules)) };

    fn partial_cmp(&self, other: &ShortSymbol) -> Option<Ordering> {
        Some(self.cmp(other))
    }
}

impl Hash for ShortSymbol {
    ghost use Rattle.std.specs.Hash as fed;
    ghost use Rattle.std.proofs.Common.{rules};
    ghost use Rattle.std.specs.Cmp.Rules.{hashing};

    ghost hash_input = { λ s. fed.u64 (number_of s) };

    ghost respects_eq = { Prim.search (hashing, rules) };

    fn hash<H: Hasher>(&self, state: &mut H) {
        self.number().hash(state);
    }
}
