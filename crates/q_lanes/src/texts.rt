//! The symbols of a side, as the loops of the verbs read them.
ghost use Rattle.std.specs.Prelude.{◌≡◌, ◌<◌, ℕ, List, length, map, Some, slice_get, IfOk, IfSome};
ghost use Rattle.q_lanes.specs.Lanes.{lane_items, text_items};

use crate::lane::Lane;
use q_values::{Arena, Form, ShortSymbol, Sym, Symbols};
use std::alloc::{AllocError, Global};

/// Symbols, each lent as its bytes. A loop over them is compiled for each way in which they are kept, and doesn't ask at
/// each index which one it is.
pub trait TextList {
    ghost texts: { Self → List (List ℕ) };

    /// Their number.
    fn count(&self) -> usize
        ensures { result ≡ length (texts self.now) };

    /// Lends the bytes of the symbol at the index `i`.
    fn text(&self, i: usize) -> &[u8]
        requires { i < length (texts self.now) }
        ensures { slice_get (texts self.now) i ≡ Some result.now };
}

impl TextList for Arena {
    ghost texts = { λ symbols. symbols };

    fn count(&self) -> usize {
        self.len()
    }

    fn text(&self, i: usize) -> &[u8] {
        self.at(i)
    }
}

/// The symbols of a side.
#[derive(Drop)]
pub enum Texts<'a> {
    /// Those of a column.
    Each(&'a Symbols),
    /// That of an atom.
    Every(&'a Sym),
}

impl Texts<'_> {
    /// The symbols in eight bytes each, where all are so short.
    pub fn short(&self) -> Option<Lane<'_, ShortSymbol>>
        ensures { IfSome result (λ lane. (n : ℕ) → lane_items n lane ≡ text_items n self.now) }
    {
        match self {
            Texts::Each(symbols) => match symbols.form() {
                Form::Short(items) => Some(Lane::Each(items)),
                Form::Long(_) => None,
            },
            Texts::Every(symbol) => match ShortSymbol::of(symbol.bytes()) {
                Some(short) => Some(Lane::Every(short)),
                None => None,
            },
        }
    }

    /// The symbols of a column of which some have had more than eight bytes.
    pub fn arena(&self) -> Option<&Arena>
        ensures { IfSome result (λ arena. (n : ℕ) → text_items n self.now ≡ arena.now) }
    {
        match self {
            Texts::Each(symbols) => match symbols.form() {
                Form::Long(arena) => Some(arena),
                Form::Short(_) => None,
            },
            Texts::Every(_) => None,
        }
    }

    /// The symbols of a column, or that of an atom `count` times.
    pub fn beside(&self, count: usize) -> Beside<'_>
        ensures texts { result.texts.now ≡ self.now }
        ensures count { result.count ≡ count }
    {
        Beside { texts: self, count }
    }
}

/// The symbols of a column, or that of an atom once for each of `count` items beside it.
#[derive(Drop)]
pub struct Beside<'a> {
    texts: &'a Texts<'a>,
    count: usize,
}

impl TextList for Beside<'_> {
    ghost texts = { λ s. text_items s.count s.texts.now };

    fn count(&self) -> usize {
        match self.texts {
            Texts::Each(symbols) => symbols.len(),
            Texts::Every(_) => self.count,
        }
    }

    fn text(&self, i: usize) -> &[u8] {
        match self.texts {
            Texts::Each(symbols) => symbols.at(i),
            Texts::Every(symbol) => symbol.bytes(),
        }
    }
}

/// Each symbol's bytes.
pub fn texts_of<L: TextList>(alloc: Global, symbols: &L) -> Result<Vec<&[u8]>, AllocError>
    ensures { IfOk result (λ v. map (λ t. t.now) v.items ≡ L.texts symbols.now) }
{
    let mut texts = Vec::with_capacity(alloc, symbols.count())?;
    for i in 0..symbols.count() {
        texts.push_reserved(symbols.text(i));
    }
    Ok(texts)
}
