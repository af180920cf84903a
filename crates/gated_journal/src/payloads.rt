//! The payloads of a journal's records, one after another.
ghost use Rattle.std.specs.Iterator.{YieldsFirstRef, item_count};

use crate::records::{Span, part};
use std::marker::Model;

/// The payloads of [`Records`](crate::Records) that are left, in order. Contracts see the list of them.
#[derive(Drop)]
pub struct Payloads<'a> {
    /// The buffer that the payloads are in.
    pub(crate) bytes: &'a [u8],
    /// Where each payload that is left is; each lies within `bytes`.
    pub(crate) spans: &'a [Span],
}

impl<'a> Model for Payloads<'a> {
    ghost use Rattle.std.specs.Prelude.{List, ℕ, length};
    ghost use Rattle.gated_journal.specs.Records.{payloads_in, AreInside};

    ghost Value = { List (List ℕ) };

    ghost view = { λ p. payloads_in p.bytes.now p.spans.now };

    ghost invariant = { λ p. AreInside (length p.bytes.now) p.spans.now };
}

impl<'a> Iterator for Payloads<'a> {
    type Item = &'a [u8];

    ghost next_gives = { YieldsFirstRef (λ rest. rest) };

    ghost remaining = { item_count (λ rest. rest) };

    fn next(&mut self) -> Option<&'a [u8]> {
        let (first, others) = self.spans.split_first()?;
        self.spans = others;
        Some(part(self.bytes, first.start, first.len))
    }
}
