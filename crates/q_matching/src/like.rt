//! Whether symbols match a pattern. A row has, for each index of the text and for its end, whether the text from there on
//! matches; each byte of the pattern, from its end to its front, makes the next row.
ghost use Rattle.std.specs.Prelude.{◌≡◌, ◌<◌, ◌+◌, ◌||◌, ◌&&◌, ◌∷◌, ℕ, List, true, false, []};
ghost use Rattle.std.specs.Prelude.{vec_len, length, map, slice_index, slice_index_or, IfOk, OnOk, IfSome, IfNone};
ghost use Rattle.q_values.specs.declared.atom.Atom.TheVariants as a;
ghost use Rattle.q_values.specs.declared.kind.Kind.TheVariants as k;
ghost use Rattle.q_verbs.specs.Numbers.{worth};
ghost use Rattle.q_lanes.specs.Lanes.{text_items};
ghost use Rattle.q_verbs.specs.Sides.{side_kind, items_of};
ghost use Rattle.q_verbs.specs.Like.{fits_byte, matches, IsRow, IsFront};

use q_lanes::{Cells, TextList, Texts, booleans};
use q_values::{NoMemory, Vector};
use q_verbs::Side;
use std::alloc::{AllocError, Global};

const ANY_BYTES: u8 = b'*';

const ANY_BYTE: u8 = b'?';

// Whether a byte of a pattern that is no `*` fits a byte of a text.
fn fits(p: u8, b: u8) -> bool
    ensures { result ≡ fits_byte p b }
{
    p == ANY_BYTE || p == b
}

// The row of a pattern with one more byte in front.
fn step_byte(row: &mut [bool], p: u8, text: &[u8])
    requires { length row.old ≡ length text.now + 1 }
    ensures places { (k : ℕ) → k < length text.now → slice_index_or row.new k false
        ≡ (fits_byte p (slice_index text.now k) && slice_index_or row.old (k + 1) false) }
    ensures end { slice_index_or row.new (length text.now) false ≡ false }
{
    for i in 0..text.len() {
        row[i] = fits(p, text[i]) && row[i + 1];
    }
    row[text.len()] = false;
}

// The row of a pattern with `*` in front.
fn step_any(row: &mut [bool], n: usize)
    requires { length row.old ≡ n + 1 }
    ensures places { (k : ℕ) → k < n → slice_index_or row.new k false
        ≡ (slice_index_or row.old k false || slice_index_or row.new (k + 1) false) }
    ensures end { slice_index_or row.new n false ≡ slice_index_or row.old n false }
{
    let mut i = n;
    while i > 0 {
        i -= 1;
        row[i] = row[i] || row[i + 1];
    }
}

// The row of a pattern with the byte p in front.
fn step(row: &mut [bool], p: u8, text: &[u8])
    requires { length row.old ≡ length text.now + 1 }
    ensures { (pattern : List ℕ) → IsRow (matches pattern) text.now row.old
        → IsRow (matches (p ∷ pattern)) text.now row.new }
{
    if p == ANY_BYTES {
        step_any(row, text.len());
    } else {
        step_byte(row, p, text);
    }
}

// The row of the empty pattern over a text of n bytes.
fn end_row(row: &mut Vec<bool>, n: usize) -> Result<(), AllocError>
    ensures size { OnOk result (vec_len row.new ≡ n + 1) }
    ensures places { OnOk result ((k : ℕ) → k < n → slice_index_or row.new.items k false ≡ false) }
    ensures end { OnOk result (slice_index_or row.new.items n false ≡ true) }
{
    row.clear();
    for _ in 0..n {
        row.push(false)?;
    }
    row.push(true)?;
    Ok(())
}

// The row of the whole pattern, from the row of the empty one.
fn step_all(row: &mut [bool], pattern: &[u8], text: &[u8])
    requires { IsRow (matches []) text.now row.old }
    ensures { IsRow (matches pattern.now) text.now row.new }
{
    for j in 0..pattern.len() {
        let p = pattern[pattern.len() - 1 - j];
        step(row, p, text);
    }
}

// Row by row, from the end of the pattern to its front.
fn is_match_by_rows(row: &mut Vec<bool>, pattern: &[u8], text: &[u8]) -> Result<bool, AllocError>
    ensures { IfOk result (λ b. b ≡ matches pattern.now text.now) }
{
    end_row(row, text.len())?;
    let cells = row.as_mut_slice();
    step_all(cells, pattern, text);
    Ok(cells[0])
}

// The number of bytes at the front of the pattern, up to its first `*`, where each fits the byte of the text at its
// index; `None` where one doesn't.
fn front_len(pattern: &[u8], text: &[u8]) -> Option<usize>
    ensures some { IfSome result (IsFront pattern.now text.now) }
    ensures none { IfNone result (matches pattern.now text.now ≡ false) }
{
    for i in 0..pattern.len() {
        if pattern[i] == ANY_BYTES {
            return Some(i);
        }
        if i == text.len() {
            return None;
        }
        if !fits(pattern[i], text[i]) {
            return None;
        }
    }
    Some(pattern.len())
}

// Whether the text matches what is left of a pattern after its front: nothing, one `*`, or more.
fn is_match_of_rest(row: &mut Vec<bool>, pattern: &[u8], text: &[u8]) -> Result<bool, AllocError>
    ensures { IfOk result (λ b. b ≡ matches pattern.now text.now) }
{
    if pattern.is_empty() {
        return Ok(text.is_empty());
    }
    if pattern.len() == 1 && pattern[0] == ANY_BYTES {
        return Ok(true);
    }
    is_match_by_rows(row, pattern, text)
}

fn is_match(row: &mut Vec<bool>, pattern: &[u8], text: &[u8]) -> Result<bool, AllocError>
    ensures { IfOk result (λ b. b ≡ matches pattern.now text.now) }
{
    match front_len(pattern, text) {
        Some(n) => {
            let found = is_match_of_rest(row, &pattern[n..], &text[n..])?;
            Ok(found)
        }
        None => Ok(false),
    }
}

fn like_list<L: TextList>(alloc: Global, items: &L, pattern: &[u8]) -> Result<Vec<bool>, AllocError>
    ensures { IfOk result (λ v. v.items ≡ map (matches pattern.now) (L.texts items.now)) }
{
    let mut row = Vec::new(alloc);
    let mut values = Vec::with_capacity(alloc, items.count())?;
    for i in 0..items.count() {
        values.push_reserved(is_match(&mut row, pattern, items.text(i))?);
    }
    Ok(values)
}

fn like_texts(alloc: Global, items: &Texts<'_>, pattern: &[u8]) -> Result<Vec<bool>, AllocError>
    ensures { IfOk result (λ v. v.items ≡ map (matches pattern.now) (text_items 1 items.now)) }
{
    match items.arena() {
        Some(arena) => like_list(alloc, arena, pattern),
        None => like_list(alloc, &items.beside(1), pattern),
    }
}

/// Whether each symbol matches the pattern (KX, like): `*` stands for any bytes, `?` for any one byte, another byte for
/// itself. One symbol takes time in proportion to its length times the pattern's, at most; where the pattern has no `*`
/// before its end, in proportion to the shorter of the two. An atom at the left gives one item.
pub fn is_like(alloc: Global, left: &Side<'_>, pattern: &[u8]) -> Result<Vector, NoMemory>
    requires { side_kind left.now ≡ k.Symbol }
    ensures { IfOk result (λ v. v ≡ record {
      kind = k.Boolean;
      atoms
          = map (λ x. a.Boolean (matches pattern.now (worth x).text)) (items_of left.now);
    }) }
{
    match Cells::of(left) {
        Cells::Symbols(items) => {
            let values = like_texts(alloc, &items, pattern)?;
            Ok(booleans(values))
        }
        _ => unreachable!(),
    }
}
