//! Which tables a schema may have.
ghost use Rattle.std.specs.Prelude.{◌≡◌, ◌≢◌, ◌≤◌, false, ◌↔◌, ◌∷◌, [], take, codes, true, length};
ghost use Rattle.std.specs.List.{AllByRecursion};
ghost use Rattle.std.specs.Str.{bytes_eq};
ghost use Rattle.q_values.specs.declared.kind.Kind.TheVariants as k;
ghost use Rattle.day_rows.specs.Schema.{IsName, IsWord, IsShape, AreDistinct, is_letter, is_word};

use day_rows::Shape;
use q_values::{Kind, Sym};
use q_words::is_reserved_name;

fn is_letter(byte: u8) -> bool
    ensures { result ≡ is_letter byte }
{
    matches!(byte, b'A'..=b'Z' | b'a'..=b'z')
}

fn is_word_byte(byte: u8) -> bool
    ensures { result ≡ is_word byte }
{
    is_letter(byte) || byte.is_ascii_digit() || byte == b'_'
}

fn are_word_bytes(bytes: &[u8]) -> bool
    ensures { (result ≡ true) ↔ AllByRecursion (λ b. is_word b ≡ true) bytes.now }
{
    for byte in bytes {
        if !is_word_byte(*byte) {
            return false;
        }
    }
    true
}

// A letter, then letters, digits and underscores.
fn is_word(name: &[u8]) -> bool
    ensures { (result ≡ true) ↔ IsWord name.now }
{
    match name {
        [first, rest @ ..] => is_letter(*first) && are_word_bytes(rest),
        [] => false,
    }
}

// Whether a table or a column may have this name.
fn is_name(name: &Sym) -> bool
    ensures { (result ≡ true) ↔ IsName name.now }
{
    let bytes = name.bytes();
    is_word(bytes) && !is_reserved_name(bytes) && bytes.len() <= 64
}

fn are_names(names: &[Sym]) -> bool
    ensures { (result ≡ true) ↔ AllByRecursion IsName names.now }
{
    for name in names {
        if !is_name(name) {
            return false;
        }
    }
    true
}

fn is_same(some: &[u8], other: &[u8]) -> bool
    ensures { result ≡ bytes_eq some.now other.now }
{
    some == other
}

fn is_fresh(name: &Sym, others: &[Sym]) -> bool
    ensures { (result ≡ true) ↔ AllByRecursion (λ y. bytes_eq y name.now ≡ false) others.now }
{
    for other in others {
        if is_same(other.bytes(), name.bytes()) {
            return false;
        }
    }
    true
}

fn are_distinct(names: &[Sym]) -> bool
    ensures { (result ≡ true) ↔ AreDistinct names.now }
{
    for i in 0..names.len() {
        if !is_fresh(&names[i], &names[i + 1..]) {
            return false;
        }
    }
    true
}

fn are_time_and_sym(names: &[Sym]) -> bool
    ensures { (result ≡ true) ↔ (take 2 names.now ≡ codes "time" ∷ codes "sym" ∷ []) }
{
    match names {
        [time, sym, ..] => is_same(time.bytes(), b"time") && is_same(sym.bytes(), b"sym"),
        _ => false,
    }
}

fn are_timespan_and_symbol(kinds: &[Kind]) -> bool
    ensures { (result ≡ true) ↔ (take 2 kinds.now ≡ k.Timespan ∷ k.Symbol ∷ []) }
{
    match kinds {
        [first, second, ..] => *first == Kind::Timespan && *second == Kind::Symbol,
        _ => false,
    }
}

fn have_no_characters(kinds: &[Kind]) -> bool
    ensures { (result ≡ true) ↔ AllByRecursion (λ kind. kind ≢ k.Character) kinds.now }
{
    for kind in kinds {
        if *kind == Kind::Character {
            return false;
        }
    }
    true
}

fn are_columns(names: &[Sym], kinds: &[Kind]) -> bool
    ensures { (result ≡ true) ↔ ((length names.now ≤ 48) × (length names.now ≡ length kinds.now)
        × (take 2 names.now ≡ codes "time" ∷ codes "sym" ∷ []) × (take 2 kinds.now ≡ k.Timespan ∷ k.Symbol ∷ [])) }
{
    names.len() <= 48
        && names.len() == kinds.len()
        && are_time_and_sym(names)
        && are_timespan_and_symbol(kinds)
}

/// Whether a schema may have this table.
pub fn is_shape(shape: &Shape) -> bool
    ensures { (result ≡ true) ↔ IsShape shape.now }
{
    let names = shape.names.as_slice();
    let kinds = shape.kinds.as_slice();
    is_name(&shape.table)
        && are_names(names)
        && are_distinct(names)
        && are_columns(names, kinds)
        && have_no_characters(kinds)
}
