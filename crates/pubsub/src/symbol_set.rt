//! Sets of symbols, for looking up the symbols of many rows.
ghost use Rattle.std.specs.Prelude.{◌≡◌, ◌≤◌, ◌||◌, ℕ, List, length, IfOk, OnOk};
ghost use Rattle.std.specs.HashSet.{contains};
ghost use Rattle.std.specs.List.{list_any};
ghost use Rattle.std.specs.Str.{bytes_eq};
ghost use Rattle.q_values.specs.Bytes.{HasNoNul};
ghost use Rattle.pubsub.specs.SymbolSet.{has_short, has_text};

use q_values::{NoMemory, ShortSymbol, Symbols};
use std::alloc::Global;
use std::collections::HashSet;
use std::marker::Model;
use std::snapshot::Snapshot;
use std::sync::Arc;

/// The most symbols that are compared one by one, which is faster than a hashed set for so few.
const FEW: usize = 12;

// Symbols of at most eight bytes that are searched for.
#[derive(Drop)]
enum Short {
    // few of them
    Few(Vec<ShortSymbol>),
    // more
    Many(HashSet<ShortSymbol>),
}

// Symbols that are searched for.
#[derive(Drop)]
struct Held {
    // those of at most eight bytes
    short: Short,
    // all of them
    texts: HashSet<Vec<u8>>,
    // all of them, as they were given
    given: Snapshot<Symbols>,
}

impl Model for Held {
    ghost use Rattle.std.specs.Prelude.{ℕ, List};
    ghost use Rattle.pubsub.specs.SymbolSet.{AreGiven};

    ghost Value = { List (List ℕ) };

    ghost view = { λ h. h.given.value };

    ghost invariant = { λ h. AreGiven h.short h.texts h.given.value };
}

fn push_short(items: &mut Vec<ShortSymbol>, symbol: &[u8]) -> Result<(), NoMemory>
    requires { HasNoNul symbol.now }
    ensures { OnOk result ((bytes : List ℕ) → length bytes ≤ 8
        → list_any (bytes_eq bytes) items.new.items ≡ (list_any (bytes_eq bytes) items.old.items || bytes_eq bytes symbol.now)) }
{
    match ShortSymbol::of(symbol) {
        Some(short) => {
            items.push(short)?;
            Ok(())
        }
        None => Ok(()),
    }
}

// Those of at most eight bytes.
fn short_items(alloc: Global, symbols: &Symbols) -> Result<Vec<ShortSymbol>, NoMemory>
    ensures { IfOk result (λ items. (bytes : List ℕ) → length bytes ≤ 8
        → list_any (bytes_eq bytes) items.items ≡ list_any (bytes_eq bytes) symbols.now) }
{
    let mut items = Vec::new(alloc);
    for i in 0..symbols.len() {
        push_short(&mut items, symbols.at(i))?;
    }
    Ok(items)
}

fn short_set(alloc: Global, items: &[ShortSymbol]) -> Result<HashSet<ShortSymbol>, NoMemory>
    ensures { IfOk result (λ set. (bytes : List ℕ) → contains bytes_eq set bytes ≡ list_any (bytes_eq bytes) items.now) }
{
    let mut set = HashSet::new(alloc);
    for item in items {
        set.insert(*item)?;
    }
    Ok(set)
}

fn short_of(alloc: Global, symbols: &Symbols) -> Result<Short, NoMemory>
    ensures { IfOk result (λ short. (bytes : List ℕ) → length bytes ≤ 8
        → has_short short bytes ≡ list_any (bytes_eq bytes) symbols.now) }
{
    let items = short_items(alloc, symbols)?;
    if items.len() <= FEW {
        return Ok(Short::Few(items));
    }
    let set = short_set(alloc, &items)?;
    Ok(Short::Many(set))
}

// Whether the symbol is one of few, with no branch for each.
fn is_one_of(items: &[ShortSymbol], symbol: &ShortSymbol) -> bool
    ensures { result ≡ list_any (bytes_eq symbol.now) items.now }
{
    let mut found = false;
    for item in items {
        found |= *symbol == *item;
    }
    found
}

fn put_text(alloc: Global, texts: &mut HashSet<Vec<u8>>, symbol: &[u8]) -> Result<(), NoMemory>
    ensures { OnOk result ((bytes : List ℕ)
        → has_text texts.new bytes ≡ (has_text texts.old bytes || bytes_eq bytes symbol.now)) }
{
    let text = Vec::from_slice(alloc, symbol)?;
    texts.insert(text)?;
    Ok(())
}

fn texts_of(alloc: Global, symbols: &Symbols) -> Result<HashSet<Vec<u8>>, NoMemory>
    ensures { IfOk result (λ texts. (bytes : List ℕ) → has_text texts bytes ≡ list_any (bytes_eq bytes) symbols.now) }
{
    let mut texts = HashSet::new(alloc);
    for i in 0..symbols.len() {
        put_text(alloc, &mut texts, symbols.at(i))?;
    }
    Ok(texts)
}

/// A set of symbols. Contracts see the symbols that it was made of. Copies share it.
#[derive(Drop)]
pub struct SymbolSet {
    held: Arc<Held>,
}

impl Model for SymbolSet {
    ghost Value = { List (List ℕ) };

    ghost view = { λ s. s.held.value };
}

impl SymbolSet {
    /// The set of these symbols.
    pub fn of(alloc: Global, symbols: &Symbols) -> Result<SymbolSet, NoMemory>
        ensures { IfOk result (λ set. set ≡ symbols.now) }
    {
        let short = short_of(alloc, symbols)?;
        let texts = texts_of(alloc, symbols)?;
        let held = Held {
            short,
            texts,
            given: Snapshot::of(symbols),
        };
        Ok(SymbolSet {
            held: Arc::new(alloc, held)?,
        })
    }

    /// The same set, shared.
    pub fn share(&self) -> Result<SymbolSet, NoMemory>
        ensures { IfOk result (λ set. set ≡ self.now) }
    {
        Ok(SymbolSet {
            held: self.held.clone()?,
        })
    }

    /// Whether the set has a symbol of at most eight bytes.
    pub fn has_short(&self, symbol: &ShortSymbol) -> bool
        ensures { result ≡ list_any (bytes_eq symbol.now) self.now }
    {
        let held: &Held = &self.held;
        // its length is known from here on
        let _number = symbol.number();
        match &held.short {
            Short::Few(items) => is_one_of(items, symbol),
            Short::Many(items) => items.contains(symbol),
        }
    }

    /// Whether the set has the symbol of these bytes.
    pub fn has(&self, symbol: &[u8]) -> bool
        ensures { result ≡ list_any (bytes_eq symbol.now) self.now }
    {
        let held: &Held = &self.held;
        held.texts.contains(symbol)
    }
}
