//! The updates that a date has and is to have, in blocks.
ghost use Rattle.std.specs.Prelude.{◌≡◌, ◌<◌, ◌≤◌, ◌+◌, ◌^◌, ◌++◌, [], ◌∷◌, length, map, take, drop, get_or, IfOk, OnOk, OnErr};
ghost use Rattle.std.specs.List.{AllByRecursion, flat_map};
ghost use Rattle.day_rows.specs.Blocks.{updates_in, Grew, IsStore};
ghost use Rattle.day_rows.specs.Day.{IsUpdate, total_rows};
ghost use Rattle.q_values.specs.Order.{IsOrder, atom_cmp};
ghost use Rattle.q_values.specs.declared.atom.Atom.TheVariants as a;
ghost use Rattle.day_rows.specs.Joined.{joined};

use crate::block::Block;
use crate::blocks::Blocks;
use crate::copies::{add_symbols, join_blocks};
use crate::entry::Entry;
use crate::schema::Kinds;
use q_groups::Groups;
use q_values::{Kind, NoMemory, Symbols, Vector};
use std::alloc::Global;
use std::mem;

/// Updates in order: full blocks, which days share, and then those of a block that grows.
#[derive(Drop)]
pub struct Store {
    /// The blocks that are full, in order.
    pub blocks: Blocks,
    /// The block of the updates after them.
    pub last: Block,
    /// The number of all updates.
    pub held: usize,
}

impl Store {
    /// No updates. It takes no memory.
    pub fn new(alloc: Global) -> Store
        ensures blocks { result.blocks ≡ [] }
        ensures last { result.last ≡ [] }
        ensures held { result.held ≡ 0 }
    {
        Store {
            blocks: Blocks::new(alloc),
            last: Block::new(alloc),
            held: 0,
        }
    }

    // Moves the block that grows to the full ones. An error changes nothing.
    fn seal(&mut self, alloc: Global) -> Result<(), NoMemory>
        ensures held { self.new.held ≡ self.old.held }
        ensures ok { OnOk result (self.new.blocks ≡ self.old.blocks ++ self.old.last ∷ []) }
        ensures fresh { OnOk result (self.new.last ≡ []) }
        ensures blocks { OnErr result (self.new.blocks ≡ self.old.blocks) }
        ensures last { OnErr result (self.new.last ≡ self.old.last) }
    {
        let full = mem::replace(&mut self.last, Block::new(alloc));
        match self.blocks.push(alloc, full) {
            Ok(()) => Ok(()),
            Err(full) => {
                self.last = full;
                Err(NoMemory)
            }
        }
    }

    /// Appends these updates, whose columns are copied. After an error some of them may have been appended.
    pub fn extend(&mut self, alloc: Global, entries: &[Entry]) -> Result<(), NoMemory>
        requires store { IsStore self.old.blocks self.old.last self.old.held }
        requires grows { total_rows self.old.last < 1024 }
        requires bounded { total_rows entries.now ≤ 4294967295 }
        ensures store { IsStore self.new.blocks self.new.last self.new.held }
        ensures grew { Grew self.old.blocks self.old.last self.new.blocks self.new.last }
        ensures ok { OnOk result (updates_in self.new.blocks self.new.last ≡ updates_in self.old.blocks self.old.last ++ entries.now) }
        ensures grows { OnOk result (total_rows self.new.last < 1024) }
    {
        if entries.len() > usize::MAX - self.held {
            return Err(NoMemory);
        }
        for entry in entries {
            self.last.append(alloc, entry)?;
            self.held += 1;
            if self.last.is_full() {
                self.seal(alloc)?;
            }
        }
        Ok(())
    }

    /// The first updates: those of the first `sealed` blocks, which are shared and have `before` updates, and `n` more,
    /// whose columns are copied. `kinds` are those of each table's columns.
    pub fn first(
        &self,
        alloc: Global,
        kinds: &[Kinds],
        sealed: usize,
        before: usize,
        n: usize,
    ) -> Result<Store, NoMemory>
        requires few { length kinds.now ≤ 64 }
        requires held { before + n < 2 ^ 64 }
        requires sealed { sealed ≤ length self.now.blocks }
        requires within { n ≤ length (get_or self.now.blocks sealed self.now.last) }
        requires updates { AllByRecursion (IsUpdate kinds.now) (take n (get_or self.now.blocks sealed self.now.last)) }
        requires bounded { total_rows (take n (get_or self.now.blocks sealed self.now.last)) ≤ 4294967295 }
        ensures blocks { IfOk result (λ store. store.blocks ≡ take sealed self.now.blocks) }
        ensures last { IfOk result (λ store. store.last ≡ take n (get_or self.now.blocks sealed self.now.last)) }
        ensures held { IfOk result (λ store. store.held ≡ before + n) }
    {
        let last = self.next(sealed).first(alloc, kinds, n)?;
        let blocks = self.blocks.first(alloc, sealed)?;
        Ok(Store {
            blocks,
            last,
            held: before + n,
        })
    }

    /// Becomes this one.
    pub fn replace(&mut self, fresh: Store)
        ensures blocks { self.new.blocks ≡ fresh.blocks }
        ensures last { self.new.last ≡ fresh.last }
        ensures held { self.new.held ≡ fresh.held }
    {
        *self = fresh;
    }

    /// The full block with this index; the one that grows after them.
    pub fn next(&self, index: usize) -> &Block
        ensures { result.now ≡ get_or self.now.blocks index self.now.last }
    {
        match self.blocks.get(index) {
            Some(block) => block,
            None => &self.last,
        }
    }

    // All blocks, lent, in order.
    fn all(&self, alloc: Global) -> Result<Vec<&Block>, NoMemory>
        ensures { IfOk result (λ all. flat_map (λ block. block.now) all.items ≡ updates_in self.now.blocks self.now.last) }
    {
        let mut all = self.blocks.lent(alloc)?;
        all.push(&self.last)?;
        Ok(all)
    }

    /// The `n` atoms from the row `from` on of a table's column, in the order of arrival; fewer where it ends before.
    pub fn column(
        &self,
        alloc: Global,
        table: u32,
        column: usize,
        kind: Kind,
        from: usize,
        n: usize,
    ) -> Result<Vector, NoMemory>
        ensures { IfOk result (λ found. found ≡ record {
          kind = kind;
          atoms = take n (drop from (joined table column (updates_in self.now.blocks self.now.last)));
        }) }
    {
        let blocks = self.all(alloc)?;
        let found = join_blocks(alloc, &blocks, table, column, kind, from, n)?;
        Ok(found)
    }

    // The symbols of a table's column, lent, in the order of arrival.
    fn symbols(&self, alloc: Global, table: u32, column: usize) -> Result<Vec<&Symbols>, NoMemory>
        ensures { IfOk result (λ parts. map (λ t. a.Symbol t) (flat_map (λ part. part.now) parts.items)
            ≡ joined table column (updates_in self.now.blocks self.now.last)) }
    {
        let blocks = self.all(alloc)?;
        let mut parts = Vec::with_capacity(alloc, blocks.len())?;
        for block in &blocks {
            add_symbols(&mut parts, block, table, column)?;
        }
        Ok(parts)
    }

    /// The first `n` rows of a table in the order of a column of symbols, ties by arrival.
    pub fn order(
        &self,
        alloc: Global,
        table: u32,
        column: usize,
        n: usize,
    ) -> Result<Vec<u32>, NoMemory>
        ensures { IfOk result (λ order. IsOrder atom_cmp
            (take n (joined table column (updates_in self.now.blocks self.now.last))) order.items) }
    {
        let parts = self.symbols(alloc, table, column)?;
        let groups = Groups::of_symbols(alloc, &parts, n)?;
        let order = groups.order(alloc)?;
        Ok(order)
    }

    // Of the first `sealed` blocks and the one after them: the index of the block that has the update `from`, and the number
    // of updates before that block. `before` is the number of updates in the first `sealed` blocks.
    fn place_of(&self, sealed: usize, before: usize, from: usize) -> (usize, usize)
        requires sealed { sealed ≤ length self.now.blocks }
        requires before { before ≡ length (flat_map (λ block. block) (take sealed self.now.blocks)) }
        ensures block { result.0 ≤ sealed }
        ensures start { result.1 ≡ length (flat_map (λ block. block) (take result.0 self.now.blocks)) }
        ensures after { result.1 ≤ from }
        ensures within { result.0 < sealed → from ≤ length (flat_map (λ block. block) (take (result.0 + 1) self.now.blocks)) }
    {
        let mut block = sealed;
        let mut start = before;
        while from < start {
            block -= 1;
            start -= self.next(block).len();
        }
        (block, start)
    }

    /// Copies of the updates from the index `from` on: of those of the first `sealed` blocks, which have `before` updates,
    /// and `n` more. `kinds` are those of each table's columns. Blocks before the update `from` cost nothing.
    pub fn entries(
        &self,
        alloc: Global,
        kinds: &[Kinds],
        sealed: usize,
        before: usize,
        n: usize,
        from: usize,
    ) -> Result<Vec<Entry>, NoMemory>
        requires held { before + n < 2 ^ 64 }
        requires sealed { sealed ≤ length self.now.blocks }
        requires before { before ≡ length (flat_map (λ block. block) (take sealed self.now.blocks)) }
        requires within { n ≤ length (get_or self.now.blocks sealed self.now.last) }
        requires from { from ≤ before + n }
        requires updates { AllByRecursion (IsUpdate kinds.now)
            (flat_map (λ block. block) (take sealed self.now.blocks) ++ take n (get_or self.now.blocks sealed self.now.last)) }
        requires bounded { total_rows
            (flat_map (λ block. block) (take sealed self.now.blocks) ++ take n (get_or self.now.blocks sealed self.now.last)) ≤ 4294967295 }
        ensures { IfOk result (λ entries. entries.items
            ≡ drop from (flat_map (λ block. block) (take sealed self.now.blocks) ++ take n (get_or self.now.blocks sealed self.now.last))) }
    {
        let (first, start) = self.place_of(sealed, before, from);
        let mut entries = Vec::with_capacity(alloc, before + n - from)?;
        let mut skip = from - start;
        for i in first..sealed {
            let block = self.next(i);
            entries = block.split(alloc, kinds, skip, block.len(), entries)?;
            skip = 0;
        }
        self.next(sealed).split(alloc, kinds, skip, n, entries)
    }
}
