//! Blocks: the columns of consecutive updates, and a mark for each update.
ghost use Rattle.std.specs.Prelude.{◌≡◌, ◌↔◌, ℕ, ◌<◌, ◌≤◌, ◌+◌, ◌-◌, ◌^◌, ◌++◌, [], ◌∷◌, ◌==◌, if◌then◌else◌, true, min};
ghost use Rattle.std.specs.Prelude.{length, map, take, drop, replicate, slice_get, slice_index, vec_len, IfOk, IfErr, OnOk, OnErr, MatchOption};
ghost use Rattle.std.specs.List.{AllByRecursion, sum_by};
ghost use Rattle.day_rows.specs.Blocks.{IsBlock, mark_of, rows_marked, atoms_at, columns_with, tables_with};
ghost use Rattle.day_rows.specs.Day.{IsUpdate, entry_rows, total_rows};
ghost use Rattle.day_rows.specs.Joined.{atoms_of, atoms_in, joined, rows_in};

use crate::admits::rows_of_entry;
use crate::copies::append_block;
use crate::entry::Entry;
use crate::schema::Kinds;
use crate::table::Table;
use crate::trace::Trace;
use q_values::{Columns, NoMemory, Vector};
use std::alloc::Global;
use std::marker::Model;
use std::sync::Arc;

/// The least number of rows of a block that is sealed.
pub const BLOCK_ROWS: u64 = 1_024;

/// What a block keeps of an update beside its rows.
#[derive(Clone, Copy, Debug, PartialEq, Eq)]
pub struct Mark {
    /// The number of the pass that made the update.
    pub by: u64,
    /// The table's index in the schema.
    pub table: u32,
    /// The number of its rows.
    pub rows: u32,
}

/// The columns of consecutive updates, and a mark for each update. Contracts see the updates.
#[derive(Drop)]
pub struct Block {
    // for each table its columns, with the rows of the block's updates in order
    tables: Vec<Table>,
    // for each update its mark, in order
    marks: Vec<Mark>,
    // the number of rows of all updates; it saturates
    rows: u64,
    // the updates themselves, for contracts alone
    of: Trace<Entry>,
}

impl Model for Block {
    ghost use Rattle.std.specs.Prelude.{List};
    ghost use Rattle.day_rows.specs.declared.entry.Entry.{Entry};

    ghost Value = { List Entry };

    ghost use Rattle.day_rows.specs.Blocks.{IsBlock};

    ghost view = { λ b. b.of };

    ghost invariant = { λ b. IsBlock b.of b.tables.items b.marks.items b.rows };
}

// Adds tables without columns, until there is one with this index.
fn add_tables(alloc: Global, tables: &mut Vec<Table>, index: usize) -> Result<(), NoMemory>
    requires { index < 2 ^ 32 }
    ensures same { (table column : ℕ) → atoms_at tables.new.items table column ≡ atoms_at tables.old.items table column }
    ensures ok { OnOk result (index < length tables.new.items) }
{
    for _ in tables.len()..index + 1 {
        tables.push(Table::new(alloc))?;
    }
    Ok(())
}

// The room that a new column gets, where the first update has this many rows: for as many updates of that size as seal a
// block; where two do, for the first alone, since a vector that grows has room for twice as many.
fn room_for(rows: usize) -> usize {
    let least = BLOCK_ROWS as usize;
    if rows == 0 || rows >= least / 2 {
        return rows;
    }
    rows.saturating_mul(least.div_ceil(rows))
}

// Appends an update's columns to those of its table. An error changes no atom.
fn append_update(
    alloc: Global,
    tables: &mut Vec<Table>,
    index: usize,
    columns: &Columns,
    rows: usize,
) -> Result<(), NoMemory>
    requires { index < 2 ^ 32 }
    ensures ok { OnOk result ((table column : ℕ) → atoms_at tables.new.items table column
        ≡ atoms_at tables.old.items table column ++ (if index == table then atoms_of (slice_get columns.now column) else [])) }
    ensures err { OnErr result ((table column : ℕ) → atoms_at tables.new.items table column ≡ atoms_at tables.old.items table column) }
{
    add_tables(alloc, tables, index)?;
    tables[index].append(alloc, columns.as_slice(), room_for(rows))
}

// Appends an entry's columns, where it has some. An error changes no atom.
fn append_entry(alloc: Global, tables: &mut Vec<Table>, entry: &Entry) -> Result<(), NoMemory>
    ensures ok { OnOk result ((table column : ℕ) → atoms_at tables.new.items table column
        ≡ atoms_at tables.old.items table column ++ atoms_in table column entry.now) }
    ensures err { OnErr result ((table column : ℕ) → atoms_at tables.new.items table column ≡ atoms_at tables.old.items table column) }
{
    match entry {
        Entry::Upd { table, columns, .. } => {
            append_update(
                alloc,
                tables,
                *table as usize,
                columns,
                rows_of_entry(entry),
            )
        }
        _ => Ok(()),
    }
}

/// The mark of an entry.
pub fn mark_of(entry: &Entry) -> Mark
    requires { entry_rows entry.now ≤ 4294967295 }
    ensures { result ≡ mark_of entry.now }
{
    let rows = rows_of_entry(entry) as u32;
    match entry {
        Entry::Upd { by, table, .. } => Mark {
            by: *by,
            table: *table,
            rows,
        },
        Entry::Roll { by, .. } | Entry::Fault { by } => Mark {
            by: *by,
            table: 0,
            rows,
        },
    }
}

// A mark's rows of a table.
fn marked(mark: &Mark, table: u32) -> usize
    ensures { result ≡ rows_marked table mark.now }
{
    if mark.table == table {
        return mark.rows as usize;
    }
    0
}

// The number of a table's rows in the updates with these marks.
fn count_marked(marks: &[Mark], table: u32) -> usize
    requires { sum_by (rows_marked table) marks.now ≤ 4294967295 }
    ensures { result ≡ sum_by (rows_marked table) marks.now }
{
    let mut count = 0;
    for mark in marks {
        count += marked(mark, table);
    }
    count
}

// The column with this index, or `None` past the end.
fn column_of(columns: &Table, column: usize) -> Option<&Vector>
    ensures { MatchOption result (atoms_of (slice_get columns.now column) ≡ [])
        (λ found. found.now.atoms ≡ atoms_of (slice_get columns.now column)) }
{
    columns.get(column)
}

// This many zeros.
fn zeros(alloc: Global, n: usize) -> Result<Vec<usize>, NoMemory>
    ensures items { IfOk result (λ found. found.items ≡ replicate n 0) }
    ensures len { IfOk result (λ found. vec_len found ≡ n) }
{
    Ok(vec![in alloc; 0; n]?)
}

impl Block {
    /// A block without updates. It takes no memory.
    pub fn new(alloc: Global) -> Block
        ensures { result ≡ [] }
    {
        Block {
            tables: Vec::new(alloc),
            marks: Vec::new(alloc),
            rows: 0,
            of: Trace::new(),
        }
    }

    /// Appends an update, whose columns are copied. An error changes nothing.
    pub fn append(&mut self, alloc: Global, entry: &Entry) -> Result<(), NoMemory>
        requires { entry_rows entry.now ≤ 4294967295 }
        ensures ok { OnOk result (self.new ≡ self.old ++ entry.now ∷ []) }
        ensures err { OnErr result (self.new ≡ self.old) }
    {
        self.marks.reserve(1)?;
        append_entry(alloc, &mut self.tables, entry)?;
        let mark = mark_of(entry);
        self.rows = self.rows.saturating_add(u64::from(mark.rows));
        self.marks.push_reserved(mark);
        self.of.push(entry);
        Ok(())
    }

    /// Whether it has as many rows as a block that is sealed.
    pub fn is_full(&self) -> bool
        ensures { (result ≡ true) ↔ (1024 ≤ total_rows self.now) }
    {
        self.rows >= BLOCK_ROWS
    }

    /// The number of updates.
    pub fn len(&self) -> usize
        ensures { result ≡ length self.now }
    {
        self.marks.len()
    }

    /// A table's column, or `None` where the block has no atoms of it.
    pub fn column(&self, table: u32, column: usize) -> Option<&Vector>
        ensures { MatchOption result (joined table column self.now ≡ [])
            (λ found. found.now.atoms ≡ joined table column self.now) }
    {
        let index = table as usize;
        if index < self.tables.len() {
            return column_of(&self.tables[index], column);
        }
        None
    }

    // The columns of `n` rows of a table, from the row `from` on.
    fn part(
        &self,
        alloc: Global,
        table: u32,
        kinds: &Kinds,
        from: usize,
        n: usize,
    ) -> Result<Columns, NoMemory>
        ensures { IfOk result (λ columns. columns
            ≡ columns_with 0 kinds.now (λ column. take n (drop from (joined table column self.now)))) }
    {
        let mut columns = Columns::new(alloc);
        for i in 0..kinds.len() {
            let mut column = Vector::new(alloc, *kinds.at(i));
            append_block(&mut column, self, table, i, from, n)?;
            columns.push(column)?;
        }
        Ok(columns)
    }

    // The number of a table's rows in the first `n` updates.
    fn first_rows(&self, table: u32, n: usize) -> usize
        requires bounded { total_rows (take n self.now) ≤ 4294967295 }
        requires within { n ≤ length self.now }
        ensures { result ≡ sum_by (rows_in table) (take n self.now) }
    {
        count_marked(&self.marks[..n], table)
    }

    // The columns of each table in the first `n` updates. `kinds` are those of each table's columns.
    fn first_tables(&self, alloc: Global, kinds: &[Kinds], n: usize) -> Result<Vec<Table>, NoMemory>
        requires few { length kinds.now ≤ 64 }
        requires updates { AllByRecursion (IsUpdate kinds.now) (take n self.now) }
        requires bounded { total_rows (take n self.now) ≤ 4294967295 }
        requires within { n ≤ length self.now }
        ensures { IfOk result (λ tables. tables.items ≡ tables_with 0 kinds.now (take n self.now)) }
    {
        let mut tables = Vec::with_capacity(alloc, kinds.len())?;
        for i in 0..kinds.len() {
            let rows = self.first_rows(i as u32, n);
            let columns = self.part(alloc, i as u32, &kinds[i], 0, rows)?;
            tables.push(Table::from_columns(columns))?;
        }
        Ok(tables)
    }

    /// A block of the first `n` updates, whose columns are copied. `kinds` are those of each table's columns.
    pub fn first(&self, alloc: Global, kinds: &[Kinds], n: usize) -> Result<Block, NoMemory>
        requires few { length kinds.now ≤ 64 }
        requires updates { AllByRecursion (IsUpdate kinds.now) (take n self.now) }
        requires bounded { total_rows (take n self.now) ≤ 4294967295 }
        requires within { n ≤ length self.now }
        ensures { IfOk result (λ block. block ≡ take n self.now) }
    {
        let tables = self.first_tables(alloc, kinds, n)?;
        let marks = Vec::from_slice(alloc, &self.marks[..n])?;
        let rows = rows_of_marks(&marks);
        Ok(Block {
            tables,
            marks,
            rows,
            of: self.of.first(n),
        })
    }

    // For each table the number of its rows in the first `n` updates. `kinds` are those of each table's columns.
    fn starts(&self, alloc: Global, kinds: &[Kinds], n: usize) -> Result<Vec<usize>, NoMemory>
        requires within { n ≤ length self.now }
        requires updates { AllByRecursion (IsUpdate kinds.now) (take n self.now) }
        requires bounded { total_rows (take n self.now) ≤ 4294967295 }
        ensures size { IfOk result (λ starts. length starts.items ≡ length kinds.now) }
        ensures count { IfOk result (λ starts. vec_len starts ≡ length kinds.now) }
        ensures each { IfOk result (λ starts. (t : ℕ) → t < length kinds.now → slice_index starts.items t ≡ sum_by (rows_in t) (take n self.now)) }
    {
        let mut starts = zeros(alloc, kinds.len())?;
        for mark in &self.marks[..n] {
            let index = mark.table as usize;
            let start = starts[index];
            starts[index] = start + mark.rows as usize;
        }
        Ok(starts)
    }

    /// The entries, and after them copies of the block's updates from the index `from` on, up to the one before the index
    /// `to`. `kinds` are those of each table's columns.
    pub fn split(
        &self,
        alloc: Global,
        kinds: &[Kinds],
        from: usize,
        to: usize,
        entries: Vec<Entry>,
    ) -> Result<Vec<Entry>, NoMemory>
        requires order { from ≤ to }
        requires within { to ≤ length self.now }
        requires updates { AllByRecursion (IsUpdate kinds.now) (take to self.now) }
        requires bounded { total_rows (take to self.now) ≤ 4294967295 }
        ensures { IfOk result (λ found. found.items ≡ entries.items ++ drop from (take to self.now)) }
    {
        let mut found = entries;
        let mut starts = self.starts(alloc, kinds, from)?;
        for i in from..to {
            let Mark { by, table, rows } = self.marks[i];
            let index = table as usize;
            let start = starts[index];
            let columns = self.part(alloc, table, &kinds[index], start, rows as usize)?;
            starts[index] = start + rows as usize;
            found.push(Entry::Upd { by, table, columns })?;
        }
        Ok(found)
    }
}

// The number of rows of all updates with these marks; it saturates.
fn rows_of_marks(marks: &[Mark]) -> u64
    ensures { result ≡ min (sum_by (λ mark. mark.rows) marks.now) (2 ^ 64 - 1) }
{
    let mut rows = 0u64;
    for mark in marks {
        rows = rows.saturating_add(u64::from(mark.rows));
    }
    rows
}

/// A block that several days may share.
#[derive(Drop)]
pub struct SharedBlock {
    // the block, which is never changed
    block: Arc<Block>,
}

impl Model for SharedBlock {
    ghost use Rattle.std.specs.Prelude.{List};
    ghost use Rattle.day_rows.specs.declared.entry.Entry.{Entry};

    ghost Value = { List Entry };

    ghost view = { λ s. s.block.value };
}

impl SharedBlock {
    /// This block, which is moved and not copied. An error gives it back.
    pub fn new(alloc: Global, block: Block) -> Result<SharedBlock, Block>
        ensures ok { IfOk result (λ shared. shared ≡ block) }
        ensures err { IfErr result (λ back. back ≡ block) }
    {
        match Arc::new(alloc, block) {
            Ok(block) => Ok(SharedBlock { block }),
            Err(failed) => Err(failed.value),
        }
    }

    /// The block.
    pub fn block(&self) -> &Block
        ensures { result.now ≡ self.now }
    {
        &self.block
    }

    /// The same block, which is shared and not copied.
    pub fn share(&self) -> Result<SharedBlock, NoMemory>
        ensures { IfOk result (λ shared. shared ≡ self.now) }
    {
        Ok(SharedBlock {
            block: self.block.clone()?,
        })
    }
}
