//! The columns of one table of a block.
ghost use Rattle.std.specs.Prelude.{◌≡◌, ℕ, ◌≤◌, ◌<◌, ◌-◌, ◌++◌, [], length, take, slice_get, option_copied, OnOk, OnErr};
ghost use Rattle.day_rows.specs.Joined.{atoms_of};

use q_values::{Columns, NoMemory, Vector};
use std::alloc::Global;
use std::marker::Model;

/// The columns of a table; none where it has had no update. Contracts see their contents.
#[derive(Drop)]
pub struct Table {
    // the columns, in order
    columns: Vec<Vector>,
}

impl Model for Table {
    ghost use Rattle.std.specs.Prelude.{List};
    ghost use Rattle.q_values.specs.Contents.{Contents};

    ghost Value = { List Contents };

    ghost view = { λ t. t.columns.items };
}

// Puts empty columns of the kinds of `more` at the end, until there are as many. Each has room for `room` atoms.
fn widen(
    alloc: Global,
    columns: &mut Vec<Vector>,
    more: &[Vector],
    room: usize,
) -> Result<(), NoMemory>
    ensures same { (column : ℕ) → atoms_of (slice_get columns.new.items column) ≡ atoms_of (slice_get columns.old.items column) }
    ensures ok { OnOk result (length more.now ≤ length columns.new.items) }
{
    for i in columns.len()..more.len() {
        let mut column = Vector::new(alloc, more[i].kind());
        column.reserve(room)?;
        columns.push(column)?;
    }
    Ok(())
}

// Takes from the first `n` columns as many atoms as those of `more` have, at the end.
fn shorten(columns: &mut Vec<Vector>, more: &[Vector], n: usize)
    requires some { n ≤ length more.now }
    requires wide { length more.now ≤ length columns.old.items }
    ensures { (column : ℕ) → atoms_of (slice_get columns.new.items column)
        ≡ take (length (atoms_of (slice_get columns.old.items column)) - length (atoms_of (slice_get (take n more.now) column)))
        (atoms_of (slice_get columns.old.items column)) }
{
    for i in 0..n {
        let left = columns[i].len().saturating_sub(more[i].len());
        columns[i].truncate(left);
    }
}

// Appends to each column the atoms of the one of `more` with its index. An error changes nothing.
fn append_columns(columns: &mut Vec<Vector>, more: &[Vector]) -> Result<(), NoMemory>
    requires { length more.now ≤ length columns.old.items }
    ensures ok { OnOk result ((column : ℕ) → atoms_of (slice_get columns.new.items column)
        ≡ atoms_of (slice_get columns.old.items column) ++ atoms_of (slice_get more.now column)) }
    ensures err { OnErr result ((column : ℕ) → atoms_of (slice_get columns.new.items column) ≡ atoms_of (slice_get columns.old.items column)) }
{
    for i in 0..more.len() {
        if columns[i].append(&more[i]).is_err() {
            shorten(columns, more, i);
            return Err(NoMemory);
        }
    }
    Ok(())
}

impl Table {
    /// No columns. It takes no memory.
    pub fn new(alloc: Global) -> Table
        ensures { result ≡ [] }
    {
        Table {
            columns: Vec::new(alloc),
        }
    }

    /// These columns, which are moved and not copied.
    pub fn from_columns(columns: Columns) -> Table
        ensures { result ≡ columns }
    {
        Table {
            columns: columns.into_vec(),
        }
    }

    /// The column with this index, if there is one.
    pub fn get(&self, column: usize) -> Option<&Vector>
        ensures { option_copied result ≡ slice_get self.now column }
    {
        self.columns.get(column)
    }

    /// Appends to each column the atoms of the one of `more` with its index. Columns that are missing are made, with room
    /// for `room` atoms. An error changes no atom.
    pub fn append(&mut self, alloc: Global, more: &[Vector], room: usize) -> Result<(), NoMemory>
        ensures ok { OnOk result ((column : ℕ) → atoms_of (slice_get self.new column)
            ≡ atoms_of (slice_get self.old column) ++ atoms_of (slice_get more.now column)) }
        ensures err { OnErr result ((column : ℕ) → atoms_of (slice_get self.new column) ≡ atoms_of (slice_get self.old column)) }
    {
        widen(alloc, &mut self.columns, more, room)?;
        append_columns(&mut self.columns, more)
    }
}
