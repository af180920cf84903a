//! Schemas: which tables a plant has, and what their columns are.
ghost use Rattle.std.specs.Prelude.{◌≡◌, ◌==◌, ◌<◌, ◌≤◌, ◌^◌, [], ◌∷◌, ◌++◌, length, Some, slice_get, option_copied, OnOk, OnErr};
ghost use Rattle.std.specs.Iterator.Adapters.{IterYieldsInOrder};
ghost use Rattle.std.specs.Slice.Iter.{iter_rest};
ghost use Rattle.day_rows.specs.Schema.{IsSchema, IsShape};

use q_values::{Kind, Names, NoMemory, Sequence, Sym};
use std::alloc::Global;
use std::marker::Model;
use std::slice::Iter;

/// The kinds of a table's columns, in order.
pub type Kinds = Sequence<Kind>;

/// A number of rows for each table, in the schema's order.
pub type Counts = Sequence<u32>;

/// A table: its name, and the names and kinds of its columns (KX, tick.q, "schema").
#[derive(Drop)]
pub struct Shape {
    /// The table's name.
    pub table: Sym,
    /// The names of its columns, all different, at most 48: first `time` and `sym`.
    pub names: Names,
    /// The kinds of its columns, one for each name: first a timespan and a symbol.
    pub kinds: Kinds,
}

/// What is kept of a date that was saved as a part.
#[derive(Drop)]
pub struct SavedRecord {
    /// The date, in days since 2000.01.01.
    pub date: i32,
    /// The part's number on the shelf.
    pub part: u64,
    /// The number of names that the part was written with.
    pub names: u32,
    /// The greatest pass number of the date's updates, 0 where there are none.
    pub top_by: u64,
    /// The rows of each table, in the schema's order.
    pub rows: Counts,
}

/// The tables of a plant: at most 64, sorted by name. Contracts see a list of [`Shape`]s.
#[derive(Drop)]
pub struct Schema {
    // the tables, ascending by the bytes of their names
    shapes: Vec<Shape>,
}

impl Model for Schema {
    ghost use Rattle.std.specs.Prelude.{List};
    ghost use Rattle.day_rows.specs.declared.schema.Shape.{Shape};

    ghost Value = { List Shape };

    ghost use Rattle.day_rows.specs.Schema.{IsSchema};

    ghost view = { λ s. s.shapes.items };

    ghost invariant = { λ s. IsSchema s.shapes.items };
}

impl Schema {
    /// A schema without tables. It takes no memory.
    pub fn new(alloc: Global) -> Schema
        ensures { result ≡ [] }
    {
        Schema {
            shapes: Vec::new(alloc),
        }
    }

    /// A schema of these tables, which are moved and not copied.
    pub fn from_vec(shapes: Vec<Shape>) -> Schema
        requires { IsSchema shapes.items }
        ensures { result ≡ shapes.items }
    {
        Schema { shapes }
    }

    /// Appends a table, whose name sorts after the others. An error changes nothing.
    pub fn push(&mut self, shape: Shape) -> Result<(), NoMemory>
        requires { IsSchema (self.old ++ shape ∷ []) }
        ensures ok { OnOk result (self.new ≡ self.old ++ shape ∷ []) }
        ensures err { OnErr result (self.new ≡ self.old) }
    {
        self.shapes.push(shape)?;
        Ok(())
    }

    /// The number of tables.
    pub fn len(&self) -> usize
        ensures value { result ≡ length self.now }
        ensures few { result ≤ 64 }
    {
        self.shapes.len()
    }

    /// Whether there are no tables.
    pub fn is_empty(&self) -> bool
        ensures { result ≡ (length self.now == 0) }
    {
        self.shapes.is_empty()
    }

    /// The tables, in order.
    pub fn iter(&self) -> Iter<'_, Shape>
        ensures rest { iter_rest result ≡ self.now }
        ensures len { length (iter_rest result) ≡ length self.now }
        ensures bound { length (iter_rest result) < 2 ^ 64 }
        ensures runs { IterYieldsInOrder Shape }
    {
        self.shapes.iter()
    }

    /// The table with the index `i`, or `None` past the end.
    pub fn get(&self, i: usize) -> Option<&Shape>
        ensures value { option_copied result ≡ slice_get self.now i }
        ensures lawful { IsSchema self.now }
    {
        self.shapes.get(i)
    }

    /// The table with the index `i`, which is below [`len`](Schema::len).
    pub fn at(&self, i: usize) -> &Shape
        requires { i < length self.now }
        ensures value { slice_get self.now i ≡ Some result.now }
        ensures lawful { IsSchema self.now }
    {
        &self.shapes[i]
    }
}
