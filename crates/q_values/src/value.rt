//! Values: what a message or an answer holds.
ghost use Rattle.std.specs.Iterator.Adapters.{IterYieldsInOrder};
ghost use Rattle.std.specs.Slice.Iter.{iter_rest};
ghost use Rattle.std.specs.Prelude.{◌≡◌, ◌==◌, ◌<◌, ◌^◌, [], ◌∷◌, ◌++◌, length, map, Some, slice_get, option_copied, option_map, OnOk, OnErr, IfOk};
ghost use Rattle.q_values.specs.Table.{IsTable, rows_of};

use crate::atom::Atom;
use crate::refusal::NoMemory;
use crate::sequence::Sequence;
use crate::sym::Sym;
use crate::vector::Vector;
use std::alloc::Global;
use std::mem::size_of;
use std::slice::Iter;

/// The bytes of a text.
pub type Text = Sequence<u8>;

/// Names, as those of a table's columns.
pub type Names = Sequence<Sym>;

/// Vectors, as the columns of a table.
pub type Columns = Sequence<Vector>;

/// Indices of a list, counted from 0.
pub type Places = Sequence<usize>;

/// A table: at least one column, a name for each, and columns of one length.
#[derive(Drop)]
pub struct TableValue {
    /// The names of the columns.
    pub names: Names,
    /// The columns, of one length.
    pub columns: Columns,
    pub ghost in_shape: { IsTable names columns },
}

/// A keyed table: the key columns and the others, of one length.
#[derive(Drop)]
pub struct KeyedValue {
    /// The key columns.
    pub keys: TableValue,
    /// The other columns.
    pub values: TableValue,
    pub ghost of_one_length: { rows_of keys.columns ≡ rows_of values.columns },
}

/// A list of values, each of any kind.
#[cycle(value)]
#[derive(Drop)]
pub struct Values {
    items: Vec<Value>,
}

/// The two sides of a dictionary.
#[cycle(value)]
#[derive(Drop)]
pub struct Pair {
    /// The keys.
    pub keys: Value,
    /// A value for each key.
    pub values: Value,
}

/// A kdb+ value (KX, IPC reference).
#[cycle(value)]
#[derive(Drop)]
pub enum Value {
    /// One value.
    Atom(Atom),
    /// Atoms of one kind.
    Vector(Vector),
    /// Values of any kinds.
    List(Values),
    /// Keys, and a value for each.
    Dict(Box<Pair>),
    /// Named columns of one length.
    Table(TableValue),
    /// A table of keys, and one of the other columns.
    Keyed(Box<KeyedValue>),
    /// The identity `(::)`, which also answers what has no value.
    Identity,
    /// An error, with its text.
    Wrong(Text),
}

// What a list takes for each item, beside what the item keeps elsewhere.
const _: () = prove!(size_of::<Value>() == 40);

impl Values {
    ghost use Rattle.q_values.specs.Tree.{tree, trees};

    /// An empty list, which takes no memory.
    pub fn new(alloc: Global) -> Values
        ensures { trees result ≡ [] }
    {
        Values {
            items: Vec::new(alloc),
        }
    }

    /// An empty list with room for this many items.
    pub fn with_capacity(alloc: Global, room: usize) -> Result<Values, NoMemory>
        ensures { IfOk result (λ v. trees v ≡ []) }
    {
        Ok(Values {
            items: Vec::with_capacity(alloc, room)?,
        })
    }

    /// A list of these items, which are not copied.
    pub fn from_vec(items: Vec<Value>) -> Values
        ensures { trees result ≡ map tree items.items }
    {
        Values { items }
    }

    /// The number of items.
    pub fn len(&self) -> usize
        ensures { result ≡ length (trees self.now) }
    {
        self.items.len()
    }

    /// Whether there are no items.
    pub fn is_empty(&self) -> bool
        ensures { result ≡ (length (trees self.now) == 0) }
    {
        self.len() == 0
    }

    /// Puts the item at the end. A refused call changes nothing.
    pub fn push(&mut self, item: Value) -> Result<(), NoMemory>
        ensures ok { OnOk result (trees self.new ≡ trees self.old ++ tree item ∷ []) }
        ensures err { OnErr result (trees self.new ≡ trees self.old) }
    {
        self.items.push(item)?;
        Ok(())
    }

    /// Lends the item at the index `i`.
    pub fn at(&self, i: usize) -> &Value
        requires { i < length (trees self.now) }
        ensures { slice_get (trees self.now) i ≡ Some (tree result.now) }
    {
        &self.items[i]
    }

    /// Lends the item at the index `i`, if there is one.
    pub fn get(&self, i: usize) -> Option<&Value>
        ensures { option_map tree (option_copied result) ≡ slice_get (trees self.now) i }
    {
        if i < self.len() {
            Some(self.at(i))
        } else {
            None
        }
    }

    /// Goes over the items, in order.
    pub fn iter(&self) -> Iter<'_, Value>
        ensures rest { map tree (iter_rest result) ≡ trees self.now }
        ensures bound { length (iter_rest result) < 2 ^ 64 }
        ensures runs { IterYieldsInOrder Value }
    {
        self.items.iter()
    }

    /// The items, which are not copied.
    pub fn into_vec(self) -> Vec<Value>
        ensures { map tree result.items ≡ trees self }
    {
        self.items
    }

    /// Lends the items.
    pub fn as_slice(&self) -> &[Value]
        ensures { map tree result.now ≡ trees self.now }
    {
        self.items.as_slice()
    }
}
