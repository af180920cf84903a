//! Vectors: atoms of one kind.
ghost use Rattle.std.specs.Prelude.{◌≡◌, ◌≢◌, ◌==◌, ◌<◌, ◌+◌, ◌≤◌, [], ◌∷◌, ◌++◌, length, map, take, drop, Some, slice_get};
ghost use Rattle.std.specs.Prelude.{OnOk, OnErr, IfOk, IfErr, IfSome, IfNone, All};
ghost use Rattle.q_values.specs.Atom.{kind_of};
ghost use Rattle.q_values.specs.Element.{element_atom, HasNoNulInText};
ghost use Rattle.q_values.specs.Lists.{gathered};
ghost use Rattle.q_values.specs.Order.{IsOrder, atom_cmp};
ghost use Rattle.q_values.specs.Refusal.{RefusesKinds};

use crate::atom::{Atom, Element};
use crate::column::Column;
use crate::kind::Kind;
use crate::refusal::{NoMemory, VectorRefusal};
use crate::value::Places;
use std::alloc::Global;
use std::marker::Model;

/// Atoms of one kind, in typed storage (KX, IPC reference). Contracts see its kind and the list of its atoms.
#[derive(Drop)]
pub struct Vector {
    // The atoms, at the width of their kind.
    column: Column,
}

impl Model for Vector {
    ghost use Rattle.q_values.specs.Contents.{Contents};

    ghost Value = { Contents };

    ghost use Rattle.q_values.specs.Column.{contents};

    ghost view = { λ v. contents v.column };
}

impl Vector {
    ghost use Rattle.q_values.specs.Column.{contents};

    /// An empty vector of the kind, which takes no memory.
    pub fn new(alloc: Global, kind: Kind) -> Vector
        ensures { result ≡ record { kind = kind; atoms = [] } }
    {
        Vector {
            column: Column::new(alloc, kind),
        }
    }

    /// The kind of its atoms.
    pub fn kind(&self) -> Kind
        ensures value { result ≡ self.now.kind }
        ensures of_kind { All (λ atom. kind_of atom ≡ self.now.kind) self.now.atoms }
    {
        self.column.kind()
    }

    /// The number of atoms.
    pub fn len(&self) -> usize
        ensures { result ≡ length self.now.atoms }
    {
        self.column.len()
    }

    /// Whether there are no atoms.
    pub fn is_empty(&self) -> bool
        ensures { result ≡ (length self.now.atoms == 0) }
    {
        self.column.is_empty()
    }

    /// The atom at the index `i`, lent: its kind among those of its width, and its value at that width.
    pub fn element(&self, i: usize) -> Element<'_>
        requires { i < length self.now.atoms }
        ensures value { slice_get self.now.atoms i ≡ Some (element_atom result) }
        ensures no_nul { HasNoNulInText result }
    {
        self.column.element(i)
    }

    /// Goes over the atoms, lent, in order.
    pub fn iter(&self) -> VectorIter<'_>
        ensures { result ≡ self.now.atoms }
    {
        VectorIter {
            vector: self,
            next: 0,
        }
    }

    /// The atom at the index `i`, copied.
    pub fn at(&self, alloc: Global, i: usize) -> Result<Atom, NoMemory>
        requires { i < length self.now.atoms }
        ensures { IfOk result (λ atom. slice_get self.now.atoms i ≡ Some atom) }
    {
        self.column.at(alloc, i)
    }

    /// Puts the atom at the end. An atom of another kind is refused, and a refused call changes nothing.
    pub fn push(&mut self, atom: Atom) -> Result<(), VectorRefusal>
        ensures ok { OnOk result (self.new ≡ record self.old { atoms = self.old.atoms ++ atom ∷ [] }) }
        ensures kind { OnOk result (kind_of atom ≡ self.old.kind) }
        ensures err { OnErr result (self.new ≡ self.old) }
        ensures refused { IfErr result (RefusesKinds self.old.kind (kind_of atom)) }
    {
        self.column.push(atom)
    }

    /// The atom at the index `i`, if there is one.
    pub fn get(&self, alloc: Global, i: usize) -> Result<Option<Atom>, NoMemory>
        ensures { IfOk result (λ atom. atom ≡ slice_get self.now.atoms i) }
    {
        if i < self.len() {
            Ok(Some(self.at(alloc, i)?))
        } else {
            Ok(None)
        }
    }

    /// A copy of the `n` atoms from the index `from` on.
    pub fn take(&self, alloc: Global, from: usize, n: usize) -> Result<Vector, NoMemory>
        requires { from + n ≤ length self.now.atoms }
        ensures { IfOk result
            (λ v. v ≡ record self.now { atoms = take n (drop from self.now.atoms) }) }
    {
        Ok(Vector {
            column: self.column.take(alloc, from, n)?,
        })
    }

    /// A copy of the atoms at these indices, in their order.
    pub fn gather(&self, alloc: Global, places: &[usize]) -> Result<Vector, NoMemory>
        requires { All (λ i. i < length self.now.atoms) places.now }
        ensures { IfOk result
            (λ v. v ≡ record self.now { atoms = gathered self.now.atoms places.now }) }
    {
        Ok(Vector {
            column: self.column.gather(alloc, places)?,
        })
    }

    /// Appends the atoms of the other vector. Another kind is refused, and a refused call changes nothing.
    pub fn append(&mut self, other: &Vector) -> Result<(), VectorRefusal>
        ensures ok { OnOk result
            (self.new ≡ record self.old { atoms = self.old.atoms ++ other.now.atoms }) }
        ensures kind { OnOk result (other.now.kind ≡ self.old.kind) }
        ensures err { OnErr result (self.new ≡ self.old) }
        ensures refused { IfErr result (RefusesKinds self.old.kind other.now.kind) }
    {
        self.column.append(&other.column)
    }

    /// Appends the `n` atoms of the other vector from the index `from` on. Another kind is refused, and a refused call
    /// changes nothing.
    pub fn append_part(
        &mut self,
        other: &Vector,
        from: usize,
        n: usize,
    ) -> Result<(), VectorRefusal>
        requires { from + n ≤ length other.now.atoms }
        ensures ok { OnOk result
            (self.new ≡ record self.old { atoms = self.old.atoms ++ take n (drop from other.now.atoms) }) }
        ensures kind { OnOk result (other.now.kind ≡ self.old.kind) }
        ensures err { OnErr result (self.new ≡ self.old) }
        ensures refused { IfErr result (RefusesKinds self.old.kind other.now.kind) }
    {
        self.column.append_part(&other.column, from, n)
    }

    /// Makes room for `n` more atoms; where they are symbols, none for their bytes. It changes no atom.
    pub fn reserve(&mut self, n: usize) -> Result<(), NoMemory>
        ensures { self.new ≡ self.old }
    {
        self.column.reserve(n)
    }

    /// Keeps the first `n` atoms, where there are more.
    pub fn truncate(&mut self, n: usize)
        ensures { self.new ≡ record self.old { atoms = take n self.old.atoms } }
    {
        self.column.truncate(n)
    }

    /// The indices of the atoms in ascending order, ties by index: symbols and characters by bytes, all others by
    /// number, so that a null comes first (the null of a character aside).
    pub fn order(&self, alloc: Global) -> Result<Places, NoMemory>
        ensures { IfOk result (λ places. IsOrder atom_cmp self.now.atoms places) }
    {
        Places::from_vec(alloc, self.column.order(alloc)?)
    }

    /// A vector over this storage, which is not copied.
    pub fn from_column(column: Column) -> Vector
        ensures { result ≡ contents column }
    {
        Vector { column }
    }

    /// The typed storage, which is not copied.
    pub fn into_column(self) -> Column
        ensures { contents result ≡ self }
    {
        self.column
    }

    /// Lends the typed storage.
    pub fn column(&self) -> &Column
        ensures { contents result.now ≡ self.now }
    {
        &self.column
    }
}

/// The atoms of a vector that are left to go over, lent.
#[derive(Drop)]
pub struct VectorIter<'a> {
    vector: &'a Vector,
    // The index of the atom that comes next; their number where none is left.
    next: usize,
}

impl<'a> Model for VectorIter<'a> {
    ghost use Rattle.std.specs.Prelude.{List, drop};
    ghost use Rattle.q_values.specs.declared.atom.Atom.{Atom};

    ghost Value = { List Atom };

    ghost view = { λ it. drop it.next it.vector.now.atoms };
}

impl<'a> Iterator for VectorIter<'a> {
    ghost use Rattle.std.specs.Iterator.{item_count, YieldsFirstBy};
    ghost use Rattle.q_values.specs.Element.{element_atom};

    type Item = Element<'a>;

    ghost next_gives = { YieldsFirstBy element_atom (λ rest. rest) };

    ghost remaining = { item_count (λ rest. rest) };

    fn next(&mut self) -> Option<Element<'a>> {
        let vector = self.vector;
        if self.next >= vector.len() {
            return None;
        }
        let element = vector.element(self.next);
        self.next += 1;
        Some(element)
    }
}
