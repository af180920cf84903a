//! The columns over which expressions are evaluated.
ghost use Rattle.std.specs.Prelude.{◌≡◌, ◌<◌, IsSome, Some, length, All, IfOk};
ghost use Rattle.q_values.specs.Table.{rows_of};
ghost use Rattle.qsql_values.specs.Frames.{AreColumns, frame_of, column_in, kind_beside, rows_at};
ghost use Rattle.qsql_values.specs.Operands.{contents_of};

use crate::beside::item_beside;
use crate::operand::Held;
use q_values::{NoMemory, Sym, Vector};
use std::alloc::Global;
use std::marker::Model;

/// Named columns of one length, lent: all their rows, or those at some indices. Contracts see the rows.
#[derive(Drop)]
pub struct Scope<'a> {
    // a name for each column
    names: &'a [Sym],
    // the columns, of one length
    columns: &'a [Vector],
    // the indices of the rows, where they aren't all rows of the columns
    places: Option<&'a [usize]>,
}

impl<'a> Model for Scope<'a> {
    ghost use Rattle.std.specs.Prelude.{option_copied};
    ghost use Rattle.qsql_values.specs.Frames.{Frame, AreRows, frame_of, part_at};

    ghost Value = { Frame };

    ghost view = { λ s. part_at (option_copied s.places) (frame_of s.names.now s.columns.now) };

    ghost invariant = { λ s. AreRows s.names.now s.columns.now (option_copied s.places) };
}

// Lends the column with this name.
#[tactic(auto, using(crate::proofs::FrameLemmas::lent))]
fn column_named<'a>(name: &[u8], names: &[Sym], columns: &'a [Vector]) -> &'a Vector
    requires columns { AreColumns names.now columns.now }
    requires some { IsSome (kind_beside (frame_of names.now columns.now) name.now) }
    ensures value { result.now ≡ column_in (frame_of names.now columns.now) name.now }
    ensures kind { kind_beside (frame_of names.now columns.now) name.now ≡ Some result.now.kind }
    ensures size { length result.now.atoms ≡ rows_of columns.now }
{
    match item_beside(name, names, columns) {
        Some(column) => column,
        None => unreachable!(),
    }
}

impl<'a> Scope<'a> {
    /// All rows of these columns with these names.
    pub fn new(names: &'a [Sym], columns: &'a [Vector]) -> Scope<'a>
        requires { AreColumns names.now columns.now }
        ensures { result ≡ frame_of names.now columns.now }
    {
        Scope {
            names,
            columns,
            places: None,
        }
    }

    /// The rows at these indices of these columns with these names.
    pub fn at(names: &'a [Sym], columns: &'a [Vector], places: &'a [usize]) -> Scope<'a>
        requires columns { AreColumns names.now columns.now }
        requires within { All (λ p. p < rows_of columns.now) places.now }
        ensures { result ≡ rows_at places.now (frame_of names.now columns.now) }
    {
        Scope {
            names,
            columns,
            places: Some(places),
        }
    }

    #[tactic(auto, using(crate::proofs::FrameLemmas::length_frame, crate::proofs::FrameLemmas::length_rows_at))]
    /// The number of rows.
    pub fn len(&self) -> usize
        ensures { result ≡ length self.now.rows }
    {
        match (self.places, self.columns.first()) {
            (Some(places), _) => places.len(),
            (None, Some(column)) => column.len(),
            (None, None) => 0,
        }
    }

    #[tactic(auto, using(crate::proofs::FrameLemmas::column_rows_at))]
    /// The column with this name, which is lent where it has all rows.
    pub fn column(&self, alloc: Global, name: &[u8]) -> Result<Held<'a>, NoMemory>
        requires { IsSome (kind_beside self.now name.now) }
        ensures value { IfOk result (λ c. contents_of c ≡ column_in self.now name.now) }
        ensures kind { IfOk result (λ c. kind_beside self.now name.now ≡ Some (contents_of c).kind) }
    {
        let column = column_named(name, self.names, self.columns);
        match self.places {
            None => Ok(Held::Lent(column)),
            Some(places) => Ok(Held::Made(column.gather(alloc, places)?)),
        }
    }
}
