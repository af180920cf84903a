//! The groups of columns.
ghost use Rattle.std.specs.Prelude.{◌≡◌, ◌++◌, map, take, IfOk, IfSome, OnOk};
ghost use Rattle.std.specs.List.{flat_map};
ghost use Rattle.q_values.specs.Column.{contents};
ghost use Rattle.q_values.specs.Order.{atom_cmp};
ghost use Rattle.q_values.specs.declared.atom.Atom.TheVariants as a;
ghost use Rattle.q_groups.specs.Groups.{AreGroups, same_atom};

use crate::groups::{Groups, grouped};
use crate::word::Word;
use q_values::{Column, Form, NoMemory, ShortSymbol, Symbols, Vector};
use std::alloc::Global;

// The groups of one piece.
fn grouped_whole<T: Word>(alloc: Global, items: &[T]) -> Result<Groups, NoMemory>
    ensures { IfOk result (λ groups. AreGroups T.eq T.cmp items.now groups) }
{
    let pieces = [items];
    let groups = grouped(alloc, &pieces, items.len())?;
    Ok(groups)
}

// The first `rows` short symbols of the parts, in pieces, or `None` where a part has long ones.
fn short_pieces<'a>(
    alloc: Global,
    parts: &[&'a Symbols],
    rows: usize,
) -> Result<Option<Vec<&'a [ShortSymbol]>>, NoMemory>
    ensures { IfOk result (λ found. IfSome found (λ pieces.
        flat_map (λ piece. piece.now) pieces.items ≡ take rows (flat_map (λ part. part.now) parts.now))) }
{
    let mut pieces = Vec::with_capacity(alloc, parts.len())?;
    let mut left = rows;
    for part in parts {
        let Form::Short(items) = part.form() else {
            return Ok(None);
        };
        let count = left.min(items.len());
        pieces.push(&items[..count])?;
        left -= count;
    }
    Ok(Some(pieces))
}

// Appends each symbol's bytes.
fn add_texts<'a>(texts: &mut Vec<&'a [u8]>, symbols: &'a Symbols) -> Result<(), NoMemory>
    ensures { OnOk result (map (λ t. t.now) texts.new.items ≡ map (λ t. t.now) texts.old.items ++ symbols.now) }
{
    for i in 0..symbols.len() {
        texts.push(symbols.at(i))?;
    }
    Ok(())
}

// Each symbol's bytes.
fn texts_of<'a>(alloc: Global, parts: &[&'a Symbols]) -> Result<Vec<&'a [u8]>, NoMemory>
    ensures { IfOk result (λ texts. map (λ t. t.now) texts.items ≡ flat_map (λ part. part.now) parts.now) }
{
    let mut texts = Vec::new(alloc);
    for part in parts {
        add_texts(&mut texts, part)?;
    }
    Ok(texts)
}

fn grouped_texts(alloc: Global, parts: &[&Symbols], rows: usize) -> Result<Groups, NoMemory>
    ensures { IfOk result (λ groups. AreGroups same_atom atom_cmp
        (map (λ t. a.Symbol t) (take rows (flat_map (λ part. part.now) parts.now))) groups) }
{
    let mut texts = texts_of(alloc, parts)?;
    texts.truncate(rows);
    let groups = grouped_whole(alloc, &texts)?;
    Ok(groups)
}

fn grouped_symbols(alloc: Global, parts: &[&Symbols], rows: usize) -> Result<Groups, NoMemory>
    ensures { IfOk result (λ groups. AreGroups same_atom atom_cmp
        (map (λ t. a.Symbol t) (take rows (flat_map (λ part. part.now) parts.now))) groups) }
{
    match short_pieces(alloc, parts, rows)? {
        Some(pieces) => {
            let groups = grouped(alloc, &pieces, rows)?;
            Ok(groups)
        }
        None => grouped_texts(alloc, parts, rows),
    }
}

fn grouped_column(alloc: Global, column: &Column) -> Result<Groups, NoMemory>
    ensures { IfOk result (λ groups. AreGroups same_atom atom_cmp (contents column.now).atoms groups) }
{
    match column {
        Column::Booleans(items) => Ok(grouped_whole(alloc, items)?),
        Column::Bytes(_, items) => Ok(grouped_whole(alloc, items)?),
        Column::Shorts(items) => Ok(grouped_whole(alloc, items)?),
        Column::Integers(_, items) => Ok(grouped_whole(alloc, items)?),
        Column::Longs(_, items) => Ok(grouped_whole(alloc, items)?),
        Column::Symbols(symbols) => Ok(grouped_symbols(alloc, &[symbols], symbols.len())?),
    }
}

impl Groups {
    /// The groups of the column's atoms.
    pub fn of(alloc: Global, column: &Vector) -> Result<Groups, NoMemory>
        ensures { IfOk result (λ groups. AreGroups same_atom atom_cmp column.now.atoms groups) }
    {
        let groups = grouped_column(alloc, column.column())?;
        Ok(groups)
    }

    /// The groups of the first `rows` symbols of these parts in order, which are not joined; of all where they are fewer.
    pub fn of_symbols(alloc: Global, parts: &[&Symbols], rows: usize) -> Result<Groups, NoMemory>
        ensures { IfOk result (λ groups. AreGroups same_atom atom_cmp
            (map (λ t. a.Symbol t) (take rows (flat_map (λ part. part.now) parts.now))) groups) }
    {
        let groups = grouped_symbols(alloc, parts, rows)?;
        Ok(groups)
    }
}
