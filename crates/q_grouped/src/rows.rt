//! The first and the last item of each group: the loop keeps rows, and each item is copied once after it.
ghost use Rattle.std.specs.Prelude.{◌≡◌, ◌<◌, [], length, map, All, IfOk};
ghost use Rattle.q_values.specs.Bytes.{HasNoNul};
ghost use Rattle.q_values.specs.Column.{contents, byte_kind, byte_atom};
ghost use Rattle.q_verbs.specs.Aggregates.{null_of};
ghost use Rattle.q_verbs.specs.declared.verb.Verb1.TheVariants as u;
ghost use Rattle.q_grouped.specs.Grouped.{aggregates};
ghost use Rattle.q_grouped.specs.Steps.{item_or};

use crate::fold::{Items, fold_by};
use crate::steps::{First, Last};
use q_values::{ByteKind, Column, NoMemory, Symbols};
use std::alloc::Global;

// Each row as its own item.
#[derive(Drop)]
struct Rows {
    count: usize,
}

impl Items<usize> for Rows {
    ghost use Rattle.std.specs.List.{range_with_len};

    ghost list = { λ rows. range_with_len 0 rows.count };

    fn count(&self) -> usize {
        self.count
    }

    fn item(&self, row: usize) -> usize {
        row
    }
}

// The item at the row, or else this one.
fn item_at<T: Copy>(other: T, items: &[T], row: Option<usize>) -> T
    ensures { result ≡ item_or other items.now row }
{
    match row {
        Some(row) => match items.get(row) {
            Some(item) => *item,
            None => other,
        },
        None => other,
    }
}

fn items_at<T: Copy>(
    alloc: Global,
    other: T,
    items: &[T],
    rows: &[Option<usize>],
) -> Result<Vec<T>, NoMemory>
    ensures { IfOk result (λ v. v.items ≡ map (item_or other items.now) rows.now) }
{
    let mut found = Vec::with_capacity(alloc, rows.len())?;
    for row in rows {
        found.push_reserved(item_at(other, items, *row));
    }
    Ok(found)
}

fn symbol_at<'a>(symbols: &'a Symbols, row: Option<usize>) -> &'a [u8]
    ensures value { result.now ≡ item_or [] symbols.now row }
    ensures no_nul { HasNoNul result.now }
{
    match row {
        Some(row) if row < symbols.len() => symbols.at(row),
        _ => &[],
    }
}

fn symbols_at(alloc: Global, symbols: &Symbols, rows: &[Option<usize>]) -> Result<Symbols, NoMemory>
    ensures { IfOk result (λ s. s ≡ map (item_or [] symbols.now) rows.now) }
{
    let mut found = Symbols::with_capacity(alloc, rows.len())?;
    for row in rows {
        found.push(symbol_at(symbols, *row))?;
    }
    Ok(found)
}

// The value that is used as the null of 8 bits: a blank for a character.
fn null_byte(kind: ByteKind) -> u8
    ensures { byte_atom kind result ≡ null_of (byte_kind kind) }
{
    match kind {
        ByteKind::Byte => 0,
        ByteKind::Character => b' ',
    }
}

/// The atoms of a column at these rows, and the null of its kind for no row.
pub fn column_at(alloc: Global, column: &Column, rows: &[Option<usize>]) -> Result<Column, NoMemory>
    ensures kind { IfOk result (λ c. (contents c).kind ≡ (contents column.now).kind) }
    ensures atoms { IfOk result (λ c. (contents c).atoms
        ≡ map (item_or (null_of (contents column.now).kind) (contents column.now).atoms) rows.now) }
{
    match column {
        Column::Booleans(items) => Ok(Column::Booleans(items_at(
            alloc,
            false,
            items.as_slice(),
            rows,
        )?)),
        Column::Bytes(kind, items) => Ok(Column::Bytes(
            *kind,
            items_at(alloc, null_byte(*kind), items.as_slice(), rows)?,
        )),
        Column::Shorts(items) => Ok(Column::Shorts(items_at(
            alloc,
            i16::MIN,
            items.as_slice(),
            rows,
        )?)),
        Column::Integers(kind, items) => Ok(Column::Integers(
            *kind,
            items_at(alloc, i32::MIN, items.as_slice(), rows)?,
        )),
        Column::Longs(kind, items) => Ok(Column::Longs(
            *kind,
            items_at(alloc, i64::MIN, items.as_slice(), rows)?,
        )),
        Column::Symbols(symbols) => Ok(Column::Symbols(symbols_at(alloc, symbols, rows)?)),
    }
}

/// For each group its first item, or the null.
pub(crate) fn first_by(
    alloc: Global,
    column: &Column,
    codes: &[u32],
    groups: u32,
) -> Result<Column, NoMemory>
    requires len { length codes.now ≡ length (contents column.now).atoms }
    requires codes { All (λ code. code < groups) codes.now }
    ensures kind { IfOk result (λ c. (contents c).kind ≡ (contents column.now).kind) }
    ensures atoms { IfOk result (λ c. (contents c).atoms
        ≡ aggregates u.First (contents column.now).kind groups codes.now (contents column.now).atoms) }
{
    let rows = Rows { count: codes.len() };
    let found = fold_by::<First, usize, Option<usize>, _>(alloc, None, &rows, codes, groups)?;
    column_at(alloc, column, found.as_slice())
}

/// For each group its last item, or the null.
pub(crate) fn last_by(
    alloc: Global,
    column: &Column,
    codes: &[u32],
    groups: u32,
) -> Result<Column, NoMemory>
    requires len { length codes.now ≡ length (contents column.now).atoms }
    requires codes { All (λ code. code < groups) codes.now }
    ensures kind { IfOk result (λ c. (contents c).kind ≡ (contents column.now).kind) }
    ensures atoms { IfOk result (λ c. (contents c).atoms
        ≡ aggregates u.Last (contents column.now).kind groups codes.now (contents column.now).atoms) }
{
    let rows = Rows { count: codes.len() };
    let found = fold_by::<Last, usize, Option<usize>, _>(alloc, None, &rows, codes, groups)?;
    column_at(alloc, column, found.as_slice())
}
