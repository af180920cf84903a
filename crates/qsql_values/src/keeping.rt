//! The rows that phrases keep, and how many they are.
ghost use Rattle.std.specs.Prelude.{◌≡◌, ◌<◌, ◌≤◌, false, Some, map, take, length, All, IfOk};
ghost use Rattle.q_values.specs.Lists.{gathered};
ghost use Rattle.q_values.specs.Table.{rows_of};
ghost use Rattle.q_values.specs.declared.kind.Kind.TheVariants as k;
ghost use Rattle.qsql_request.specs.Views.{form};
ghost use Rattle.qsql_request.specs.Unbuilt.{is_unbuilt_phrase};
ghost use Rattle.q_filter.specs.Places.{places_of};
ghost use Rattle.qsql_values.specs.Frames.{AreColumns, frame_of, kind_beside, rows_at};
ghost use Rattle.qsql_values.specs.Kinds.{kind_in};
ghost use Rattle.qsql_values.specs.Operands.{contents_of};
ghost use Rattle.qsql_values.specs.Places.{column_at};
ghost use Rattle.qsql_values.specs.Values.{kept};

use crate::joining::joined_test;
use crate::operand::Held;
use crate::scope::Scope;
use q_filter::{count_where, places_where};
use q_values::{NoMemory, Sym, Vector};
use qsql_request::Expr;
use std::alloc::Global;

/// The items of each column at these indices.
pub fn columns_at(
    alloc: Global,
    columns: &[Vector],
    places: &[usize],
) -> Result<Vec<Vector>, NoMemory>
    requires { All (λ c. All (λ p. p < length c.atoms) places.now) columns.now }
    ensures { IfOk result (λ v. v.items ≡ map (column_at places.now) columns.now) }
{
    let mut gathered = Vec::with_capacity(alloc, columns.len())?;
    for column in columns {
        gathered.push(column.gather(alloc, places)?)?;
    }
    Ok(gathered)
}

// The indices at these indices.
fn places_at(alloc: Global, places: &[usize], inner: &[usize]) -> Result<Vec<usize>, NoMemory>
    requires { All (λ i. i < length places.now) inner.now }
    ensures { IfOk result (λ v. v.items ≡ gathered places.now inner.now) }
{
    let mut found = Vec::with_capacity(alloc, inner.len())?;
    for index in inner {
        found.push_reserved(places[*index]);
    }
    Ok(found)
}

// Where the first phrases hold, for each row, and how many phrases these are.
fn first_test<'a>(
    alloc: Global,
    phrases: &'a [Expr],
    names: &'a [Sym],
    columns: &'a [Vector],
) -> Result<(Held<'a>, usize), NoMemory>
    requires some { 0 < length phrases.now }
    requires columns { AreColumns names.now columns.now }
    requires kinds { All (λ p. kind_in (kind_beside (frame_of names.now columns.now)) (form p) ≡ Some k.Boolean) phrases.now }
    requires built { All (λ p. is_unbuilt_phrase (form p) ≡ false) phrases.now }
    ensures phrases { IfOk result (λ v. v.1 ≤ length phrases.now) }
    ensures kind { IfOk result (λ v. (contents_of v.0).kind ≡ k.Boolean) }
    ensures size { IfOk result (λ v. length (contents_of v.0).atoms ≡ rows_of columns.now) }
    ensures rows { IfOk result (λ v. rows_at (places_of (contents_of v.0).atoms) (frame_of names.now columns.now)
        ≡ kept (take v.1 (map form phrases.now)) (frame_of names.now columns.now)) }
{
    let scope = Scope::new(names, columns);
    let (test, count) = joined_test(alloc, phrases, &scope)?;
    Ok((test, count))
}

// Of the rows at these indices those that the first phrases keep, and how many phrases these are.
fn next_places(
    alloc: Global,
    phrases: &[Expr],
    names: &[Sym],
    columns: &[Vector],
    places: &[usize],
) -> Result<(Vec<usize>, usize), NoMemory>
    requires some { 0 < length phrases.now }
    requires columns { AreColumns names.now columns.now }
    requires places { All (λ p. p < rows_of columns.now) places.now }
    requires kinds { All (λ p. kind_in (kind_beside (frame_of names.now columns.now)) (form p) ≡ Some k.Boolean) phrases.now }
    requires built { All (λ p. is_unbuilt_phrase (form p) ≡ false) phrases.now }
    ensures some { IfOk result (λ v. 0 < v.1) }
    ensures phrases { IfOk result (λ v. v.1 ≤ length phrases.now) }
    ensures within { IfOk result (λ v. All (λ p. p < rows_of columns.now) v.0.items) }
    ensures rows { IfOk result (λ v. rows_at v.0.items (frame_of names.now columns.now)
        ≡ kept (take v.1 (map form phrases.now)) (rows_at places.now (frame_of names.now columns.now))) }
{
    let scope = Scope::at(names, columns, places);
    let (test, count) = joined_test(alloc, phrases, &scope)?;
    let inner = places_where(alloc, test.vector())?;
    Ok((places_at(alloc, places, &inner)?, count))
}

// Of the rows at these indices those that the phrases keep, from left to right; all of them where there are no phrases.
fn kept_among(
    alloc: Global,
    phrases: &[Expr],
    names: &[Sym],
    columns: &[Vector],
    places: Vec<usize>,
) -> Result<Vec<usize>, NoMemory>
    requires columns { AreColumns names.now columns.now }
    requires places { All (λ p. p < rows_of columns.now) places.items }
    requires kinds { All (λ p. kind_in (kind_beside (frame_of names.now columns.now)) (form p) ≡ Some k.Boolean) phrases.now }
    requires built { All (λ p. is_unbuilt_phrase (form p) ≡ false) phrases.now }
    ensures within { IfOk result (λ v. All (λ p. p < rows_of columns.now) v.items) }
    ensures rows { IfOk result (λ v. rows_at v.items (frame_of names.now columns.now)
        ≡ kept (map form phrases.now) (rows_at places.items (frame_of names.now columns.now))) }
{
    let mut left = places;
    let mut done = 0;
    while done < phrases.len() {
        let (more, count) = next_places(alloc, &phrases[done..], names, columns, &left)?;
        left = more;
        done += count;
    }
    Ok(left)
}

/// The indices of the rows that the phrases keep, of which there is at least one, from left to right. They ascend.
pub fn kept_places(
    alloc: Global,
    phrases: &[Expr],
    names: &[Sym],
    columns: &[Vector],
) -> Result<Vec<usize>, NoMemory>
    requires some { 0 < length phrases.now }
    requires columns { AreColumns names.now columns.now }
    requires kinds { All (λ p. kind_in (kind_beside (frame_of names.now columns.now)) (form p) ≡ Some k.Boolean) phrases.now }
    requires built { All (λ p. is_unbuilt_phrase (form p) ≡ false) phrases.now }
    ensures within { IfOk result (λ v. All (λ p. p < rows_of columns.now) v.items) }
    ensures rows { IfOk result (λ v. rows_at v.items (frame_of names.now columns.now) ≡ kept (map form phrases.now) (frame_of names.now columns.now)) }
{
    let (test, count) = first_test(alloc, phrases, names, columns)?;
    let places = places_where(alloc, test.vector())?;
    let kept = kept_among(alloc, &phrases[count..], names, columns, places)?;
    Ok(kept)
}

/// The number of rows that the phrases keep, of which there is at least one, from left to right. Where each of them looks
/// at one row at a time, no indices are made.
pub fn kept_count(
    alloc: Global,
    phrases: &[Expr],
    names: &[Sym],
    columns: &[Vector],
) -> Result<usize, NoMemory>
    requires some { 0 < length phrases.now }
    requires columns { AreColumns names.now columns.now }
    requires kinds { All (λ p. kind_in (kind_beside (frame_of names.now columns.now)) (form p) ≡ Some k.Boolean) phrases.now }
    requires built { All (λ p. is_unbuilt_phrase (form p) ≡ false) phrases.now }
    ensures { IfOk result (λ n. n ≡ length (kept (map form phrases.now) (frame_of names.now columns.now)).rows) }
{
    let (test, count) = first_test(alloc, phrases, names, columns)?;
    if count == phrases.len() {
        return Ok(count_where(test.vector()));
    }
    let places = places_where(alloc, test.vector())?;
    let kept = kept_among(alloc, &phrases[count..], names, columns, places)?;
    Ok(kept.len())
}

/// The columns of the rows that the phrases keep, of which there is at least one, from left to right.
pub fn kept_rows(
    alloc: Global,
    phrases: &[Expr],
    names: &[Sym],
    columns: &[Vector],
) -> Result<Vec<Vector>, NoMemory>
    requires some { 0 < length phrases.now }
    requires columns { AreColumns names.now columns.now }
    requires kinds { All (λ p. kind_in (kind_beside (frame_of names.now columns.now)) (form p) ≡ Some k.Boolean) phrases.now }
    requires built { All (λ p. is_unbuilt_phrase (form p) ≡ false) phrases.now }
    ensures columns { IfOk result (λ v. AreColumns names.now v.items) }
    ensures rows { IfOk result (λ v. frame_of names.now v.items ≡ kept (map form phrases.now) (frame_of names.now columns.now)) }
{
    let places = kept_places(alloc, phrases, names, columns)?;
    let kept = columns_at(alloc, columns, &places)?;
    Ok(kept)
}
