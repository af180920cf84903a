//! The rows of a table that a query's phrases keep. Each phrase is evaluated over the rows that those before it keep, and of
//! these only the columns that it names are read.
ghost use Rattle.std.specs.Prelude.{◌≡◌, ◌<◌, ◌≤◌, false, Some, length, map, slice_get, option_copied, All, IfOk};
ghost use Rattle.q_filter.specs.Places.{places_from};
ghost use Rattle.q_values.specs.Lists.{gathered};
ghost use Rattle.q_values.specs.declared.kind.Kind.TheVariants as k;
ghost use Rattle.qsql_request.specs.Unbuilt.{is_unbuilt_phrase};
ghost use Rattle.qsql_request.specs.Views.{form, query_of};
ghost use Rattle.qsql_values.specs.Frames.{AreWithin, frame_of, kind_beside, part_at, rows_at};
ghost use Rattle.qsql_values.specs.Kinds.{kind_in};
ghost use Rattle.qsql_values.specs.Values.{kept, rows_where, truths, val};
ghost use Rattle.gateway.specs.DateRows.{AreDates, rows_on};
ghost use Rattle.gateway.specs.Kept.{IsPhraseOf, table_rows_on};

use crate::table::{Part, rows_of_part};
use crate::wanted::Wanted;
use day_rows::Shape;
use plant_memory::Snapshot;
use q_filter::places_where;
use q_values::NoMemory;
use qsql_eval::{Rows, Typed};
use qsql_request::Expr;
use qsql_values::{Operand, Scope, value_of};
use std::alloc::Global;

// The indices of the rows at which the phrase holds.
fn places_in_scope<'a>(
    alloc: Global,
    phrase: &'a Expr,
    scope: &Scope<'a>,
) -> Result<Vec<usize>, NoMemory>
    requires kind { kind_in (kind_beside scope.now) (form phrase.now) ≡ Some k.Boolean }
    requires built { is_unbuilt_phrase (form phrase.now) ≡ false }
    ensures places { IfOk result (λ v. v.items ≡ places_from 0 (truths (val scope.now (form phrase.now)))) }
    ensures within { IfOk result (λ v. All (λ i. i < length scope.now.rows) v.items) }
{
    match value_of(alloc, phrase, scope)? {
        Operand::Atom(_) => unreachable!(),
        Operand::Column(held) => places_where(alloc, held.vector()),
    }
}

// The indices of the rows at which the phrase holds.
fn places_in_rows(alloc: Global, phrase: &Expr, rows: &Rows) -> Result<Vec<usize>, NoMemory>
    requires kind { kind_in (kind_beside (frame_of rows.now.names rows.now.columns)) (form phrase.now) ≡ Some k.Boolean }
    requires built { is_unbuilt_phrase (form phrase.now) ≡ false }
    ensures places { IfOk result (λ v. v.items
        ≡ places_from 0 (truths (val (frame_of rows.now.names rows.now.columns) (form phrase.now)))) }
    ensures within { IfOk result (λ v. All (λ i. i < length (frame_of rows.now.names rows.now.columns).rows) v.items) }
{
    let names = rows.names.as_slice();
    let columns = rows.columns.as_slice();
    let scope = Scope::new(names, columns);
    let places = places_in_scope(alloc, phrase, &scope)?;
    Ok(places)
}

// The indices of the rows of a part at which the phrase holds. Only the columns that it names are read.
fn places_in_part(
    alloc: Global,
    phrase: &Expr,
    table: &Shape,
    snapshot: &Snapshot,
    part: &Part,
) -> Result<Vec<usize>, NoMemory>
    requires dates { AreDates snapshot.now.frame.first snapshot.now.entries part.now.dates.now }
    requires places { AreWithin (length (rows_on part.now.dates.now snapshot.now.frame.first snapshot.now.entries part.now.index))
        (option_copied part.now.places) }
    requires table { slice_get snapshot.now.frame.schema part.now.index ≡ Some table.now }
    requires named { length table.now.names ≡ length table.now.kinds }
    requires few { length table.now.names ≤ 48 }
    requires phrase { IsPhraseOf table.now (form phrase.now) }
    ensures places { IfOk result (λ v. v.items ≡ places_from 0 (truths (val (part_at (option_copied part.now.places)
        (table_rows_on part.now.dates.now snapshot.now.frame.first snapshot.now.entries part.now.index table.now)) (form phrase.now)))) }
    ensures within { IfOk result (λ v. All (λ i. i < length (part_at (option_copied part.now.places)
        (table_rows_on part.now.dates.now snapshot.now.frame.first snapshot.now.entries part.now.index table.now)).rows) v.items) }
{
    let wanted = Wanted::of_phrase(alloc, phrase, table)?;
    let rows = rows_of_part(alloc, table, snapshot, part, &wanted)?;
    let places = places_in_rows(alloc, phrase, &rows)?;
    Ok(places)
}

// The indices at these indices.
fn places_at(alloc: Global, places: &[usize], inner: &[usize]) -> Result<Vec<usize>, NoMemory>
    requires { All (λ i. i < length places.now) inner.now }
    ensures { IfOk result (λ v. v.items ≡ gathered places.now inner.now) }
{
    let mut found = Vec::with_capacity(alloc, inner.len())?;
    for index in inner {
        found.push_reserved(places[*index]);
    }
    Ok(found)
}

// Of the rows at these indices those at which the phrase holds.
fn next_places(
    alloc: Global,
    phrase: &Expr,
    table: &Shape,
    snapshot: &Snapshot,
    dates: &[usize],
    index: u32,
    places: &[usize],
) -> Result<Vec<usize>, NoMemory>
    requires dates { AreDates snapshot.now.frame.first snapshot.now.entries dates.now }
    requires places { All (λ p. p < length (rows_on dates.now snapshot.now.frame.first snapshot.now.entries index)) places.now }
    requires table { slice_get snapshot.now.frame.schema index ≡ Some table.now }
    requires named { length table.now.names ≡ length table.now.kinds }
    requires few { length table.now.names ≤ 48 }
    requires phrase { IsPhraseOf table.now (form phrase.now) }
    ensures within { IfOk result (λ v.
        All (λ p. p < length (rows_on dates.now snapshot.now.frame.first snapshot.now.entries index)) v.items) }
    ensures rows { IfOk result (λ v. rows_at v.items (table_rows_on dates.now snapshot.now.frame.first snapshot.now.entries index table.now)
        ≡ rows_where (form phrase.now)
        (rows_at places.now (table_rows_on dates.now snapshot.now.frame.first snapshot.now.entries index table.now))) }
{
    let part = Part {
        index,
        dates,
        places: Some(places),
    };
    let inner = places_in_part(alloc, phrase, table, snapshot, &part)?;
    let found = places_at(alloc, places, &inner)?;
    Ok(found)
}

// The indices of the rows on these dates at which the phrase holds.
fn first_places(
    alloc: Global,
    phrase: &Expr,
    table: &Shape,
    snapshot: &Snapshot,
    dates: &[usize],
    index: u32,
) -> Result<Vec<usize>, NoMemory>
    requires dates { AreDates snapshot.now.frame.first snapshot.now.entries dates.now }
    requires table { slice_get snapshot.now.frame.schema index ≡ Some table.now }
    requires named { length table.now.names ≡ length table.now.kinds }
    requires few { length table.now.names ≤ 48 }
    requires phrase { IsPhraseOf table.now (form phrase.now) }
    ensures within { IfOk result (λ v.
        All (λ p. p < length (rows_on dates.now snapshot.now.frame.first snapshot.now.entries index)) v.items) }
    ensures rows { IfOk result (λ v. rows_at v.items (table_rows_on dates.now snapshot.now.frame.first snapshot.now.entries index table.now)
        ≡ rows_where (form phrase.now) (table_rows_on dates.now snapshot.now.frame.first snapshot.now.entries index table.now)) }
{
    let part = Part {
        index,
        dates,
        places: None,
    };
    let places = places_in_part(alloc, phrase, table, snapshot, &part)?;
    Ok(places)
}

// The phrase with this index.
fn phrase_at<'a>(typed: &Typed<'a>, i: usize) -> &'a Expr
    requires { i < length typed.now.query.now.phrases }
    ensures is { slice_get typed.now.query.now.phrases i ≡ Some result.now }
    ensures phrase { IsPhraseOf typed.now.table.now (form result.now) }
{
    typed.query.phrases.at(i)
}

/// The indices of the rows that a query's phrases keep, of which there is at least one, among those on these dates.
pub fn kept_places(
    alloc: Global,
    typed: &Typed,
    snapshot: &Snapshot,
    dates: &[usize],
    index: u32,
) -> Result<Vec<usize>, NoMemory>
    requires some { 0 < length typed.now.query.now.phrases }
    requires dates { AreDates snapshot.now.frame.first snapshot.now.entries dates.now }
    requires table { slice_get snapshot.now.frame.schema index ≡ Some typed.now.table.now }
    requires named { length typed.now.table.now.names ≡ length typed.now.table.now.kinds }
    requires few { length typed.now.table.now.names ≤ 48 }
    ensures within { IfOk result (λ v.
        All (λ p. p < length (rows_on dates.now snapshot.now.frame.first snapshot.now.entries index)) v.items) }
    ensures rows { IfOk result (λ v.
        rows_at v.items (table_rows_on dates.now snapshot.now.frame.first snapshot.now.entries index typed.now.table.now)
        ≡ kept (query_of typed.now.query.now).phrases
        (table_rows_on dates.now snapshot.now.frame.first snapshot.now.entries index typed.now.table.now)) }
{
    let first = phrase_at(typed, 0);
    let mut places = first_places(alloc, first, typed.table, snapshot, dates, index)?;
    for i in 1..typed.query.phrases.len() {
        let phrase = phrase_at(typed, i);
        places = next_places(alloc, phrase, typed.table, snapshot, dates, index, &places)?;
    }
    Ok(places)
}
