//! The columns of a table on some of the dates, read from a snapshot.
ghost use Rattle.std.specs.Prelude.{◌≡◌, ◌<◌, ◌++◌, pos, length, map, replicate, OnOk, IfOk};
ghost use Rattle.std.specs.List.{range_with_len};
ghost use Rattle.day_rows.specs.Rows.{column_of};
ghost use Rattle.plant_memory.specs.Chronicle.{dates_of, rows_at};
ghost use Rattle.plant_memory.specs.Memory.{HasColumn};
ghost use Rattle.gateway.specs.DateRows.{AreDates, rows_on};
ghost use Rattle.gateway.specs.TableRows.{dates_of_rows, numbers_on};

use plant_memory::Snapshot;
use q_values::{Column, IntegerKind, Kind, LongKind, NoMemory, Vector};
use std::alloc::Global;

// The number of a table's rows on these dates, for making room.
fn count_rows(snapshot: &Snapshot, dates: &[usize], index: u32) -> usize
    requires table { index < length snapshot.now.frame.schema }
    requires dates { AreDates snapshot.now.frame.first snapshot.now.entries dates.now }
{
    let mut count = 0usize;
    for k in dates {
        count = count.saturating_add(snapshot.rows_at(*k, index) as usize);
    }
    count
}

#[tactic(auto, using(crate::proofs::ColumnLemmas::dates_pushed))]
// Puts this date at the end, once for each row.
fn push_dates(dates: &mut Vec<i32>, date: i32, rows: u32) -> Result<(), NoMemory>
    ensures { OnOk result (dates.new.items ≡ dates.old.items ++ replicate rows date) }
{
    dates.reserve(rows as usize)?;
    for _row in 0..rows {
        dates.push_reserved(date);
    }
    Ok(())
}

#[tactic(auto, using(crate::proofs::ColumnLemmas::numbers_pushed))]
// Appends the numbers from 0 to that of the last row.
fn push_numbers(numbers: &mut Vec<i64>, rows: u32) -> Result<(), NoMemory>
    ensures { OnOk result (numbers.new.items ≡ numbers.old.items ++ map (λ i. pos i) (range_with_len 0 rows)) }
{
    numbers.reserve(rows as usize)?;
    for row in 0..rows {
        numbers.push_reserved(i64::from(row));
    }
    Ok(())
}

/// The column `date` of a table's rows on these dates.
pub fn date_column(
    alloc: Global,
    snapshot: &Snapshot,
    dates: &[usize],
    index: u32,
) -> Result<Vector, NoMemory>
    requires table { index < length snapshot.now.frame.schema }
    requires dates { AreDates snapshot.now.frame.first snapshot.now.entries dates.now }
    ensures { IfOk result (λ whole. whole ≡ dates_of_rows (rows_on dates.now snapshot.now.frame.first snapshot.now.entries index)) }
{
    let mut column = Vec::with_capacity(alloc, count_rows(snapshot, dates, index))?;
    for k in dates {
        push_dates(
            &mut column,
            snapshot.date_at(*k),
            snapshot.rows_at(*k, index),
        )?;
    }
    Ok(Vector::from_column(Column::Integers(IntegerKind::Date, column)))
}

/// The column `i` of a table's rows on these dates, which numbers the rows of each date from 0.
pub fn number_column(
    alloc: Global,
    snapshot: &Snapshot,
    dates: &[usize],
    index: u32,
) -> Result<Vector, NoMemory>
    requires table { index < length snapshot.now.frame.schema }
    requires dates { AreDates snapshot.now.frame.first snapshot.now.entries dates.now }
    ensures { IfOk result (λ whole. whole ≡ numbers_on dates.now snapshot.now.frame.first snapshot.now.entries index) }
{
    let mut numbers = Vec::with_capacity(alloc, count_rows(snapshot, dates, index))?;
    for k in dates {
        push_numbers(&mut numbers, snapshot.rows_at(*k, index))?;
    }
    Ok(Vector::from_column(Column::Longs(LongKind::Long, numbers)))
}

// A column of a table on one date.
fn column_at(
    alloc: Global,
    snapshot: &Snapshot,
    k: usize,
    index: u32,
    column: u32,
    kind: Kind,
) -> Result<Vector, NoMemory>
    requires date { k < length (dates_of snapshot.now.frame.first snapshot.now.entries) }
    requires table { index < length snapshot.now.frame.schema }
    requires exists { HasColumn snapshot.now.frame.schema index column kind }
    ensures { IfOk result (λ part. part ≡ column_of kind column (rows_at snapshot.now.frame.first snapshot.now.entries k index)) }
{
    let _kind = kind;
    let rows = snapshot.rows_at(k, index);
    let part = snapshot.column(alloc, k, index, column, 0, rows)?;
    Ok(part)
}

// Puts a vector at the end of another one of its kind.
fn append(whole: &mut Vector, part: &Vector) -> Result<(), NoMemory>
    requires { part.now.kind ≡ whole.old.kind }
    ensures { OnOk result (whole.new ≡ record whole.old { atoms = whole.old.atoms ++ part.now.atoms }) }
{
    match whole.append(part) {
        Ok(()) => Ok(()),
        Err(_) => Err(NoMemory),
    }
}

// A column of a table on these dates, one after the other.
fn joined_column(
    alloc: Global,
    snapshot: &Snapshot,
    dates: &[usize],
    index: u32,
    column: u32,
    kind: Kind,
) -> Result<Vector, NoMemory>
    requires dates { AreDates snapshot.now.frame.first snapshot.now.entries dates.now }
    requires table { index < length snapshot.now.frame.schema }
    requires exists { HasColumn snapshot.now.frame.schema index column kind }
    ensures { IfOk result (λ whole. whole ≡ column_of kind column (rows_on dates.now snapshot.now.frame.first snapshot.now.entries index)) }
{
    let mut whole = Vector::new(alloc, kind);
    whole.reserve(count_rows(snapshot, dates, index))?;
    for k in dates {
        let part = column_at(alloc, snapshot, *k, index, column, kind)?;
        append(&mut whole, &part)?;
    }
    Ok(whole)
}

/// A column of a table on these dates. That of one date is not copied.
pub fn whole_column(
    alloc: Global,
    snapshot: &Snapshot,
    dates: &[usize],
    index: u32,
    column: u32,
    kind: Kind,
) -> Result<Vector, NoMemory>
    requires dates { AreDates snapshot.now.frame.first snapshot.now.entries dates.now }
    requires table { index < length snapshot.now.frame.schema }
    requires exists { HasColumn snapshot.now.frame.schema index column kind }
    ensures { IfOk result (λ whole. whole ≡ column_of kind column (rows_on dates.now snapshot.now.frame.first snapshot.now.entries index)) }
{
    if dates.len() == 1 {
        column_at(alloc, snapshot, dates[0], index, column, kind)
    } else {
        joined_column(alloc, snapshot, dates, index, column, kind)
    }
}
