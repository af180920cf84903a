//! Counts and sums by group.
ghost use Rattle.std.specs.Prelude.{◌≡◌, ◌<◌, pos, Some, length, map, All, IfOk, IsSome};
ghost use Rattle.std.specs.Int.{w32, w64, int_wrap};
ghost use Rattle.q_values.specs.Column.{contents};
ghost use Rattle.q_values.specs.declared.kind.Kind.TheVariants as k;
ghost use Rattle.q_verbs.specs.Aggregates.{total};
ghost use Rattle.q_verbs.specs.Kinds.{total_kind};
ghost use Rattle.q_verbs.specs.Numbers.{written};
ghost use Rattle.q_verbs.specs.declared.verb.Verb1.TheVariants as u;
ghost use Rattle.q_grouped.specs.Grouped.{by_group, aggregates};

use crate::fold::{Slice, fold_by};
use crate::number::Number;
use crate::steps::{Count, Sum};
use q_values::{Column, IntegerKind, LongKind, NoMemory, Vector};
use std::alloc::Global;

/// For each group the number of its rows, a long (KX, count).
pub fn count_by(alloc: Global, codes: &[u32], groups: u32) -> Result<Vector, NoMemory>
    requires { All (λ code. code < groups) codes.now }
    ensures kind { IfOk result (λ v. v.kind ≡ k.Long) }
    ensures atoms { IfOk result (λ v. v.atoms
        ≡ by_group (λ rows. written k.Long (Some (pos (length rows)))) groups codes.now codes.now) }
{
    let counts = fold_by::<Count, u32, i64, _>(alloc, 0, &Slice { items: codes }, codes, groups)?;
    Ok(Vector::from_column(Column::Longs(LongKind::Long, counts)))
}

// For each group the sum of its items but the nulls, wrapped to 64 bits.
fn sums<T: Number>(
    alloc: Global,
    items: &[T],
    codes: &[u32],
    groups: u32,
) -> Result<Vec<i64>, NoMemory>
    requires len { length codes.now ≡ length items.now }
    requires codes { All (λ code. code < groups) codes.now }
    ensures { IfOk result (λ v. v.items
        ≡ by_group (λ xs. int_wrap w64 (total (map T.number xs))) groups codes.now items.now) }
{
    let sums = fold_by::<Sum, T, i64, _>(alloc, 0, &Slice { items }, codes, groups)?;
    Ok(sums)
}

// The low 32 bits, in two's complement.
fn low_32(x: &i64) -> i32
    ensures { result ≡ int_wrap w32 x.now }
{
    ((x.cast_unsigned() % 0x1_0000_0000) as u32).cast_signed()
}

fn narrowed(alloc: Global, sums: &[i64]) -> Result<Vec<i32>, NoMemory>
    ensures { IfOk result (λ v. v.items ≡ map (int_wrap w32) sums.now) }
{
    let mut narrow = Vec::with_capacity(alloc, sums.len())?;
    for sum in sums {
        narrow.push_reserved(low_32(sum));
    }
    Ok(narrow)
}

// For each group the sum of its items but the nulls, wrapped to 32 bits.
fn sums_in_32<T: Number>(
    alloc: Global,
    items: &[T],
    codes: &[u32],
    groups: u32,
) -> Result<Vec<i32>, NoMemory>
    requires len { length codes.now ≡ length items.now }
    requires codes { All (λ code. code < groups) codes.now }
    ensures { IfOk result (λ v. v.items
        ≡ by_group (λ xs. int_wrap w32 (total (map T.number xs))) groups codes.now items.now) }
{
    let wide = sums(alloc, items, codes, groups)?;
    let narrow = narrowed(alloc, wide.as_slice())?;
    Ok(narrow)
}

/// For each group the sum of its items but the nulls.
#[tactic(auto, using(crate::proofs::TotalLemmas::total_of_byte))]
pub(crate) fn sum_by(
    alloc: Global,
    column: &Column,
    codes: &[u32],
    groups: u32,
) -> Result<Column, NoMemory>
    requires kind { IsSome (total_kind (contents column.now).kind) }
    requires len { length codes.now ≡ length (contents column.now).atoms }
    requires codes { All (λ code. code < groups) codes.now }
    ensures kind { IfOk result (λ c. Some (contents c).kind ≡ total_kind (contents column.now).kind) }
    ensures atoms { IfOk result (λ c. (contents c).atoms
        ≡ aggregates u.Sum (contents column.now).kind groups codes.now (contents column.now).atoms) }
{
    match column {
        Column::Booleans(items) => Ok(Column::Integers(
            IntegerKind::Integer,
            sums_in_32(alloc, items.as_slice(), codes, groups)?,
        )),
        Column::Shorts(items) => Ok(Column::Integers(
            IntegerKind::Integer,
            sums_in_32(alloc, items.as_slice(), codes, groups)?,
        )),
        Column::Integers(_, items) => Ok(Column::Integers(
            IntegerKind::Integer,
            sums_in_32(alloc, items.as_slice(), codes, groups)?,
        )),
        Column::Longs(kind, items) => Ok(Column::Longs(
            *kind,
            sums(alloc, items.as_slice(), codes, groups)?,
        )),
        Column::Bytes(_, _) | Column::Symbols(_) => unreachable!(),
    }
}
