//! The least and the greatest item of each group.
ghost use Rattle.std.specs.Prelude.{◌≡◌, ◌<◌, length, fold, All, IfOk, IsTrue};
ghost use Rattle.q_values.specs.Column.{contents};
ghost use Rattle.q_verbs.specs.Kinds.{is_number};
ghost use Rattle.q_verbs.specs.declared.verb.Verb1.TheVariants as u;
ghost use Rattle.q_grouped.specs.Grouped.{aggregates, by_group};

use crate::fold::{Fold, Slice, fold_by};
use crate::steps::{Greatest, Least};
use q_values::{Column, NoMemory};
use std::alloc::Global;

/// For each group the state after its items in order, from `start`. States and items are of one type.
fn folded<F: Fold<T, T>, T: Copy>(
    alloc: Global,
    start: T,
    items: &[T],
    codes: &[u32],
    groups: u32,
) -> Result<Vec<T>, NoMemory>
    requires len { length codes.now ≡ length items.now }
    requires codes { All (λ code. code < groups) codes.now }
    ensures value { IfOk result (λ v. v.items ≡ by_group (fold F.next start) groups codes.now items.now) }
    ensures fits { IfOk result (λ _. All (λ x. IsTrue (F.fits x)) items.now) }
{
    fold_by::<F, T, T, _>(alloc, start, &Slice { items }, codes, groups)
}

/// For each group the least of its items but the nulls; without one the greatest value of the kind, from which the loop
/// starts.
pub(crate) fn min_by(
    alloc: Global,
    column: &Column,
    codes: &[u32],
    groups: u32,
) -> Result<Column, NoMemory>
    requires kind { IsTrue (is_number (contents column.now).kind) }
    requires len { length codes.now ≡ length (contents column.now).atoms }
    requires codes { All (λ code. code < groups) codes.now }
    ensures kind { IfOk result (λ c. (contents c).kind ≡ (contents column.now).kind) }
    ensures atoms { IfOk result (λ c. (contents c).atoms
        ≡ aggregates u.Min (contents column.now).kind groups codes.now (contents column.now).atoms) }
{
    match column {
        Column::Booleans(items) => {
            let least = folded::<Least, bool>(alloc, true, items.as_slice(), codes, groups)?;
            Ok(Column::Booleans(least))
        }
        Column::Bytes(kind, items) => {
            let least = folded::<Least, u8>(alloc, u8::MAX, items.as_slice(), codes, groups)?;
            Ok(Column::Bytes(*kind, least))
        }
        Column::Shorts(items) => {
            let least = folded::<Least, i16>(alloc, i16::MAX, items.as_slice(), codes, groups)?;
            Ok(Column::Shorts(least))
        }
        Column::Integers(kind, items) => {
            let least = folded::<Least, i32>(alloc, i32::MAX, items.as_slice(), codes, groups)?;
            Ok(Column::Integers(*kind, least))
        }
        Column::Longs(kind, items) => {
            let least = folded::<Least, i64>(alloc, i64::MAX, items.as_slice(), codes, groups)?;
            Ok(Column::Longs(*kind, least))
        }
        Column::Symbols(_) => unreachable!(),
    }
}

/// For each group the greatest of its items but the nulls; without one the greatest value of the kind negated, or 0 of 8
/// bits, from which the loop starts.
pub(crate) fn max_by(
    alloc: Global,
    column: &Column,
    codes: &[u32],
    groups: u32,
) -> Result<Column, NoMemory>
    requires kind { IsTrue (is_number (contents column.now).kind) }
    requires len { length codes.now ≡ length (contents column.now).atoms }
    requires codes { All (λ code. code < groups) codes.now }
    ensures kind { IfOk result (λ c. (contents c).kind ≡ (contents column.now).kind) }
    ensures atoms { IfOk result (λ c. (contents c).atoms
        ≡ aggregates u.Max (contents column.now).kind groups codes.now (contents column.now).atoms) }
{
    match column {
        Column::Booleans(items) => {
            let most = folded::<Greatest, bool>(alloc, false, items.as_slice(), codes, groups)?;
            Ok(Column::Booleans(most))
        }
        Column::Bytes(kind, items) => {
            let most = folded::<Greatest, u8>(alloc, 0, items.as_slice(), codes, groups)?;
            Ok(Column::Bytes(*kind, most))
        }
        Column::Shorts(items) => {
            let most = folded::<Greatest, i16>(alloc, -i16::MAX, items.as_slice(), codes, groups)?;
            Ok(Column::Shorts(most))
        }
        Column::Integers(kind, items) => {
            let most = folded::<Greatest, i32>(alloc, -i32::MAX, items.as_slice(), codes, groups)?;
            Ok(Column::Integers(*kind, most))
        }
        Column::Longs(kind, items) => {
            let most = folded::<Greatest, i64>(alloc, -i64::MAX, items.as_slice(), codes, groups)?;
            Ok(Column::Longs(*kind, most))
        }
        Column::Symbols(_) => unreachable!(),
    }
}
