//! Where phrases hold, as flags: one for each row.
ghost use Rattle.std.specs.Prelude.{◌≡◌, ◌<◌, ◌≤◌, false, true, Some, map, take, length, All, IfOk, OnOk};
ghost use Rattle.q_values.specs.Tree.{vector};
ghost use Rattle.q_values.specs.declared.kind.Kind.TheVariants as k;
ghost use Rattle.qsql_request.specs.Views.{form};
ghost use Rattle.qsql_request.specs.Unbuilt.{is_unbuilt_phrase};
ghost use Rattle.qsql_request.specs.declared.shapes.Shape.TheVariants as s;
ghost use Rattle.qsql_values.specs.ByRow;
ghost use Rattle.qsql_values.specs.ByRow.{both, frame_where};
ghost use Rattle.qsql_values.specs.Frames.{kind_beside};
ghost use Rattle.qsql_values.specs.Kinds.{kind_in};
ghost use Rattle.qsql_values.specs.Operands.{contents_of};
ghost use Rattle.qsql_values.specs.Values.{val, truths, rows_where, kept};

use crate::by_row::is_by_row;
use crate::operand::{Held, Operand};
use crate::scope::Scope;
use crate::values::value_of;
use q_values::{Column, NoMemory, Vector};
use qsql_request::Expr;
use std::alloc::Global;

// Where the phrase holds, for each row.
fn test_of<'a>(alloc: Global, phrase: &'a Expr, scope: &Scope<'a>) -> Result<Held<'a>, NoMemory>
    requires kind { kind_in (kind_beside scope.now) (form phrase.now) ≡ Some k.Boolean }
    requires built { is_unbuilt_phrase (form phrase.now) ≡ false }
    ensures value { IfOk result (λ h. vector (contents_of h) ≡ val scope.now (form phrase.now)) }
    ensures kind { IfOk result (λ h. (contents_of h).kind ≡ k.Boolean) }
    ensures size { IfOk result (λ h. length (contents_of h).atoms ≡ length scope.now.rows) }
{
    match value_of(alloc, phrase, scope)? {
        Operand::Atom(_) => unreachable!(),
        Operand::Column(held) => Ok(held),
    }
}

// The flags of a test.
#[tactic(auto, using(crate::proofs::KeepingLemmas::truths_of_booleans))]
fn flags_of(test: &Vector) -> &[bool]
    requires { test.now.kind ≡ k.Boolean }
    ensures { result.now ≡ truths (vector test.now) }
{
    match test.column() {
        Column::Booleans(flags) => flags,
        _ => unreachable!(),
    }
}

// The flags of a test, which are copied where they are lent.
fn into_flags(alloc: Global, test: Held) -> Result<Vec<bool>, NoMemory>
    requires { (contents_of test).kind ≡ k.Boolean }
    ensures { IfOk result (λ v. v.items ≡ truths (vector (contents_of test.entry))) }
{
    match test.into_vector(alloc)?.into_column() {
        Column::Booleans(flags) => Ok(flags),
        _ => unreachable!(),
    }
}

// Leaves the flags true only where the others are true too. A slice lets the compiler join many at once, where a vector's
// pointer would be read again for each.
fn keep_both(flags: &mut [bool], others: &[bool])
    requires { length others.now ≡ length flags.old }
    ensures { flags.new ≡ both flags.old others.now }
{
    for i in 0..others.len() {
        flags[i] = flags[i] & others[i];
    }
}

// Leaves the flags true only where the phrase holds too. Its item at a row comes of that row alone, so it is evaluated over
// all rows.
fn join_with<'a>(
    alloc: Global,
    flags: &mut [bool],
    phrase: &'a Expr,
    scope: &Scope<'a>,
) -> Result<(), NoMemory>
    requires size { length flags.old ≡ length scope.now.rows }
    requires by_row { ByRow.is_by_row (form phrase.now) ≡ true }
    requires kind { kind_in (kind_beside scope.now) (form phrase.now) ≡ Some k.Boolean }
    requires built { is_unbuilt_phrase (form phrase.now) ≡ false }
    ensures size { OnOk result (length flags.new ≡ length scope.now.rows) }
    ensures rows { OnOk result (frame_where flags.new scope.now ≡ rows_where (form phrase.now) (frame_where flags.old scope.now)) }
{
    let test = test_of(alloc, phrase, scope)?;
    keep_both(flags, flags_of(test.vector()));
    Ok(())
}

// Leaves the flags true only where the phrases up to the first that isn't by row hold too, and gives their number.
fn join_while_by_row<'a>(
    alloc: Global,
    flags: &mut [bool],
    phrases: &'a [Expr],
    scope: &Scope<'a>,
) -> Result<usize, NoMemory>
    requires size { length flags.old ≡ length scope.now.rows }
    requires kinds { All (λ p. kind_in (kind_beside scope.now) (form p) ≡ Some k.Boolean) phrases.now }
    requires built { All (λ p. is_unbuilt_phrase (form p) ≡ false) phrases.now }
    ensures within { IfOk result (λ n. n ≤ length phrases.now) }
    ensures size { OnOk result (length flags.new ≡ length scope.now.rows) }
    ensures rows { IfOk result (λ n. frame_where flags.new scope.now
        ≡ kept (take n (map form phrases.now)) (frame_where flags.old scope.now)) }
{
    let mut count = 0;
    while count < phrases.len() && is_by_row(&phrases[count]) {
        join_with(alloc, flags, &phrases[count], scope)?;
        count += 1;
    }
    Ok(count)
}

/// Where the first phrases hold, of which there is at least one, and how many phrases these are. Those that look at one row
/// at a time are joined into the flags of the first phrase; the test of one phrase is as it was found, and lent where its
/// column is.
pub fn joined_test<'a>(
    alloc: Global,
    phrases: &'a [Expr],
    scope: &Scope<'a>,
) -> Result<(Held<'a>, usize), NoMemory>
    requires some { 0 < length phrases.now }
    requires kinds { All (λ p. kind_in (kind_beside scope.now) (form p) ≡ Some k.Boolean) phrases.now }
    requires built { All (λ p. is_unbuilt_phrase (form p) ≡ false) phrases.now }
    ensures some { IfOk result (λ v. 0 < v.1) }
    ensures within { IfOk result (λ v. v.1 ≤ length phrases.now) }
    ensures kind { IfOk result (λ v. (contents_of v.0).kind ≡ k.Boolean) }
    ensures size { IfOk result (λ v. length (contents_of v.0).atoms ≡ length scope.now.rows) }
    ensures rows { IfOk result (λ v. frame_where (truths (vector (contents_of v.0))) scope.now
        ≡ kept (take v.1 (map form phrases.now)) scope.now) }
{
    let test = test_of(alloc, &phrases[0], scope)?;
    if phrases.len() == 1 || !is_by_row(&phrases[1]) {
        return Ok((test, 1));
    }
    let mut flags = into_flags(alloc, test)?;
    let more = join_while_by_row(alloc, &mut flags, &phrases[1..], scope)?;
    Ok((
        Held::Made(Vector::from_column(Column::Booleans(flags))),
        1 + more,
    ))
}
