//! Verbs with one side that make a column.
ghost use Rattle.std.specs.Prelude.{◌≡◌, ◌≢◌, neg_ℤ, option_map, IsTrue, IsSome, Some, map, pos, if◌then◌else◌, IfOk};
ghost use Rattle.std.specs.Int.{w16, w32, w64};
ghost use Rattle.q_values.specs.Column.{contents};
ghost use Rattle.q_values.specs.declared.kind.Kind.TheVariants as k;
ghost use Rattle.q_verbs.specs.declared.verb.Verb1.TheVariants as u;
ghost use Rattle.q_verbs.specs.Kinds.{negated_kind, result_kind1_of};
ghost use Rattle.q_verbs.specs.Numbers.{number_in, reduced, worth, written};
ghost use Rattle.q_verbs.specs.Lists.{is_zero, is_unary, unary_of};

use crate::distinct::distinct_items;
use q_lanes::{Number, Rule, booleans, map_items};
use q_values::{Column, IntegerKind, NoMemory, Vector};
use q_verbs::Verb1;
use std::alloc::{AllocError, Global};

// Whether a number is 0.
#[derive(Clone, Copy)]
struct IsZero;

impl<T: Number> Rule<T, bool> for IsZero {
    ghost use Rattle.q_verbs.specs.Lists.{is_zero};

    ghost value = { λ s x. is_zero (T.number x) };

    fn apply(&self, x: &T) -> bool {
        is_number_zero(&x.widened())
    }
}

fn is_number_zero(x: &i64) -> bool
    ensures { result ≡ is_zero (number_in w64 x.now) }
{
    *x == 0
}

fn zeros_among<T: Number>(alloc: Global, items: &[T]) -> Result<Vec<bool>, AllocError>
    ensures { IfOk result (λ v. v.items ≡ map (λ x. is_zero (T.number x)) items.now) }
{
    map_items::<IsZero, T, bool>(alloc, &IsZero, items)
}

fn zeros_of(alloc: Global, column: &Column) -> Result<Vec<bool>, NoMemory>
    requires { (contents column.now).kind ≢ k.Symbol }
    ensures { IfOk result (λ v. v.items ≡ map (λ x. is_zero (worth x).number) (contents column.now).atoms) }
{
    match column {
        Column::Booleans(items) => Ok(zeros_among(alloc, items.as_slice())?),
        Column::Bytes(_, items) => Ok(zeros_among(alloc, items.as_slice())?),
        Column::Shorts(items) => Ok(zeros_among(alloc, items.as_slice())?),
        Column::Integers(_, items) => Ok(zeros_among(alloc, items.as_slice())?),
        Column::Longs(_, items) => Ok(zeros_among(alloc, items.as_slice())?),
        Column::Symbols(_) => unreachable!(),
    }
}

fn negated_tests(alloc: Global, x: &Vector) -> Result<Vector, NoMemory>
    requires { x.now.kind ≢ k.Symbol }
    ensures { IfOk result (λ v. v ≡ record { kind = k.Boolean; atoms = unary_of u.Not k.Boolean x.now.atoms }) }
{
    let values = zeros_of(alloc, x.column())?;
    Ok(booleans(values))
}

// The number negated, which of the null is the null.
fn negated_bit(x: &bool) -> i32
    ensures { result ≡ reduced w32 (option_map neg_ℤ (Some (pos (if x.now then 1 else 0)))) }
{
    -i32::from(*x)
}

fn negated_16(x: &i16) -> i16
    ensures { result ≡ reduced w16 (option_map neg_ℤ (number_in w16 x.now)) }
{
    let number = *x;
    number.wrapping_neg()
}

fn negated_32(x: &i32) -> i32
    ensures { result ≡ reduced w32 (option_map neg_ℤ (number_in w32 x.now)) }
{
    let number = *x;
    number.wrapping_neg()
}

fn negated_64(x: &i64) -> i64
    ensures { result ≡ reduced w64 (option_map neg_ℤ (number_in w64 x.now)) }
{
    let number = *x;
    number.wrapping_neg()
}

// Minus a number.
#[derive(Clone, Copy)]
struct Minus;

impl Rule<bool, i32> for Minus {
    ghost use Rattle.std.specs.Prelude.{neg_ℤ, option_map, Some, pos, if◌then◌else◌};
    ghost use Rattle.std.specs.Int.{w32};
    ghost use Rattle.q_verbs.specs.Numbers.{reduced};

    ghost value = { λ s b. reduced w32 (option_map neg_ℤ (Some (pos (if b then 1 else 0)))) };

    fn apply(&self, x: &bool) -> i32 {
        negated_bit(x)
    }
}

impl Rule<i16, i16> for Minus {
    ghost use Rattle.std.specs.Prelude.{neg_ℤ, option_map};
    ghost use Rattle.std.specs.Int.{w16};
    ghost use Rattle.q_verbs.specs.Numbers.{number_in, reduced};

    ghost value = { λ s x. reduced w16 (option_map neg_ℤ (number_in w16 x)) };

    fn apply(&self, x: &i16) -> i16 {
        negated_16(x)
    }
}

impl Rule<i32, i32> for Minus {
    ghost use Rattle.std.specs.Prelude.{neg_ℤ, option_map};
    ghost use Rattle.std.specs.Int.{w32};
    ghost use Rattle.q_verbs.specs.Numbers.{number_in, reduced};

    ghost value = { λ s x. reduced w32 (option_map neg_ℤ (number_in w32 x)) };

    fn apply(&self, x: &i32) -> i32 {
        negated_32(x)
    }
}

impl Rule<i64, i64> for Minus {
    ghost use Rattle.std.specs.Prelude.{neg_ℤ, option_map};
    ghost use Rattle.std.specs.Int.{w64};
    ghost use Rattle.q_verbs.specs.Numbers.{number_in, reduced};

    ghost value = { λ s x. reduced w64 (option_map neg_ℤ (number_in w64 x)) };

    fn apply(&self, x: &i64) -> i64 {
        negated_64(x)
    }
}

// Each number negated, at the width of the column; of booleans ints.
fn negation_of(alloc: Global, column: &Column) -> Result<Column, NoMemory>
    requires row { IsSome (negated_kind (contents column.now).kind) }
    ensures kind { IfOk result (λ c. negated_kind (contents column.now).kind ≡ Some (contents c).kind) }
    ensures atoms { IfOk result (λ c. (contents c).atoms
        ≡ map (λ x. written (contents c).kind (option_map neg_ℤ (worth x).number)) (contents column.now).atoms) }
{
    match column {
        Column::Booleans(items) => {
            let values = map_items::<Minus, bool, i32>(alloc, &Minus, items.as_slice())?;
            Ok(Column::Integers(IntegerKind::Integer, values))
        }
        Column::Shorts(items) => {
            let values = map_items::<Minus, i16, i16>(alloc, &Minus, items.as_slice())?;
            Ok(Column::Shorts(values))
        }
        Column::Integers(kind, items) => {
            let values = map_items::<Minus, i32, i32>(alloc, &Minus, items.as_slice())?;
            Ok(Column::Integers(*kind, values))
        }
        Column::Longs(kind, items) => {
            let values = map_items::<Minus, i64, i64>(alloc, &Minus, items.as_slice())?;
            Ok(Column::Longs(*kind, values))
        }
        Column::Bytes(..) | Column::Symbols(_) => unreachable!(),
    }
}

fn negation(alloc: Global, x: &Vector) -> Result<Vector, NoMemory>
    requires row { IsSome (negated_kind x.now.kind) }
    ensures kind { IfOk result (λ v. negated_kind x.now.kind ≡ Some v.kind) }
    ensures atoms { IfOk result (λ v. v.atoms ≡ unary_of u.Neg v.kind x.now.atoms) }
{
    let column = negation_of(alloc, x.column())?;
    Ok(Vector::from_column(column))
}

/// The verb's result for a column, in the kind that [`q_verbs::result_kind1`] says (KX, Reference card). `not` is true where
/// an item is 0, which a null is not; `neg` of a null is the null; `distinct` keeps the first of equal items.
pub fn unary(alloc: Global, verb: Verb1, x: &Vector) -> Result<Vector, NoMemory>
    requires verb { IsTrue (is_unary verb) }
    requires row { IsSome (result_kind1_of verb x.now.kind) }
    ensures kind { IfOk result (λ v. result_kind1_of verb x.now.kind ≡ Some v.kind) }
    ensures atoms { IfOk result (λ v. v.atoms ≡ unary_of verb v.kind x.now.atoms) }
{
    match verb {
        Verb1::Not => negated_tests(alloc, x),
        Verb1::Neg => negation(alloc, x),
        Verb1::Distinct => distinct_items(alloc, x),
        _ => unreachable!(),
    }
}
