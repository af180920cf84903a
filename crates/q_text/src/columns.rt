//! The value of a run of words: its numbers, as an atom or a vector.
ghost use Rattle.std.specs.Prelude.{◌≡◌, ◌≤◌, ◌%◌, ◌==◌, length, map, IfOk, All, not, unsigned_abs, FitsSigned};
ghost use Rattle.std.specs.Int.{w16, w32};
ghost use Rattle.std.specs.Option.{option_map};
ghost use Rattle.q_values.specs.Tree.{tree};
ghost use Rattle.q_text.specs.Numbers as spec;
ghost use Rattle.q_text.specs.Literal.{run_tree};
ghost use Rattle.q_text.specs.Stored.{IsStored};

use crate::forms::Form;
use crate::kinds::NumberKind;
use crate::numbers::push_numbers;
use crate::runs::{Run, next_start};
use crate::words::{word_at, word_end};
use q_values::{ByteKind, Column, NoMemory, Value, Vector};
use std::alloc::{AllocError, Global};

fn booleans_of(alloc: Global, numbers: &[i64]) -> Result<Vec<bool>, AllocError>
    ensures { IfOk result (λ found. found.items ≡ map (λ z. not (unsigned_abs z == 0)) numbers.now) }
{
    numbers.iter().map(|x| x.unsigned_abs() != 0).collect(alloc)
}

fn bytes_of(alloc: Global, numbers: &[i64]) -> Result<Vec<u8>, AllocError>
    ensures { IfOk result (λ found. found.items ≡ map (λ z. unsigned_abs z % 256) numbers.now) }
{
    numbers
        .iter()
        .map(|x| (x.unsigned_abs() % 256) as u8)
        .collect(alloc)
}

fn shorts_of(alloc: Global, numbers: &[i64]) -> Result<Vec<i16>, AllocError>
    requires { All (FitsSigned w16) numbers.now }
    ensures { IfOk result (λ found. found.items ≡ numbers.now) }
{
    let mut found = Vec::with_capacity(alloc, numbers.len())?;
    for number in numbers {
        found.push(*number as i16)?;
    }
    Ok(found)
}

fn integers_of(alloc: Global, numbers: &[i64]) -> Result<Vec<i32>, AllocError>
    requires { All (FitsSigned w32) numbers.now }
    ensures { IfOk result (λ found. found.items ≡ numbers.now) }
{
    let mut found = Vec::with_capacity(alloc, numbers.len())?;
    for number in numbers {
        found.push(*number as i32)?;
    }
    Ok(found)
}

// The vector of this kind with these numbers.
fn vector_of(alloc: Global, kind: NumberKind, numbers: Vec<i64>) -> Result<Vector, NoMemory>
    requires { All (IsStored kind) numbers.items }
    ensures { IfOk result (λ found. found ≡ spec.vector_of kind numbers.items) }
{
    match kind {
        NumberKind::Boolean => {
            let found = booleans_of(alloc, &numbers)?;
            Ok(Vector::from_column(Column::Booleans(found)))
        }
        NumberKind::Byte => {
            let found = bytes_of(alloc, &numbers)?;
            Ok(Vector::from_column(Column::Bytes(ByteKind::Byte, found)))
        }
        NumberKind::Short => {
            let found = shorts_of(alloc, &numbers)?;
            Ok(Vector::from_column(Column::Shorts(found)))
        }
        NumberKind::Integers(kind) => {
            let found = integers_of(alloc, &numbers)?;
            Ok(Vector::from_column(Column::Integers(kind, found)))
        }
        NumberKind::Longs(kind) => Ok(Vector::from_column(Column::Longs(kind, numbers))),
    }
}

/// The value of a literal with these atoms: a single atom stands for itself, and anything else is the vector.
pub fn value_of(alloc: Global, vector: Vector) -> Result<Value, NoMemory>
    ensures { IfOk result (λ value. tree value ≡ spec.valued vector) }
{
    if vector.len() == 1 {
        let atom = vector.at(alloc, 0)?;
        return Ok(Value::Atom(atom));
    }
    Ok(Value::Vector(vector))
}

// The numbers of the run, whose first word is at `at`, or `None` where one is out of range for the kind.
fn numbers_of(
    alloc: Global,
    form: Form,
    run: &Run,
    text: &[u8],
    at: usize,
) -> Result<Option<Vec<i64>>, NoMemory>
    requires { at ≤ length text.now }
    ensures { IfOk result (λ found. spec.numbers_from run.now.count form run.now.kind text.now at
        ≡ option_map (λ numbers. numbers.items) found) }
{
    let mut numbers = Vec::with_capacity(alloc, run.count)?;
    let mut offset = at;
    let mut done = 0;
    while done < run.count {
        let word = word_at(text, offset);
        if !push_numbers(&mut numbers, form, run.kind, word)? {
            return Ok(None);
        }
        offset = next_start(text, word_end(text, offset));
        done += 1;
    }
    Ok(Some(numbers))
}

/// The value of the run of words of this form whose first word is at `at`, or `None` where a number is out of range for
/// the kind.
pub fn run_value(
    alloc: Global,
    form: Form,
    run: &Run,
    text: &[u8],
    at: usize,
) -> Result<Option<Value>, NoMemory>
    requires { at ≤ length text.now }
    ensures { IfOk result (λ found. option_map tree found
        ≡ run_tree run.now.kind (spec.numbers_from run.now.count form run.now.kind text.now at)) }
{
    match numbers_of(alloc, form, run, text, at)? {
        Some(numbers) => {
            let vector = vector_of(alloc, run.kind, numbers)?;
            let value = value_of(alloc, vector)?;
            Ok(Some(value))
        }
        None => Ok(None),
    }
}
