//! The columns of a table in a schema text. Each function returns what it read, and the offset after it.
ghost use Rattle.std.specs.Prelude.{◌≡◌, ◌≢◌, ◌<◌, ◌≤◌, ◌+◌, ◌++◌, ◌∷◌, [], length, IfOk, slice_get, nat_lt};
ghost use Rattle.q_values.specs.declared.kind.Kind.TheVariants as k;
ghost use Rattle.schema_text.specs.Growing.{IsGrowing};
ghost use Rattle.schema_text.specs.Kinds.{kind_named};
ghost use Rattle.schema_text.specs.Reading.{Gives, kind_at, kind_or, typed_at, column_at, columns_at, closed_at, past_attribute};

use crate::names::{column_name, kind_of_name};
use crate::refusal::SchemaRefusal;
use crate::tokens::{expect_sign, has_sign, next_part, read_word};
use day_rows::Shape;
use q_values::Kind;
use std::alloc::Global;

// A kind, and the offset after its name. The errors are `Parse` and `BadKind`.
#[tactic(auto, unfolding(crate::specs::Reading::kind_at))]
fn read_kind(text: &[u8], at: usize) -> Result<(Kind, usize), SchemaRefusal>
    requires { at ≤ length text.now }
    ensures value { Gives (λ kind. kind) result (kind_at text.now at) }
    ensures within { IfOk result (λ kind. kind.1 ≤ length text.now) }
    ensures lawful { IfOk result (λ kind. kind.0 ≢ k.Character) }
{
    let word = read_word(text, at)?;
    match kind_of_name(word.bytes) {
        Some(kind) => Ok((kind, word.end)),
        None => Err(SchemaRefusal::BadKind(word.start)),
    }
}

// The offset after the attribute `g#, where it comes next; else `at`.
fn skip_attribute(text: &[u8], at: usize) -> usize
    requires { at ≤ length text.now }
    ensures value { result ≡ past_attribute text.now at }
    ensures within { result ≤ length text.now }
{
    let start = next_part(text, at);
    if has_sign(text, start, b'`')
        && has_sign(text, start + 1, b'g')
        && has_sign(text, start + 2, b'#')
    {
        start + 3
    } else {
        at
    }
}

// The kind of an empty list, as `long$(), and the offset after it.
#[tactic(auto, unfolding(crate::specs::Reading::typed_at))]
fn read_typed(text: &[u8], at: usize) -> Result<(Kind, usize), SchemaRefusal>
    requires { at ≤ length text.now }
    ensures value { Gives (λ kind. kind) result (typed_at text.now at) }
    ensures within { IfOk result (λ kind. kind.1 ≤ length text.now) }
    ensures lawful { IfOk result (λ kind. kind.0 ≢ k.Character) }
{
    let tick = expect_sign(text, at, b'`')?;
    let (kind, end) = read_kind(text, tick)?;
    let dollar = expect_sign(text, end, b'$')?;
    let left = expect_sign(text, dollar, b'(')?;
    let right = expect_sign(text, left, b')')?;
    Ok((kind, right))
}

// The table with one more column, and the offset after the column.
#[tactic(auto, unfolding(crate::specs::Reading::column_at))]
fn read_column(
    alloc: Global,
    shape: Shape,
    text: &[u8],
    at: usize,
) -> Result<(Shape, usize), SchemaRefusal>
    requires offset { at ≤ length text.now }
    requires growing { IsGrowing shape }
    ensures value { Gives (λ column. column) result (column_at shape text.now at) }
    ensures within { IfOk result (λ column. column.1 ≤ length text.now) }
    ensures lawful { IfOk result (λ column. IsGrowing column.0) }
    ensures table { IfOk result (λ column. column.0.table ≡ shape.table) }
{
    let mut shape = shape;
    let (name, end) = column_name(alloc, shape.names.as_slice(), text, at)?;
    let colon = expect_sign(text, end, b':')?;
    let (kind, end) = read_typed(text, skip_attribute(text, colon))?;
    shape.names.push(name)?;
    shape.kinds.push(kind)?;
    Ok((shape, end))
}

// The table, where the closing parenthesis must be the next token, and the offset after it.
#[tactic(auto, unfolding(crate::specs::Reading::closed_at))]
fn read_closing(shape: Shape, text: &[u8], at: usize) -> Result<(Shape, usize), SchemaRefusal>
    requires offset { at ≤ length text.now }
    requires growing { IsGrowing shape }
    ensures value { Gives (λ column. column) result (closed_at shape text.now at) }
    ensures within { IfOk result (λ column. column.1 ≤ length text.now) }
    ensures lawful { IfOk result (λ column. IsGrowing column.0) }
    ensures table { IfOk result (λ column. column.0.table ≡ shape.table) }
{
    let end = expect_sign(text, at, b')')?;
    Ok((shape, end))
}

/// The table with the columns that follow, and the offset after the closing parenthesis. At the column after the last
/// `left` the error is `Limit`.
#[tactic(auto, unfolding(crate::specs::Reading::columns_at))]
pub fn read_columns(
    alloc: Global,
    left: usize,
    shape: Shape,
    text: &[u8],
    at: usize,
) -> Result<(Shape, usize), SchemaRefusal>
    requires offset { at ≤ length text.now }
    requires growing { IsGrowing shape }
    ensures value { Gives (λ column. column) result (columns_at left shape text.now at) }
    ensures within { IfOk result (λ column. column.1 ≤ length text.now) }
    ensures lawful { IfOk result (λ column. IsGrowing column.0) }
    ensures table { IfOk result (λ column. column.0.table ≡ shape.table) }
{
    if left == 0 {
        return Err(SchemaRefusal::Limit);
    }
    let (shape, end) = read_column(alloc, shape, text, at)?;
    let start = next_part(text, end);
    if has_sign(text, start, b';') {
        read_columns(alloc, left - 1, shape, text, start + 1)
    } else {
        read_closing(shape, text, end)
    }
}
