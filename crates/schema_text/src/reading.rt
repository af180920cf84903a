//! Reads the tables of a schema text. Each function returns what it read, and the offset after it.
ghost use Rattle.std.specs.Prelude.{◌≡◌, ◌<◌, ◌≤◌, ◌+◌, ◌++◌, ◌∷◌, ◌&&◌, [], false, length, map, IfOk, IfErr, OnOk, OnErr, slice_get, drop};
ghost use Rattle.std.specs.List.{AllByRecursion, list_any};
ghost use Rattle.std.specs.Str.{bytes_eq};
ghost use Rattle.std.specs.Ordering.{is_gt, nat_cmp};
ghost use Rattle.std.specs.Cmp.Lexicographic.{slice_cmp};
ghost use Rattle.schema_text.specs.Positions.{below_count};
ghost use Rattle.day_rows.specs.Schema.{IsName, IsShape, IsSchema, by_name};
ghost use Rattle.day_rows.specs.Sorted.{inserted};
ghost use Rattle.schema_text.specs.Answers.{IsFaultOf, GivesOnly};
ghost use Rattle.schema_text.specs.BuiltIn.{built_in_tables};
ghost use Rattle.schema_text.specs.Grammar.{Spells};
ghost use Rattle.schema_text.specs.Growing.{IsGrowing};
ghost use Rattle.schema_text.specs.Kinds.{is_first_names, is_first_kinds};
ghost use Rattle.schema_text.specs.Reading.{Gives, head_at, table_at, tables_at, schema_of, past_semicolon, some_tables};

use crate::columns::read_columns;
use crate::names::{is_same, table_name};
use crate::refusal::SchemaRefusal;
use crate::tokens::{ends_before, expect_sign, first_part_of, has_sign, next_part};
use day_rows::{Kinds, Schema, Shape};
use q_values::{Kind, Names, NoMemory, Sym};
use std::alloc::Global;
use std::cmp::Ordering;

/// The text of the schema that a plant has unless another is given: `trade` and `quote`, with whole numbers for prices
/// and sizes.
pub const BUILT_IN: &[u8] =
    b"trade:([]time:`timespan$();sym:`g#`symbol$();price:`long$();size:`long$())\n\
quote:([]time:`timespan$();sym:`g#`symbol$();bid:`long$();ask:`long$();bsize:`long$();asize:`long$())\n";

// The name of a table and the signs before its first column, and the offset after them.
#[tactic(auto, unfolding(crate::specs::Reading::head_at))]
fn read_head(
    alloc: Global,
    tables: &[Shape],
    text: &[u8],
    at: usize,
) -> Result<(Sym, usize), SchemaRefusal>
    requires { at ≤ length text.now }
    ensures value { Gives (λ head. head) result (head_at (map (λ table. table.table) tables.now) text.now at) }
    ensures within { IfOk result (λ head. head.1 ≤ length text.now) }
    ensures lawful { IfOk result (λ head. IsName head.0) }
    ensures fresh { IfOk result (λ head. list_any (bytes_eq head.0) (map (λ table. table.table) tables.now) ≡ false) }
    ensures few { IfOk result (λ _. length tables.now < 64) }
{
    let (name, end) = table_name(alloc, tables, text, at)?;
    let colon = expect_sign(text, end, b':')?;
    let left = expect_sign(text, colon, b'(')?;
    let opening = expect_sign(text, left, b'[')?;
    let closing = expect_sign(text, opening, b']')?;
    Ok((name, closing))
}

fn has_first_names(names: &[Sym]) -> bool
    ensures { result ≡ is_first_names names.now }
{
    match names {
        [first, second, ..] => is_same(first.bytes(), b"time") && is_same(second.bytes(), b"sym"),
        _ => false,
    }
}

fn has_first_kinds(kinds: &[Kind]) -> bool
    ensures { result ≡ is_first_kinds kinds.now }
{
    match kinds {
        [Kind::Timespan, Kind::Symbol, ..] => true,
        _ => false,
    }
}

// The offset after a semicolon, where one comes next; else `at`.
fn skip_semicolon(text: &[u8], at: usize) -> usize
    requires { at ≤ length text.now }
    ensures value { result ≡ past_semicolon text.now at }
    ensures within { result ≤ length text.now }
{
    let start = next_part(text, at);
    if has_sign(text, start, b';') {
        start + 1
    } else {
        at
    }
}

fn begins_time_sym(shape: &Shape) -> bool
    ensures { result ≡ (is_first_names shape.now.names && is_first_kinds shape.now.kinds) }
{
    has_first_names(shape.names.as_slice()) && has_first_kinds(shape.kinds.as_slice())
}

// A table whose name differs from the earlier ones, and the offset after it.
#[tactic(auto, unfolding(crate::specs::Reading::table_at))]
fn read_table(
    alloc: Global,
    tables: &[Shape],
    text: &[u8],
    at: usize,
) -> Result<(Shape, usize), SchemaRefusal>
    requires { at ≤ length text.now }
    ensures value { Gives (λ table. table) result (table_at tables.now text.now at) }
    ensures within { IfOk result (λ table. table.1 ≤ length text.now) }
    ensures lawful { IfOk result (λ table. IsShape table.0) }
    ensures fresh { IfOk result (λ table. list_any (bytes_eq table.0.table) (map (λ other. other.table) tables.now) ≡ false) }
    ensures few { IfOk result (λ _. length tables.now < 64) }
{
    let (name, head) = read_head(alloc, tables, text, at)?;
    let empty = Shape {
        table: name,
        names: Names::new(alloc),
        kinds: Kinds::new(alloc),
    };
    let (shape, end) = read_columns(alloc, 49, empty, text, head)?;
    if begins_time_sym(&shape) {
        Ok((shape, skip_semicolon(text, end)))
    } else {
        Err(SchemaRefusal::TimeSym(shape.table))
    }
}

// Whether the name sorts after the table's.
fn is_above(name: &[u8], shape: &Shape) -> bool
    ensures { result ≡ is_gt (slice_cmp nat_cmp name.now shape.now.table) }
{
    match name.cmp(shape.table.bytes()) {
        Ordering::Greater => true,
        _ => false,
    }
}

// The number of tables at the front whose names sort before this one.
fn count_below(tables: &[Shape], name: &[u8]) -> usize
    ensures value { result ≡ below_count name.now tables.now }
    ensures within { result ≤ length tables.now }
{
    let mut count = 0;
    while count < tables.len() && is_above(name, &tables[count]) {
        count += 1;
    }
    count
}

// Inserts a table into tables that are sorted by name.
fn insert_table(tables: &mut Vec<Shape>, shape: Shape) -> Result<(), NoMemory>
    ensures ok { OnOk result (tables.new.items ≡ inserted by_name shape tables.old.items) }
{
    let index = count_below(tables, shape.table.bytes());
    tables.insert(index, shape)?;
    Ok(())
}

// The tables of a text that has ended; the error is `Parse` where there are none.
fn some_tables_of(tables: Vec<Shape>, text: &[u8]) -> Result<Vec<Shape>, SchemaRefusal>
    ensures value { Gives (λ found. found.items) result (some_tables tables.items text.now) }
    ensures same { IfOk result (λ found. found.items ≡ tables.items) }
{
    match tables.as_slice() {
        [] => Err(SchemaRefusal::Parse(text.len())),
        _ => Ok(tables),
    }
}

// The tables up to the end of the text, sorted by name. At the table after the last `left` the error is `Limit`.
fn read_tables(
    alloc: Global,
    left: usize,
    tables: Vec<Shape>,
    text: &[u8],
    at: usize,
) -> Result<Vec<Shape>, SchemaRefusal>
    requires offset { at ≤ length text.now }
    requires lawful { IsSchema tables.items }
    ensures value { Gives (λ found. found.items) result (tables_at left tables.items text.now at) }
    ensures lawful { IfOk result (λ found. IsSchema found.items) }
{
    if left == 0 {
        return Err(SchemaRefusal::Limit);
    }
    if ends_before(text, next_part(text, at)) {
        return some_tables_of(tables, text);
    }
    let mut tables = tables;
    let (table, end) = read_table(alloc, &tables, text, at)?;
    insert_table(&mut tables, table)?;
    read_tables(alloc, left - 1, tables, text, end)
}

// The schema of a text.
#[tactic(auto, unfolding(crate::specs::Reading::schema_of))]
fn read_text(alloc: Global, text: &[u8]) -> Result<Schema, SchemaRefusal>
    ensures { Gives (λ schema. schema) result (schema_of text.now) }
{
    let tables = read_tables(alloc, 65, Vec::new(alloc), text, first_part_of(text))?;
    Ok(Schema::from_vec(tables))
}

/// The schema that a text describes, its tables sorted by name (KX, tick.q, "schema").
///
/// A text has tables such as `trade:([]time:`timespan$();sym:`g#`symbol$();price:`long$())`, separated by blanks or
/// newlines. A line that begins with `/` is a remark. The error is the first in the text's order, from left to right.
pub fn read_schema(alloc: Global, text: &[u8]) -> Result<Schema, SchemaRefusal>
    ensures ok { IfOk result (λ schema. Spells text.now schema) }
    ensures refused { IfErr result (IsFaultOf text.now) }
    // Where the text is a schema, or has a fault, the answer is that one, unless memory ran out.
    ensures exact { GivesOnly text.now result }
{
    read_text(alloc, text)
}

/// The schema that a plant has unless another is given, the one that [`BUILT_IN`] spells. The only error is out of memory.
pub fn built_in_schema(alloc: Global) -> Result<Schema, NoMemory>
    ensures { IfOk result (λ schema. schema ≡ built_in_tables) }
{
    match read_schema(alloc, BUILT_IN) {
        Ok(schema) => Ok(schema),
        Err(why) => {
            // The built-in text is a schema, so it has no fault.
            prove!(matches!(&why, SchemaRefusal::NoMemory));
            Err(NoMemory)
        }
    }
}
