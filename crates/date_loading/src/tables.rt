//! The tables that a manifest keeps, compared with those of a schema.
ghost use Rattle.std.specs.Prelude.{◌≡◌, ◌↔◌, ◌<◌, None, true, length, take, slice_get, IfOk, IfErr, IfSome, IfNone, OnOk};
ghost use Rattle.std.specs.Option.{option_copied};
ghost use Rattle.std.specs.declared.cmp.Ordering.TheVariants.{Less};
ghost use Rattle.day_rows.specs.Schema.{by_name};
ghost use Rattle.partition_set.specs.Records.{IsManifest};
ghost use Rattle.date_loading.specs.Differences.{IsLowerName, table_named, sole};
ghost use Rattle.date_loading.specs.Manifests.{tables_of};
ghost use Rattle.date_loading.specs.Refusals.{TablesRefuse};

use crate::refusal::LoadRefusal;
use day_rows::{Kinds, Schema, Shape};
use partition_set::ManifestRecord;
use q_values::{Names, NoMemory, Sym};
use std::alloc::Global;
use std::cmp::Ordering;

fn are_same_names(some: &Names, other: &Names) -> bool
    ensures { (result ≡ true) ↔ (some.now ≡ other.now) }
{
    if some.len() != other.len() {
        return false;
    }
    for i in 0..some.len() {
        if some.at(i).bytes() != other.at(i).bytes() {
            return false;
        }
    }
    true
}

fn are_same_kinds(some: &Kinds, other: &Kinds) -> bool
    ensures { (result ≡ true) ↔ (some.now ≡ other.now) }
{
    if some.len() != other.len() {
        return false;
    }
    for i in 0..some.len() {
        if *some.at(i) != *other.at(i) {
            return false;
        }
    }
    true
}

fn is_same(one: &Shape, other: &Shape) -> bool
    ensures { (result ≡ true) ↔ (one.now ≡ other.now) }
{
    one.table.bytes() == other.table.bytes()
        && are_same_names(&one.names, &other.names)
        && are_same_kinds(&one.kinds, &other.kinds)
}

// The table of a manifest with this index.
fn table_at(records: &[ManifestRecord], i: usize) -> Option<&Shape>
    requires { IsManifest records.now }
    ensures { option_copied result ≡ slice_get (tables_of records.now) i }
{
    match records.get(i) {
        Some(ManifestRecord::Shape(shape)) => Some(shape),
        Some(ManifestRecord::Opened { .. }) => None,
        None => None,
    }
}

// Whether the manifest has the schema's table with this index.
fn has_table_at(records: &[ManifestRecord], schema: &Schema, i: usize) -> bool
    requires lawful { IsManifest records.now }
    requires within { i < length schema.now }
    ensures { (result ≡ true) ↔ (slice_get (tables_of records.now) i ≡ slice_get schema.now i) }
{
    match table_at(records, i) {
        Some(kept) => is_same(kept, schema.at(i)),
        None => false,
    }
}

// The number of first tables that are the same.
fn common_tables(records: &[ManifestRecord], schema: &Schema) -> usize
    requires { IsManifest records.now }
    ensures same { take result (tables_of records.now) ≡ take result schema.now }
    ensures next { slice_get (tables_of records.now) result ≡ slice_get schema.now result
        → slice_get schema.now result ≡ None }
{
    for i in 0..schema.len() {
        if !has_table_at(records, schema, i) {
            return i;
        }
    }
    schema.len()
}

fn is_below(one: &Shape, other: &Shape) -> bool
    ensures { (result ≡ true) ↔ (by_name one.now other.now ≡ Less) }
{
    one.table.bytes().cmp(other.table.bytes()) == Ordering::Less
}

// The lower name of two tables, or that of the only one.
fn lower_name<'a>(one: Option<&'a Shape>, other: Option<&'a Shape>) -> Option<&'a Sym>
    ensures some { IfSome result (λ name. IsLowerName (option_copied one.entry) (option_copied other.entry) name.now) }
    ensures none { IfNone result ((option_copied one.entry ≡ None) × (option_copied other.entry ≡ None)) }
{
    match (one, other) {
        (Some(one), Some(other)) => {
            if is_below(other, one) {
                Some(&other.table)
            } else {
                Some(&one.table)
            }
        }
        (Some(one), None) => Some(&one.table),
        (None, Some(other)) => Some(&other.table),
        (None, None) => None,
    }
}

// The table, where it has this name, and else one of this name without columns.
fn named(alloc: Global, shape: Option<&Shape>, name: &Sym) -> Result<Shape, NoMemory>
    ensures { IfOk result (λ x. x ≡ table_named name.now (sole (option_copied shape.entry))) }
{
    if let Some(shape) = shape {
        if shape.table.bytes() == name.bytes() {
            return Ok(shape.copied(alloc)?);
        }
    }
    Ok(Shape {
        table: Sym::copied(alloc, name.bytes())?,
        names: Names::new(alloc),
        kinds: Kinds::new(alloc),
    })
}

/// Judges the tables of a manifest: `SchemaDiffers` where they aren't the schema's.
pub fn judge_tables(
    alloc: Global,
    records: &[ManifestRecord],
    schema: &Schema,
) -> Result<(), LoadRefusal>
    requires { IsManifest records.now }
    ensures same { OnOk result (tables_of records.now ≡ schema.now) }
    ensures refused { IfErr result (TablesRefuse records.now schema.now) }
{
    let i = common_tables(records, schema);
    let (kept, given) = (table_at(records, i), schema.get(i));
    let Some(table) = lower_name(kept, given) else {
        return Ok(());
    };
    Err(LoadRefusal::SchemaDiffers {
        table: Sym::copied(alloc, table.bytes())?,
        kept: named(alloc, kept, table)?,
        given: named(alloc, given, table)?,
    })
}
