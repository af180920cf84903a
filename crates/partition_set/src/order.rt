//! Which record may come next.
ghost use Rattle.std.specs.Prelude.{◌≡◌, ◌↔◌, ◌∷◌, ◌++◌, [], true, IfSome, IfNone, Some, length};
ghost use Rattle.std.specs.declared.cmp.Ordering.TheVariants.{Less};
ghost use Rattle.day_rows.specs.Schema.{by_name};
ghost use Rattle.partition_set.specs.Records.{IsManifest, IsRecord, MayFollow, HasRoom};

use crate::record::ManifestRecord;
use day_rows::Shape;
use std::cmp::Ordering;

/// The most tables of a schema.
const MOST_TABLES: usize = 64;

fn is_below(one: &Shape, other: &Shape) -> bool
    ensures { (result ≡ true) ↔ (by_name one.now other.now ≡ Less) }
{
    one.table.bytes().cmp(other.table.bytes()) == Ordering::Less
}

fn may_follow(one: &ManifestRecord, other: &ManifestRecord) -> bool
    ensures { (result ≡ true) ↔ MayFollow one.now other.now }
{
    match (one, other) {
        (ManifestRecord::Shape(one), ManifestRecord::Shape(other)) => is_below(one, other),
        (ManifestRecord::Shape(_), ManifestRecord::Opened { .. }) => true,
        (ManifestRecord::Opened { .. }, ManifestRecord::Shape(_)) => false,
        (ManifestRecord::Opened { date: one, .. }, ManifestRecord::Opened { date: other, .. }) => {
            *one < *other
        }
    }
}

// Whether there is room for the record among the tables, if it is one.
fn has_room(records: &[ManifestRecord], next: &ManifestRecord) -> bool
    ensures { (result ≡ true) ↔ HasRoom records.now next.now }
{
    match next {
        ManifestRecord::Shape(_) => records.len() < MOST_TABLES,
        ManifestRecord::Opened { .. } => true,
    }
}

/// Whether the record may come after these.
pub fn may_come(records: &[ManifestRecord], next: &ManifestRecord) -> bool
    requires lawful { IsManifest records.now }
    requires allowed { IsRecord next.now }
    ensures { (result ≡ true) ↔ IsManifest (records.now ++ next.now ∷ []) }
{
    match records.split_last() {
        Some((last, _)) => has_room(records, next) && may_follow(last, next),
        None => true,
    }
}
