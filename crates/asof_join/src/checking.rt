//! Whether an as-of join fits a schema.
ghost use Rattle.std.specs.Prelude.{◌≡◌, ◌&&◌, option_copied, IfOk, IfErr, unwrap_or, None};
ghost use Rattle.std.specs.List.{list_any, list_all};
ghost use Rattle.std.specs.Option.{option_or};
ghost use Rattle.std.specs.Str.{bytes_eq};
ghost use Rattle.qsql_request.specs.Views.{aj_of};
ghost use Rattle.qsql_values.specs.Beside.{beside};
ghost use Rattle.qsql_eval.specs.Views.{is_kind};
ghost use Rattle.asof_join.specs.Asof.{is_added, added_names};
ghost use Rattle.asof_join.specs.Judged.{first_absent, judged_over, aj_judgement, joins};
ghost use Rattle.asof_join.specs.Views.{RefusesJoin};

use crate::refusal::AjRefusal;
use crate::shown::Shown;
use crate::side::{Side, no_name, side_of};
use crate::typed::AjTyped;
use day_rows::Schema;
use q_values::{Kind, Sym};
use qsql_request::AjQuery;
use std::alloc::Global;

// Whether the name is one of these.
fn is_among(names: &[Sym], name: &[u8]) -> bool
    ensures { result ≡ list_any (bytes_eq name.now) names.now }
{
    for other in names {
        if name == other.bytes() {
            return true;
        }
    }
    false
}

// The first of the keys that isn't among the names.
fn absent_among<'a>(names: &[Sym], keys: &'a [Sym]) -> Option<&'a Sym>
    ensures { option_copied result ≡ first_absent names.now keys.now }
{
    for key in keys {
        if !is_among(names, key.bytes()) {
            return Some(key);
        }
    }
    None
}

// The first key that the left side doesn't show, or else the first that the right one doesn't show.
fn absent_from<'a>(left: &[Sym], right: &[Sym], keys: &'a [Sym]) -> Option<&'a Sym>
    ensures { option_copied result ≡ option_or (first_absent left.now keys.now) (first_absent right.now keys.now) }
{
    match absent_among(left, keys) {
        Some(key) => Some(key),
        None => absent_among(right, keys),
    }
}

/// Whether the join adds a column of the right side with this name: it is no key, and isn't `date`.
pub(crate) fn is_added(keys: &[Sym], name: &[u8]) -> bool
    ensures { result ≡ is_added keys.now name.now }
{
    !is_among(keys, name) && name != b"date".as_slice()
}

// Whether the join adds a column that the left side shows.
fn any_added(keys: &[Sym], left: &[Sym], right: &[Sym]) -> bool
    ensures { result ≡ list_any (λ name. list_any (bytes_eq name) left.now) (added_names keys.now right.now) }
{
    for name in right {
        if is_added(keys, name.bytes()) && is_among(left, name.bytes()) {
            return true;
        }
    }
    false
}

// Whether two columns are there and have one kind.
fn is_one_kind(left: Option<Kind>, right: Option<Kind>) -> bool
    ensures { result ≡ is_kind left right }
{
    match (left, right) {
        (Some(kind), Some(other)) => kind == other,
        _ => false,
    }
}

// Whether each key has one kind on both sides.
fn have_one_kind(keys: &[Sym], left: &Shown, right: &Shown) -> bool
    ensures { result ≡ list_all (λ key. is_kind
        (unwrap_or (beside key left.now.names left.now.kinds.items) None)
        (unwrap_or (beside key right.now.names right.now.kinds.items) None)) keys.now }
{
    for key in keys {
        if !is_one_kind(left.kind(key.bytes()), right.kind(key.bytes())) {
            return false;
        }
    }
    true
}

// Whether all of this holds.
fn is_typed(some: bool, left: bool, right: bool, kinds: bool) -> bool
    ensures { result ≡ (some && (left && (right && kinds))) }
{
    some && left && right && kinds
}

// Judges a join of these sides by the columns that they show.
fn judge(alloc: Global, query: &AjQuery, left: &Side, right: &Side) -> Result<(), AjRefusal>
    requires left { left.now.source.now ≡ query.now.left }
    requires right { right.now.source.now ≡ query.now.right }
    ensures fits { IfOk result (λ _. judged_over (aj_of query.now) left.now.table.now right.now.table.now ≡ joins left.now.table.now right.now.table.now) }
    ensures refused { IfErr result (RefusesJoin (judged_over (aj_of query.now) left.now.table.now right.now.table.now)) }
{
    let keys = query.keys.as_slice();
    let of_left = left.shown(alloc)?;
    let of_right = right.shown(alloc)?;
    match absent_from(of_left.names.as_slice(), of_right.names.as_slice(), keys) {
        Some(key) => return Err(no_name(alloc, key)),
        None => {}
    }
    if any_added(keys, of_left.names.as_slice(), of_right.names.as_slice()) {
        return Err(AjRefusal::Nyi);
    }
    let kinds = have_one_kind(keys, &of_left, &of_right);
    if is_typed(!query.keys.is_empty(), left.typed, right.typed, kinds) {
        Ok(())
    } else {
        Err(AjRefusal::WrongType)
    }
}

/// Judges an as-of join by a schema. The first of these that holds refuses it: a name of the left side isn't there, or of the
/// right one; a key is no column of the left side's result, or of the right one's; a column that is no key is in both
/// results, `date` aside; a side is no `select` without `by`, or a verb of it doesn't take what it is given, or the kinds of a
/// key differ, or there is no key.
pub fn check_aj<'a>(
    alloc: Global,
    query: &'a AjQuery,
    schema: &'a Schema,
) -> Result<AjTyped<'a>, AjRefusal>
    ensures query { IfOk result (λ t. t.query.now ≡ query.now) }
    ensures fits { IfOk result (λ t. aj_judgement (aj_of query.now) schema.now ≡ joins t.left_table.now t.right_table.now) }
    ensures refused { IfErr result (RefusesJoin (aj_judgement (aj_of query.now) schema.now)) }
{
    let left = side_of(alloc, &query.left, schema)?;
    let right = side_of(alloc, &query.right, schema)?;
    judge(alloc, query, &left, &right)?;
    Ok(AjTyped::of(query, left, right))
}
