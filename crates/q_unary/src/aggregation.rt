//! Verbs that make one atom of a column.
ghost use Rattle.std.specs.Prelude.{◌≡◌, ◌≢◌, ◌<◌, IsTrue, IsSome, IfOk, is_ok, unwrap_or, map, length, pos, Some, slice_get};
ghost use Rattle.q_values.specs.declared.kind.Kind.TheVariants as k;
ghost use Rattle.q_verbs.specs.Kinds.{result_kind1_of, total_kind};
ghost use Rattle.q_verbs.specs.Numbers.{written};
ghost use Rattle.q_verbs.specs.Aggregates.{is_aggregate, aggregate_of, first_of, last_of, null_of, number_of, total};

use crate::extremes::{greatest_of, least_of};
use crate::totals::{total_atom, total_of};
use q_values::{Atom, Element, Kind, NoMemory, Vector};
use q_verbs::{Verb1, null_atom, result_kind1};
use std::alloc::Global;

// The number of items.
fn count(x: &Vector) -> Atom
    ensures { result ≡ written k.Long (Some (pos (length x.now.atoms))) }
{
    Atom::Long((x.len() as u64).cast_signed())
}

// The sum of the items but the nulls.
fn sum(x: &Vector) -> Atom
    requires { IsSome (total_kind x.now.kind) }
    ensures { result ≡ written (unwrap_or (total_kind x.now.kind) x.now.kind)
        (Some (total (map number_of x.now.atoms))) }
{
    match result_kind1(Verb1::Sum, x.kind()) {
        Some(kind) => total_atom(kind, &total_of(x.column())),
        None => unreachable!(),
    }
}

// The item at the index, which is no symbol.
fn number_at(x: &Vector, i: usize) -> Atom
    requires number { x.now.kind ≢ k.Symbol }
    requires within { i < length x.now.atoms }
    ensures { slice_get x.now.atoms i ≡ Some result }
{
    let _kind = x.kind();
    match x.element(i) {
        Element::Boolean(bit) => Atom::Boolean(bit),
        Element::Byte(kind, byte) => kind.atom(byte),
        Element::Short(number) => Atom::Short(*number),
        Element::Integer(kind, number) => kind.atom(number),
        Element::Long(kind, number) => kind.atom(number),
        Element::Symbol(_) => unreachable!(),
    }
}

// The item at the index. Only a symbol is allocated.
fn item_at(alloc: Global, x: &Vector, i: usize) -> Result<Atom, NoMemory>
    requires { i < length x.now.atoms }
    ensures value { IfOk result (λ atom. slice_get x.now.atoms i ≡ Some atom) }
    ensures ok { x.now.kind ≢ k.Symbol → IsTrue (is_ok result) }
{
    if x.kind() == Kind::Symbol {
        x.at(alloc, i)
    } else {
        Ok(number_at(x, i))
    }
}

// The first item, or the null.
fn first(alloc: Global, x: &Vector) -> Result<Atom, NoMemory>
    ensures value { IfOk result (λ atom. atom ≡ unwrap_or (first_of x.now.atoms) (null_of x.now.kind)) }
    ensures ok { x.now.kind ≢ k.Symbol → IsTrue (is_ok result) }
{
    if x.len() == 0 {
        null_atom(alloc, x.kind())
    } else {
        item_at(alloc, x, 0)
    }
}

// The last item, or the null.
fn last(alloc: Global, x: &Vector) -> Result<Atom, NoMemory>
    ensures value { IfOk result (λ atom. atom ≡ unwrap_or (last_of x.now.atoms) (null_of x.now.kind)) }
    ensures ok { x.now.kind ≢ k.Symbol → IsTrue (is_ok result) }
{
    if x.len() == 0 {
        null_atom(alloc, x.kind())
    } else {
        item_at(alloc, x, x.len() - 1)
    }
}

/// The verb's result for a column, an atom of the kind that [`crate::result_kind1`] says (KX, Reference card). `sum`,
/// `min` and `max` skip nulls, and a sum wraps at the width of its kind. Without items, a sum is 0, `min` the greatest
/// value of the kind, `max` that value negated (0 for a boolean or a byte), and `first` and `last` are the null. Only the
/// first or the last of symbols is allocated.
pub fn aggregate(alloc: Global, verb: Verb1, x: &Vector) -> Result<Atom, NoMemory>
    requires verb { IsTrue (is_aggregate verb) }
    requires row { IsSome (result_kind1_of verb x.now.kind) }
    ensures value { IfOk result (λ atom. atom ≡ aggregate_of verb x.now.kind x.now.atoms) }
    ensures ok { x.now.kind ≢ k.Symbol → IsTrue (is_ok result) }
{
    match verb {
        Verb1::Count => Ok(count(x)),
        Verb1::Sum => Ok(sum(x)),
        Verb1::Min => Ok(least_of(x.column())),
        Verb1::Max => Ok(greatest_of(x.column())),
        Verb1::First => first(alloc, x),
        Verb1::Last => last(alloc, x),
        _ => unreachable!(),
    }
}
