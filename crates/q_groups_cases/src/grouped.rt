//! Calls of what the column and the codes are tested for first.
ghost use Rattle.std.specs.Prelude.{◌≡◌, ◌<◌, true, length, All, IsSome, IsTrue};
ghost use Rattle.q_verbs.specs.Aggregates.{is_aggregate};
ghost use Rattle.q_verbs.specs.Kinds.{result_kind1_of};

mod many;
mod rows;
mod same;

use q_grouped::{aggregate_by, aggregate_side_by};
use q_unary::aggregate;
use q_values::{Atom, Kind, Vector};
use q_verbs::{Side, Verb1, result_kind1};
use std::alloc::Global;
use std::process::Abort;

// Whether the verb makes one atom of a column of the kind.
fn is_taken(verb: Verb1, kind: Kind) -> bool
    ensures verb { result ≡ true → IsTrue (is_aggregate verb) }
    ensures row { result ≡ true → IsSome (result_kind1_of verb kind) }
{
    let aggregates = matches!(
        verb,
        Verb1::Count | Verb1::Sum | Verb1::Min | Verb1::Max | Verb1::First | Verb1::Last
    );
    aggregates && result_kind1(verb, kind).is_some()
}

fn are_below(codes: &[u32], groups: u32) -> bool
    ensures { result ≡ true → All (λ code. code < groups) codes.now }
{
    for code in codes {
        if *code >= groups {
            return false;
        }
    }
    true
}

/// What the verb gives for each group.
pub(crate) fn by_group(
    rt: &impl Abort,
    alloc: Global,
    verb: Verb1,
    column: &Vector,
    codes: &[u32],
    groups: u32,
) -> Vector {
    if column.len() == codes.len() && is_taken(verb, column.kind()) && are_below(codes, groups) {
        return aggregate_by(alloc, verb, column, codes, groups).expect(rt, "memory");
    }
    panic!(rt; "the verb doesn't take the column")
}

/// The same of an atom that stands for each row.
pub(crate) fn atom_by_group(
    rt: &impl Abort,
    alloc: Global,
    verb: Verb1,
    atom: &Atom,
    codes: &[u32],
    groups: u32,
) -> Vector {
    if is_taken(verb, atom.kind()) && are_below(codes, groups) {
        let side = Side::Atom(atom);
        return aggregate_side_by(alloc, verb, &side, codes, groups).expect(rt, "memory");
    }
    panic!(rt; "the verb doesn't take the atom")
}

/// What the verb gives for the column.
pub(crate) fn of_all(rt: &impl Abort, alloc: Global, verb: Verb1, column: &Vector) -> Atom {
    if is_taken(verb, column.kind()) {
        return aggregate(alloc, verb, column).expect(rt, "memory");
    }
    panic!(rt; "the verb doesn't take the column")
}
