//! The aggregates of each group.
ghost use Rattle.std.specs.Prelude.{◌≡◌, ◌<◌, [], ◌∷◌, Some, length, replicate, All, IfOk, IsSome, IsTrue};
ghost use Rattle.q_values.specs.Atom.{kind_of};
ghost use Rattle.q_verbs.specs.Aggregates.{is_aggregate};
ghost use Rattle.q_verbs.specs.Kinds.{result_kind1_of};
ghost use Rattle.q_verbs.specs.Sides.{side_kind, spread};
ghost use Rattle.q_grouped.specs.Grouped.{aggregates};

use crate::extremes::{max_by, min_by};
use crate::rows::{first_by, last_by};
use crate::totals::{count_by, sum_by};
use q_values::{Atom, NoMemory, Vector};
use q_verbs::{Side, Verb1};
use std::alloc::Global;

/// For each of `groups` groups, from 0, the verb's result for the column's items whose code is the group's number, in the
/// order of the rows: a column of the kind that [`q_verbs::result_kind1`] says (KX, Reference card, "Aggregates"; "by" of
/// the select statement). It is [`q_verbs::aggregate`] of each group's items, which it doesn't gather; a group without
/// items has what that call gives for none. It goes over the rows once, and allocates only for the groups.
pub fn aggregate_by(
    alloc: Global,
    verb: Verb1,
    column: &Vector,
    codes: &[u32],
    groups: u32,
) -> Result<Vector, NoMemory>
    requires verb { IsTrue (is_aggregate verb) }
    requires row { IsSome (result_kind1_of verb column.now.kind) }
    requires len { length codes.now ≡ length column.now.atoms }
    requires codes { All (λ code. code < groups) codes.now }
    ensures kind { IfOk result (λ v. Some v.kind ≡ result_kind1_of verb column.now.kind) }
    ensures atoms { IfOk result (λ v. v.atoms ≡ aggregates verb column.now.kind groups codes.now column.now.atoms) }
{
    let typed = column.column();
    match verb {
        Verb1::Count => count_by(alloc, codes, groups),
        Verb1::Sum => Ok(Vector::from_column(sum_by(alloc, typed, codes, groups)?)),
        Verb1::Min => Ok(Vector::from_column(min_by(alloc, typed, codes, groups)?)),
        Verb1::Max => Ok(Vector::from_column(max_by(alloc, typed, codes, groups)?)),
        Verb1::First => Ok(Vector::from_column(first_by(alloc, typed, codes, groups)?)),
        Verb1::Last => Ok(Vector::from_column(last_by(alloc, typed, codes, groups)?)),
        _ => unreachable!(),
    }
}

// A column of one atom.
fn single(alloc: Global, atom: &Atom) -> Result<Vector, NoMemory>
    ensures { IfOk result (λ v. v ≡ record { kind = kind_of atom.now; atoms = atom.now ∷ [] }) }
{
    let mut column = Vector::new(alloc, atom.kind());
    if column.push(atom.copy(alloc)?).is_err() {
        return Err(NoMemory);
    }
    Ok(column)
}

// A column of `n` equal atoms.
fn repeated(alloc: Global, atom: &Atom, n: usize) -> Result<Vector, NoMemory>
    ensures { IfOk result (λ v. v ≡ record { kind = kind_of atom.now; atoms = replicate n atom.now }) }
{
    let one = single(alloc, atom)?;
    let places = vec![in alloc; 0usize; n]?;
    let many = one.gather(alloc, &places)?;
    Ok(many)
}

/// The same as [`aggregate_by`] for a column, or for an atom that stands for the item of each row, as in `sum 1`.
pub fn aggregate_side_by(
    alloc: Global,
    verb: Verb1,
    side: &Side,
    codes: &[u32],
    groups: u32,
) -> Result<Vector, NoMemory>
    requires verb { IsTrue (is_aggregate verb) }
    requires row { IsSome (result_kind1_of verb (side_kind side.now)) }
    requires len { length codes.now ≡ length (spread (length codes.now) side.now) }
    requires codes { All (λ code. code < groups) codes.now }
    ensures kind { IfOk result (λ v. Some v.kind ≡ result_kind1_of verb (side_kind side.now)) }
    ensures atoms { IfOk result (λ v. v.atoms
        ≡ aggregates verb (side_kind side.now) groups codes.now (spread (length codes.now) side.now)) }
{
    match side {
        Side::Column(column) => aggregate_by(alloc, verb, column, codes, groups),
        Side::Atom(atom) => {
            let column = repeated(alloc, atom, codes.len())?;
            let found = aggregate_by(alloc, verb, &column, codes, groups)?;
            Ok(found)
        }
    }
}
