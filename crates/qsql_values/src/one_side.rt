//! Verbs with one side, over operands.
ghost use Rattle.std.specs.Prelude.{◌≡◌, IsTrue, IsSome, Some, IfOk};
ghost use Rattle.q_values.specs.Atom.{kind_of};
ghost use Rattle.q_values.specs.Tree.{atom};
ghost use Rattle.q_verbs.specs.Aggregates.{is_aggregate, aggregate_of};
ghost use Rattle.q_verbs.specs.Kinds.{result_kind1_of};
ghost use Rattle.q_verbs.specs.Lists.{is_unary};
ghost use Rattle.qsql_values.specs.Values.{items_in, formed_as, listed_of, value_of_one};
ghost use Rattle.qsql_values.specs.Operands.{operand_tree, kind_of_tree, is_by_item};

use crate::operand::{Held, Operand};
use q_unary::{aggregate, unary};
use q_values::{Atom, NoMemory, Vector};
use q_verbs::Verb1;
use std::alloc::Global;

// A verb that makes a list.
fn list_of(alloc: Global, verb: Verb1, side: &Operand) -> Result<Vector, NoMemory>
    requires verb { IsTrue (is_unary verb) }
    requires row { IsSome (result_kind1_of verb (kind_of_tree (operand_tree side.now))) }
    ensures value { IfOk result (λ v. v ≡ listed_of verb (items_in (operand_tree side.now))) }
    ensures kind { IfOk result (λ v. result_kind1_of verb (kind_of_tree (operand_tree side.now)) ≡ Some v.kind) }
{
    let items = side.items(alloc)?;
    let made = unary(alloc, verb, items.vector())?;
    Ok(made)
}

// `not` or `neg`.
fn by_item<'b>(alloc: Global, verb: Verb1, side: &Operand) -> Result<Operand<'b>, NoMemory>
    requires verb { IsTrue (is_by_item verb) }
    requires row { IsSome (result_kind1_of verb (kind_of_tree (operand_tree side.now))) }
    ensures value { IfOk result (λ v. operand_tree v ≡ formed_as (operand_tree side.now) (listed_of verb (items_in (operand_tree side.now)))) }
    ensures kind { IfOk result (λ v. result_kind1_of verb (kind_of_tree (operand_tree side.now)) ≡ Some (kind_of_tree (operand_tree v))) }
{
    let made = list_of(alloc, verb, side)?;
    side.formed(alloc, made)
}

// A verb that makes one atom of a vector.
#[tactic(auto, using(crate::proofs::OperandLemmas::aggregate_kind))]
fn atom_of(alloc: Global, verb: Verb1, x: &Vector) -> Result<Atom, NoMemory>
    requires verb { IsTrue (is_aggregate verb) }
    requires row { IsSome (result_kind1_of verb x.now.kind) }
    ensures value { IfOk result (λ v. v ≡ aggregate_of verb x.now.kind x.now.atoms) }
    ensures kind { IfOk result (λ v. result_kind1_of verb x.now.kind ≡ Some (kind_of v)) }
{
    let _kind = x.kind();
    let made = aggregate(alloc, verb, x)?;
    Ok(made)
}

// A verb that makes one atom.
fn one_of<'b>(alloc: Global, verb: Verb1, side: &Operand) -> Result<Operand<'b>, NoMemory>
    requires verb { IsTrue (is_aggregate verb) }
    requires row { IsSome (result_kind1_of verb (kind_of_tree (operand_tree side.now))) }
    ensures value { IfOk result (λ v. operand_tree v
        ≡ atom (aggregate_of verb (items_in (operand_tree side.now)).kind (items_in (operand_tree side.now)).atoms)) }
    ensures kind { IfOk result (λ v. result_kind1_of verb (kind_of_tree (operand_tree side.now)) ≡ Some (kind_of_tree (operand_tree v))) }
{
    let items = side.items(alloc)?;
    let made = atom_of(alloc, verb, items.vector())?;
    Ok(Operand::Atom(made))
}

/// The verb's result for a value.
pub fn apply_one<'b>(alloc: Global, verb: Verb1, side: &Operand) -> Result<Operand<'b>, NoMemory>
    requires { IsSome (result_kind1_of verb (kind_of_tree (operand_tree side.now))) }
    ensures value { IfOk result (λ v. operand_tree v ≡ value_of_one verb (operand_tree side.now)) }
    ensures kind { IfOk result (λ v. result_kind1_of verb (kind_of_tree (operand_tree side.now)) ≡ Some (kind_of_tree (operand_tree v))) }
{
    match verb {
        Verb1::Not => by_item(alloc, Verb1::Not, side),
        Verb1::Neg => by_item(alloc, Verb1::Neg, side),
        Verb1::Distinct => Ok(Operand::Column(Held::Made(list_of(alloc, Verb1::Distinct, side)?))),
        _ => one_of(alloc, verb, side),
    }
}
