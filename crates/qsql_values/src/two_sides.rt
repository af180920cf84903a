//! Verbs with two sides, over operands.
ghost use Rattle.std.specs.Prelude.{◌≡◌, IsTrue, true, IsSome, Some, IfOk, length, map};
ghost use Rattle.std.specs.Simd.Lanes.{zip2};
ghost use Rattle.q_values.specs.Atom.{kind_of};
ghost use Rattle.q_values.specs.Tree.{atom, vector};
ghost use Rattle.q_values.specs.declared.atom.Atom.TheVariants as a;
ghost use Rattle.q_values.specs.declared.kind.Kind.TheVariants as k;
ghost use Rattle.q_verbs.specs.Kinds.{result_kind_of, comparison_kind, match_kind};
ghost use Rattle.q_verbs.specs.Like.{matches};
ghost use Rattle.q_verbs.specs.Numbers.{worth};
ghost use Rattle.q_verbs.specs.Places.{is_by_place, value_of};
ghost use Rattle.q_verbs.specs.Sides.{side_kind, rows, spread, AreBeside};
ghost use Rattle.q_verbs.specs.Tests.{is_among};
ghost use Rattle.q_verbs.specs.declared.verb.Verb.TheVariants as w;
ghost use Rattle.qsql_values.specs.Values.{items_in, kind_with, by_item_of, lies_between, byte_in, text_in, value_of_two};
ghost use Rattle.qsql_values.specs.Operands.{operand_tree, kind_of_tree, HaveEqualLengths, AreSides, has_ends};

use crate::operand::{Held, Operand};
use q_binary::binary;
use q_matching::{is_in, is_like, is_within};
use q_values::{Atom, ByteKind, Column, NoMemory, Vector};
use q_verbs::{Side, Verb};
use std::alloc::Global;

// The verb item by item, where an atom stands for each item beside it.
fn by_sides(
    alloc: Global,
    verb: Verb,
    left: &Side<'_>,
    right: &Side<'_>,
) -> Result<Vector, NoMemory>
    requires verb { IsTrue (is_by_place verb) }
    requires row { IsSome (result_kind_of verb (side_kind left.now) (side_kind right.now)) }
    requires beside { AreBeside left.now right.now }
    ensures value { IfOk result (λ v. v ≡ record {
      kind = kind_with verb (side_kind left.now) (side_kind right.now);
      atoms
          = zip2 (value_of verb (side_kind left.now) (side_kind right.now) (kind_with verb (side_kind left.now) (side_kind right.now)))
          (spread (rows left.now right.now) left.now) (spread (rows left.now right.now) right.now);
    }) }
    ensures kind { IfOk result (λ v. result_kind_of verb (side_kind left.now) (side_kind right.now) ≡ Some v.kind) }
{
    let made = binary(alloc, verb, left, right)?;
    Ok(made)
}

fn of_atoms<'b>(
    alloc: Global,
    verb: Verb,
    left: &Atom,
    right: &Atom,
) -> Result<Operand<'b>, NoMemory>
    requires verb { IsTrue (is_by_place verb) }
    requires row { IsSome (result_kind_of verb (kind_of left.now) (kind_of right.now)) }
    ensures value { IfOk result (λ v. operand_tree v
        ≡ by_item_of verb (kind_of left.now) (kind_of right.now) (atom left.now) (atom right.now)) }
    ensures kind { IfOk result (λ v. result_kind_of verb (kind_of left.now) (kind_of right.now) ≡ Some (kind_of_tree (operand_tree v))) }
{
    let made = by_sides(alloc, verb, &Side::Atom(left), &Side::Atom(right))?;
    let _kind = made.kind();
    Ok(Operand::Atom(made.at(alloc, 0)?))
}

fn of_atom_and_items<'b>(
    alloc: Global,
    verb: Verb,
    left: &Atom,
    right: &Vector,
) -> Result<Operand<'b>, NoMemory>
    requires verb { IsTrue (is_by_place verb) }
    requires row { IsSome (result_kind_of verb (kind_of left.now) right.now.kind) }
    ensures value { IfOk result (λ v. operand_tree v
        ≡ by_item_of verb (kind_of left.now) right.now.kind (atom left.now) (vector right.now)) }
    ensures kind { IfOk result (λ v. result_kind_of verb (kind_of left.now) right.now.kind ≡ Some (kind_of_tree (operand_tree v))) }
{
    let made = by_sides(alloc, verb, &Side::Atom(left), &Side::Column(right))?;
    Ok(Operand::Column(Held::Made(made)))
}

fn of_items_and_atom<'b>(
    alloc: Global,
    verb: Verb,
    left: &Vector,
    right: &Atom,
) -> Result<Operand<'b>, NoMemory>
    requires verb { IsTrue (is_by_place verb) }
    requires row { IsSome (result_kind_of verb left.now.kind (kind_of right.now)) }
    ensures value { IfOk result (λ v. operand_tree v
        ≡ by_item_of verb left.now.kind (kind_of right.now) (vector left.now) (atom right.now)) }
    ensures kind { IfOk result (λ v. result_kind_of verb left.now.kind (kind_of right.now) ≡ Some (kind_of_tree (operand_tree v))) }
{
    let made = by_sides(alloc, verb, &Side::Column(left), &Side::Atom(right))?;
    Ok(Operand::Column(Held::Made(made)))
}

fn of_items<'b>(
    alloc: Global,
    verb: Verb,
    left: &Vector,
    right: &Vector,
) -> Result<Operand<'b>, NoMemory>
    requires verb { IsTrue (is_by_place verb) }
    requires row { IsSome (result_kind_of verb left.now.kind right.now.kind) }
    requires length { length left.now.atoms ≡ length right.now.atoms }
    ensures value { IfOk result (λ v. operand_tree v
        ≡ by_item_of verb left.now.kind right.now.kind (vector left.now) (vector right.now)) }
    ensures kind { IfOk result (λ v. result_kind_of verb left.now.kind right.now.kind ≡ Some (kind_of_tree (operand_tree v))) }
{
    let made = by_sides(alloc, verb, &Side::Column(left), &Side::Column(right))?;
    Ok(Operand::Column(Held::Made(made)))
}

/// What a verb that works index by index gives of two values, where an atom goes with each item of the other side.
pub fn by_item<'b>(
    alloc: Global,
    verb: Verb,
    left: &Operand,
    right: &Operand,
) -> Result<Operand<'b>, NoMemory>
    requires verb { IsTrue (is_by_place verb) }
    requires row { IsSome (result_kind_of verb (kind_of_tree (operand_tree left.now)) (kind_of_tree (operand_tree right.now))) }
    requires even { HaveEqualLengths (operand_tree left.now) (operand_tree right.now) }
    ensures value { IfOk result (λ v. operand_tree v
        ≡ by_item_of verb (items_in (operand_tree left.now)).kind (items_in (operand_tree right.now)).kind (operand_tree left.now) (operand_tree right.now)) }
    ensures kind { IfOk result (λ v. result_kind_of verb (kind_of_tree (operand_tree left.now)) (kind_of_tree (operand_tree right.now))
        ≡ Some (kind_of_tree (operand_tree v))) }
{
    match (left, right) {
        (Operand::Atom(x), Operand::Atom(y)) => of_atoms(alloc, verb, x, y),
        (Operand::Atom(x), Operand::Column(items)) => {
            of_atom_and_items(alloc, verb, x, items.vector())
        }
        (Operand::Column(items), Operand::Atom(y)) => {
            of_items_and_atom(alloc, verb, items.vector(), y)
        }
        (Operand::Column(items), Operand::Column(others)) => {
            of_items(alloc, verb, items.vector(), others.vector())
        }
    }
}

// Whether the items of the left side are among those of the right one.
fn among_items(alloc: Global, left: &Operand, right: &Operand) -> Result<Vector, NoMemory>
    requires { IsSome (comparison_kind (kind_of_tree (operand_tree left.now)) (kind_of_tree (operand_tree right.now))) }
    ensures { IfOk result (λ v. v ≡ record {
      kind = k.Boolean;
      atoms = map (λ x. a.Boolean (is_among (items_in (operand_tree right.now)).atoms x)) (items_in (operand_tree left.now)).atoms;
    }) }
{
    let made = is_in(alloc, &left.side(), &right.side())?;
    Ok(made)
}

// `in`
fn among<'b>(alloc: Global, left: &Operand, right: &Operand) -> Result<Operand<'b>, NoMemory>
    requires row { IsSome (comparison_kind (kind_of_tree (operand_tree left.now)) (kind_of_tree (operand_tree right.now))) }
    ensures value { IfOk result (λ v. operand_tree v ≡ value_of_two w.In (operand_tree left.now) (operand_tree right.now)) }
    ensures kind { IfOk result (λ v. kind_of_tree (operand_tree v) ≡ k.Boolean) }
{
    let made = among_items(alloc, left, right)?;
    left.formed(alloc, made)
}

// Whether the items lie between the two ends.
fn between(alloc: Global, left: &Operand, ends: &Vector) -> Result<Vector, NoMemory>
    requires row { IsSome (comparison_kind (kind_of_tree (operand_tree left.now)) ends.now.kind) }
    requires ends { length ends.now.atoms ≡ 2 }
    ensures { IfOk result (λ v. v ≡ record {
      kind = k.Boolean;
      atoms = map (λ x. a.Boolean (lies_between (vector ends.now) x)) (items_in (operand_tree left.now)).atoms;
    }) }
{
    let _kind = ends.kind();
    let low = ends.at(alloc, 0)?;
    let high = ends.at(alloc, 1)?;
    let made = is_within(alloc, &left.side(), &low, &high)?;
    Ok(made)
}

// `within`
fn within<'b>(alloc: Global, left: &Operand, right: &Operand) -> Result<Operand<'b>, NoMemory>
    requires row { IsSome (comparison_kind (kind_of_tree (operand_tree left.now)) (kind_of_tree (operand_tree right.now))) }
    requires ends { has_ends (operand_tree right.now) ≡ true }
    ensures value { IfOk result (λ v. operand_tree v ≡ value_of_two w.Within (operand_tree left.now) (operand_tree right.now)) }
    ensures kind { IfOk result (λ v. kind_of_tree (operand_tree v) ≡ k.Boolean) }
{
    match right {
        Operand::Atom(_) => unreachable!(),
        Operand::Column(ends) => {
            let made = between(alloc, left, ends.vector())?;
            left.formed(alloc, made)
        }
    }
}

// The bytes of a pattern.
#[tactic(auto, using(crate::proofs::OperandLemmas::bytes_of_characters))]
fn text_of(pattern: &Vector) -> &[u8]
    requires { pattern.now.kind ≡ k.Character }
    ensures { result.now ≡ map byte_in pattern.now.atoms }
{
    match pattern.column() {
        Column::Bytes(ByteKind::Character, text) => text,
        _ => unreachable!(),
    }
}

// Whether the items match a pattern of characters.
fn matching(alloc: Global, left: &Operand, right: &Operand) -> Result<Vector, NoMemory>
    requires { IsSome (match_kind (kind_of_tree (operand_tree left.now)) (kind_of_tree (operand_tree right.now))) }
    ensures { IfOk result (λ v. v ≡ record {
      kind = k.Boolean;
      atoms = map (λ x. a.Boolean (matches (text_in (operand_tree right.now)) (worth x).text)) (items_in (operand_tree left.now)).atoms;
    }) }
{
    let pattern = right.items(alloc)?;
    let made = is_like(alloc, &left.side(), text_of(pattern.vector()))?;
    Ok(made)
}

// `like`
fn like<'b>(alloc: Global, left: &Operand, right: &Operand) -> Result<Operand<'b>, NoMemory>
    requires row { IsSome (match_kind (kind_of_tree (operand_tree left.now)) (kind_of_tree (operand_tree right.now))) }
    ensures value { IfOk result (λ v. operand_tree v ≡ value_of_two w.Like (operand_tree left.now) (operand_tree right.now)) }
    ensures kind { IfOk result (λ v. kind_of_tree (operand_tree v) ≡ k.Boolean) }
{
    let made = matching(alloc, left, right)?;
    left.formed(alloc, made)
}

/// The verb's result for two values.
pub fn apply_two<'b>(
    alloc: Global,
    verb: Verb,
    left: &Operand,
    right: &Operand,
) -> Result<Operand<'b>, NoMemory>
    requires row { IsSome (result_kind_of verb (kind_of_tree (operand_tree left.now)) (kind_of_tree (operand_tree right.now))) }
    requires sides { AreSides verb (operand_tree left.now) (operand_tree right.now) }
    ensures value { IfOk result (λ v. operand_tree v ≡ value_of_two verb (operand_tree left.now) (operand_tree right.now)) }
    ensures kind { IfOk result (λ v. result_kind_of verb (kind_of_tree (operand_tree left.now)) (kind_of_tree (operand_tree right.now))
        ≡ Some (kind_of_tree (operand_tree v))) }
{
    match verb {
        Verb::In => among(alloc, left, right),
        Verb::Within => within(alloc, left, right),
        Verb::Like => like(alloc, left, right),
        _ => by_item(alloc, verb, left, right),
    }
}
