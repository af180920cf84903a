//! The value of an expression for all groups at once: verbs over rows as they are, an aggregate as one pass over them.
ghost use Rattle.std.specs.Prelude.{◌≡◌, ◌||◌, true, false, not, IsSome, IsTrue, Some, length, IfOk};
ghost use Rattle.q_values.specs.Tree.{vector};
ghost use Rattle.q_verbs.specs.Aggregates.{is_aggregate};
ghost use Rattle.q_verbs.specs.Kinds.{result_kind_of, result_kind1_of};
ghost use Rattle.q_verbs.specs.Places.{is_by_place};
ghost use Rattle.qsql_request.specs.Forms.{Form, one, two};
ghost use Rattle.qsql_request.specs.Shapes;
ghost use Rattle.qsql_request.specs.Shapes.{is_atom, shape_of_one, shape_of_two};
ghost use Rattle.qsql_request.specs.Views.{form};
ghost use Rattle.qsql_values.specs.ByRow.{is_by_row};
ghost use Rattle.qsql_values.specs.Frames.{Frame, kind_beside};
ghost use Rattle.qsql_values.specs.Kinds.{kind_in};
ghost use Rattle.qsql_values.specs.Operands.{operand_tree, kind_of_tree, is_by_item};
ghost use Rattle.qsql_values.specs.Ready.{IsReady};
ghost use Rattle.qsql_values.specs.Values.{value_of_one, value_of_two};
ghost use Rattle.qsql_groups.specs.OnePass.{is_one_pass, is_one_pass_verb, of_group, HasItems, IsOfOneKind, IsForGroups, IsByGroup};
ghost use Rattle.qsql_groups.specs.OnePass.{shape_by, lent_to, per_group};

use crate::grouping::indices;
use q_grouped::aggregate_by;
use q_keys::KeyGroups;
use q_values::{Kind, NoMemory, Vector};
use q_verbs::{Verb, Verb1};
use qsql_request::{Expr, is_test};
use qsql_values::{Held, Operand, Scope, apply_one, by_item, repeated, value_of};
use std::alloc::Global;
use std::mem::replace;

/// The value of an expression for all groups: an atom for each of them, or a column.
#[derive(Drop)]
pub(crate) struct ByGroup<'a> {
    /// Whether a column has an item for each row, and not for each group.
    pub by_row: bool,
    /// The atom or the column.
    pub value: Operand<'a>,
}

// The kind of the value's items, which is that of each of them.
fn kind_of(value: &Operand) -> Kind
    ensures value { result ≡ kind_of_tree (operand_tree value.now) }
    ensures kinds { IsOfOneKind (operand_tree value.now) }
{
    match value {
        Operand::Atom(atom) => atom.kind(),
        Operand::Column(held) => held.vector().kind(),
    }
}

fn is_column(value: &Operand) -> bool
    ensures { result ≡ not (is_atom (operand_tree value.now)) }
{
    matches!(value, Operand::Column(_))
}

// The aggregate of the rows of each group, in one pass over all rows.
fn aggregates<'b>(
    alloc: Global,
    verb: Verb1,
    side: &Vector,
    groups: &KeyGroups,
) -> Result<ByGroup<'b>, NoMemory>
    requires verb { IsTrue (is_aggregate verb) }
    requires row { IsSome (result_kind1_of verb side.now.kind) }
    requires size { length side.now.atoms ≡ length groups.now.codes }
    ensures values { IfOk result (λ v. IsForGroups groups.now
        (λ g. value_of_one verb (of_group true g groups.now.codes (vector side.now))) v.by_row (operand_tree v.value)) }
    ensures kind { IfOk result (λ v. result_kind1_of verb side.now.kind ≡ Some (kind_of_tree (operand_tree v.value))) }
    ensures by_group { IfOk result (λ v. v.by_row ≡ false) }
{
    let Ok(count) = u32::try_from(groups.len()) else {
        return Err(NoMemory);
    };
    let found = aggregate_by(alloc, verb, side, groups.codes(), count)?;
    Ok(ByGroup {
        by_row: false,
        value: Operand::Column(Held::Made(found)),
    })
}

// The aggregate of a value that has an item for each row.
fn aggregated<'b>(
    alloc: Global,
    verb: Verb1,
    side: &ByGroup,
    groups: &KeyGroups,
) -> Result<ByGroup<'b>, NoMemory>
    requires verb { IsTrue (is_aggregate verb) }
    requires row { IsSome (result_kind1_of verb (kind_of_tree (operand_tree side.now.value))) }
    requires rows { side.now.by_row ≡ true }
    requires items { HasItems (length groups.now.codes) (length groups.now.firsts) true (operand_tree side.now.value) }
    ensures values { IfOk result (λ v. IsForGroups groups.now
        (λ g. value_of_one verb (of_group side.now.by_row g groups.now.codes (operand_tree side.now.value))) v.by_row (operand_tree v.value)) }
    ensures kind { IfOk result (λ v. result_kind1_of verb (kind_of_tree (operand_tree side.now.value))
        ≡ Some (kind_of_tree (operand_tree v.value))) }
    ensures by_group { IfOk result (λ v. v.by_row ≡ false) }
{
    match &side.value {
        Operand::Atom(_) => unreachable!(),
        Operand::Column(held) => aggregates(alloc, verb, held.vector(), groups),
    }
}

// `not` or `neg` of a value for all groups.
fn each_item<'b>(
    alloc: Global,
    verb: Verb1,
    side: &ByGroup,
    groups: &KeyGroups,
) -> Result<ByGroup<'b>, NoMemory>
    requires verb { IsTrue (is_by_item verb) }
    requires row { IsSome (result_kind1_of verb (kind_of_tree (operand_tree side.now.value))) }
    requires items { HasItems (length groups.now.codes) (length groups.now.firsts) side.now.by_row (operand_tree side.now.value) }
    ensures values { IfOk result (λ v. IsForGroups groups.now
        (λ g. value_of_one verb (of_group side.now.by_row g groups.now.codes (operand_tree side.now.value))) v.by_row (operand_tree v.value)) }
    ensures kind { IfOk result (λ v. result_kind1_of verb (kind_of_tree (operand_tree side.now.value))
        ≡ Some (kind_of_tree (operand_tree v.value))) }
    ensures by_row { IfOk result (λ v. v.by_row ≡ side.now.by_row) }
{
    let _kind = kind_of(&side.value);
    let _count = groups.len();
    let value = apply_one(alloc, verb, &side.value)?;
    Ok(ByGroup {
        by_row: side.by_row,
        value,
    })
}

// A verb with one side.
fn one_side<'b>(
    alloc: Global,
    verb: Verb1,
    side: &ByGroup,
    groups: &KeyGroups,
) -> Result<ByGroup<'b>, NoMemory>
    requires verb { is_one_pass_verb verb side.now.by_row ≡ true }
    requires row { IsSome (result_kind1_of verb (kind_of_tree (operand_tree side.now.value))) }
    requires items { HasItems (length groups.now.codes) (length groups.now.firsts) side.now.by_row (operand_tree side.now.value) }
    ensures values { IfOk result (λ v. IsForGroups groups.now
        (λ g. value_of_one verb (of_group side.now.by_row g groups.now.codes (operand_tree side.now.value))) v.by_row (operand_tree v.value)) }
    ensures kind { IfOk result (λ v. result_kind1_of verb (kind_of_tree (operand_tree side.now.value))
        ≡ Some (kind_of_tree (operand_tree v.value))) }
    ensures shape { IfOk result (λ v. shape_of_one verb (shape_by side.now.by_row) ≡ shape_by v.by_row) }
{
    match verb {
        Verb1::Not => each_item(alloc, Verb1::Not, side, groups),
        Verb1::Neg => each_item(alloc, Verb1::Neg, side, groups),
        Verb1::Distinct => unreachable!(),
        _ => aggregated(alloc, verb, side, groups),
    }
}

// The column with an item for each row, of one with an item for each group, where that is wanted.
fn lent<'a>(
    alloc: Global,
    side: ByGroup<'a>,
    by_row: bool,
    groups: &KeyGroups,
) -> Result<Operand<'a>, NoMemory>
    requires items { HasItems (length groups.now.codes) (length groups.now.firsts) side.by_row (operand_tree side.value) }
    ensures { IfOk result (λ v. operand_tree v ≡ lent_to by_row side.entry.by_row groups.now.codes (operand_tree side.entry.value)) }
{
    let ByGroup {
        by_row: has_rows,
        value,
    } = side;
    match value {
        Operand::Column(held) if by_row && !has_rows => {
            let places = indices(alloc, groups.codes())?;
            let column = held.vector().gather(alloc, &places)?;
            Ok(Operand::Column(Held::Made(column)))
        }
        value => Ok(value),
    }
}

fn has_rows(left: &ByGroup, right: &ByGroup) -> bool
    ensures { result ≡ (left.now.by_row || right.now.by_row) }
{
    left.by_row || right.by_row
}

// A verb with two sides. Where one of them has an item for each row, the items of groups are lent to the rows of each group.
fn two_sides<'a>(
    alloc: Global,
    verb: Verb,
    left: ByGroup<'a>,
    right: ByGroup<'a>,
    groups: &KeyGroups,
) -> Result<ByGroup<'a>, NoMemory>
    requires verb { IsTrue (is_by_place verb) }
    requires row { IsSome (result_kind_of verb (kind_of_tree (operand_tree left.value)) (kind_of_tree (operand_tree right.value))) }
    requires left { HasItems (length groups.now.codes) (length groups.now.firsts) left.by_row (operand_tree left.value) }
    requires right { HasItems (length groups.now.codes) (length groups.now.firsts) right.by_row (operand_tree right.value) }
    ensures values { IfOk result (λ v. IsForGroups groups.now
        (λ g. value_of_two verb (of_group left.entry.by_row g groups.now.codes (operand_tree left.entry.value))
        (of_group right.entry.by_row g groups.now.codes (operand_tree right.entry.value))) v.by_row (operand_tree v.value)) }
    ensures kind { IfOk result (λ v. result_kind_of verb (kind_of_tree (operand_tree left.entry.value)) (kind_of_tree (operand_tree right.entry.value))
        ≡ Some (kind_of_tree (operand_tree v.value))) }
    ensures shape { IfOk result (λ v. shape_of_two false (shape_by left.entry.by_row) (shape_by right.entry.by_row) ≡ shape_by v.by_row) }
{
    let _left = kind_of(&left.value);
    let _right = kind_of(&right.value);
    let _codes = groups.codes();
    let by_row = has_rows(&left, &right);
    let first = lent(alloc, left, by_row, groups)?;
    let second = lent(alloc, right, by_row, groups)?;
    let value = by_item(alloc, verb, &first, &second)?;
    Ok(ByGroup { by_row, value })
}

// A verb with one side, in the place of the side's value. It is out of line, as are those below, so that a level of
// `by_group_into` takes little of the stack.
#[inline(never)]
fn of_one(alloc: Global, verb: Verb1, groups: &KeyGroups, out: &mut Result<ByGroup, NoMemory>)
    requires verb { IfOk out.old (λ s. is_one_pass_verb verb s.by_row ≡ true) }
    requires row { IfOk out.old (λ s. IsSome (result_kind1_of verb (kind_of_tree (operand_tree s.value)))) }
    requires items { IfOk out.old (λ s. HasItems (length groups.now.codes) (length groups.now.firsts) s.by_row (operand_tree s.value)) }
    ensures { (frame : Frame) → (e : Form) → IfOk out.old (λ s. IsByGroup frame groups.now e s.by_row (operand_tree s.value))
        → IfOk out.new (λ v. IsByGroup frame groups.now (one verb e) v.by_row (operand_tree v.value)) }
{
    if let Ok(side) = &*out {
        *out = one_side(alloc, verb, side, groups);
    }
}

// A verb with two sides, where the left one has a value, in the place of the right one's.
#[inline(never)]
fn of_two<'a>(
    alloc: Global,
    verb: Verb,
    left: Result<ByGroup<'a>, NoMemory>,
    groups: &KeyGroups,
    out: &mut Result<ByGroup<'a>, NoMemory>,
)
    requires verb { IsTrue (is_by_place verb) }
    requires row { IfOk left (λ l. IfOk out.old
        (λ r. IsSome (result_kind_of verb (kind_of_tree (operand_tree l.value)) (kind_of_tree (operand_tree r.value))))) }
    requires left { IfOk left (λ l. HasItems (length groups.now.codes) (length groups.now.firsts) l.by_row (operand_tree l.value)) }
    requires right { IfOk out.old (λ r. HasItems (length groups.now.codes) (length groups.now.firsts) r.by_row (operand_tree r.value)) }
    ensures { (frame : Frame) → (e f : Form) → Shapes.is_test verb ≡ false → IsSome (kind_in (kind_beside frame) (two verb e f))
        → IfOk left.entry (λ l. IsByGroup frame groups.now e l.by_row (operand_tree l.value))
        → IfOk out.old (λ r. IsByGroup frame groups.now f r.by_row (operand_tree r.value))
        → IfOk out.new (λ v. IsByGroup frame groups.now (two verb e f) v.by_row (operand_tree v.value)) }
{
    let right = replace(out, Err(NoMemory));
    if let Ok(first) = left {
        if let Ok(second) = right {
            *out = two_sides(alloc, verb, first, second, groups);
        }
    }
}

// The value of an expression whose item at a row comes of that row alone.
fn by_row<'a>(
    alloc: Global,
    expr: &'a Expr,
    scope: &Scope<'a>,
    groups: &KeyGroups,
) -> Result<ByGroup<'a>, NoMemory>
    requires by_row { is_by_row (form expr.now) ≡ true }
    requires ready { IsReady scope.now (form expr.now) }
    requires size { length groups.now.codes ≡ length scope.now.rows }
    ensures { IfOk result (λ v. IsByGroup scope.now groups.now (form expr.now) v.by_row (operand_tree v.value)) }
{
    let _count = groups.len();
    let value = value_of(alloc, expr, scope)?;
    let by_row = is_column(&value);
    Ok(ByGroup { by_row, value })
}

#[inline(never)]
fn by_row_into<'a>(
    alloc: Global,
    expr: &'a Expr,
    scope: &Scope<'a>,
    groups: &KeyGroups,
    out: &mut Result<ByGroup<'a>, NoMemory>,
)
    requires by_row { is_by_row (form expr.now) ≡ true }
    requires ready { IsReady scope.now (form expr.now) }
    requires size { length groups.now.codes ≡ length scope.now.rows }
    ensures { IfOk out.new (λ v. IsByGroup scope.now groups.now (form expr.now) v.by_row (operand_tree v.value)) }
{
    *out = by_row(alloc, expr, scope, groups);
}

// The value of a verb with two sides, for all groups.
#[cycle(by_group)]
#[inline(never)]
fn two_into<'a>(
    alloc: Global,
    verb: Verb,
    left: &'a Expr,
    right: &'a Expr,
    scope: &Scope<'a>,
    groups: &KeyGroups,
    out: &mut Result<ByGroup<'a>, NoMemory>,
)
    requires verb { Shapes.is_test verb ≡ false }
    requires one_pass { is_one_pass (two verb (form left.now) (form right.now)) ≡ true }
    requires ready { IsReady scope.now (two verb (form left.now) (form right.now)) }
    requires size { length groups.now.codes ≡ length scope.now.rows }
    ensures { IfOk out.new (λ v. IsByGroup scope.now groups.now (two verb (form left.now) (form right.now)) v.by_row (operand_tree v.value)) }
{
    by_group_into(alloc, right, scope, groups, out);
    of_two(
        alloc,
        verb,
        by_group(alloc, left, scope, groups),
        groups,
        out,
    );
}

// The value of an expression for all groups, written where the value of its right side was: a level takes none of the stack
// for a value.
#[cycle(by_group)]
#[inline(never)]
fn by_group_into<'a>(
    alloc: Global,
    expr: &'a Expr,
    scope: &Scope<'a>,
    groups: &KeyGroups,
    out: &mut Result<ByGroup<'a>, NoMemory>,
)
    requires one_pass { is_one_pass (form expr.now) ≡ true }
    requires ready { IsReady scope.now (form expr.now) }
    requires size { length groups.now.codes ≡ length scope.now.rows }
    ensures { IfOk out.new (λ v. IsByGroup scope.now groups.now (form expr.now) v.by_row (operand_tree v.value)) }
{
    match expr {
        Expr::Literal(_) => by_row_into(alloc, expr, scope, groups, out),
        Expr::Name(_) => by_row_into(alloc, expr, scope, groups, out),
        Expr::One(verb, side) => {
            by_group_into(alloc, side, scope, groups, out);
            of_one(alloc, *verb, groups, out);
        }
        Expr::Two(verb, left, right) => {
            if is_test(*verb) {
                by_row_into(alloc, expr, scope, groups, out);
            } else {
                two_into(alloc, *verb, left, right, scope, groups, out);
            }
        }
    }
}

/// The value of an expression over the rows of each group, for all groups. Columns are lent.
#[cycle(by_group)]
pub(crate) fn by_group<'a>(
    alloc: Global,
    expr: &'a Expr,
    scope: &Scope<'a>,
    groups: &KeyGroups,
) -> Result<ByGroup<'a>, NoMemory>
    requires one_pass { is_one_pass (form expr.now) ≡ true }
    requires ready { IsReady scope.now (form expr.now) }
    requires size { length groups.now.codes ≡ length scope.now.rows }
    ensures { IfOk result (λ v. IsByGroup scope.now groups.now (form expr.now) v.by_row (operand_tree v.value)) }
{
    let mut value = Err(NoMemory);
    by_group_into(alloc, expr, scope, groups, &mut value);
    value
}

/// The items of a value for all groups, one for each of this many groups.
pub(crate) fn into_items(alloc: Global, value: Operand, groups: usize) -> Result<Vector, NoMemory>
    ensures { IfOk result (λ v. v ≡ per_group groups (operand_tree value.entry)) }
{
    match value {
        Operand::Atom(atom) => repeated(alloc, &atom, groups),
        Operand::Column(held) => held.into_vector(alloc),
    }
}
