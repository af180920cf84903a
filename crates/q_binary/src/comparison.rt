//! Verbs that compare two columns item by item.
ghost use Rattle.std.specs.Prelude.{◌≡◌, ◌≢◌, IsTrue, length, IfOk};
ghost use Rattle.std.specs.Ordering.{nat_cmp};
ghost use Rattle.std.specs.Cmp.Lexicographic.{slice_cmp};
ghost use Rattle.std.specs.Simd.Lanes.{zip2};
ghost use Rattle.q_values.specs.declared.atom.Atom.TheVariants as a;
ghost use Rattle.q_values.specs.declared.kind.Kind.TheVariants as k;
ghost use Rattle.q_values.specs.Kind.{is};
ghost use Rattle.q_verbs.specs.Numbers.{worth, worth_cmp};
ghost use Rattle.q_lanes.specs.Lanes.{text_items};
ghost use Rattle.q_verbs.specs.Sides.{side_kind, spread};
ghost use Rattle.q_verbs.specs.Places.{is_comparison, holds};

use q_lanes::{
    Above, AtLeast, AtMost, Below, Cells, Ordered, Other, Relation, Same, Step, TextList, Texts,
    WideSide, booleans, zip_lanes,
};
use q_values::{NoMemory, ShortSymbol, Vector};
use q_verbs::{Side, Verb};
use std::alloc::{AllocError, Global};

// Whether two items are in the relation.
struct Compared<P>(P);

impl<P: Relation, T: Ordered> Step<T, bool> for Compared<P> {
    ghost use Rattle.q_verbs.specs.Numbers.{worth_cmp};

    ghost value = { λ x y. P.relates (worth_cmp (T.own_worth x) (T.own_worth y)) };

    fn apply(x: &T, y: &T) -> bool {
        P::holds(x.order(y))
    }

    fn by_sixteens() -> bool {
        true
    }
}

// Two lists of one length, each kept in its own way.
fn compare_lists<P: Relation, L: TextList, R: TextList>(
    alloc: Global,
    left: &L,
    right: &R,
) -> Result<Vec<bool>, AllocError>
    requires { length (L.texts left.now) ≡ length (R.texts right.now) }
    ensures { IfOk result (λ v. v.items
        ≡ zip2 (λ s t. P.relates (slice_cmp nat_cmp s t)) (L.texts left.now) (R.texts right.now)) }
{
    let count = left.count();
    let mut values = Vec::with_capacity(alloc, count)?;
    for i in 0..count {
        values.push_reserved(P::holds(left.text(i).cmp(right.text(i))));
    }
    Ok(values)
}

// Short symbols are compared as numbers, and columns in arenas are read as they are.
fn compare_symbols<P: Relation>(
    alloc: Global,
    count: usize,
    left: &Texts<'_>,
    right: &Texts<'_>,
) -> Result<Vec<bool>, AllocError>
    requires left { length (text_items count left.now) ≡ count }
    requires right { length (text_items count right.now) ≡ count }
    ensures { IfOk result (λ v. v.items ≡ zip2
        (λ s t. P.relates (slice_cmp nat_cmp s t)) (text_items count left.now) (text_items count right.now)) }
{
    if let (Some(some), Some(others)) = (left.short(), right.short()) {
        return zip_lanes::<Compared<P>, ShortSymbol, bool>(alloc, count, &some, &others);
    }
    match (left.arena(), right.arena()) {
        (Some(some), Some(others)) => compare_lists::<P, _, _>(alloc, some, others),
        (Some(some), None) => compare_lists::<P, _, _>(alloc, some, &right.beside(count)),
        (None, Some(others)) => compare_lists::<P, _, _>(alloc, &left.beside(count), others),
        (None, None) => {
            compare_lists::<P, _, _>(alloc, &left.beside(count), &right.beside(count))
        }
    }
}

fn compare_wide<P: Relation>(
    alloc: Global,
    count: usize,
    left: &Side<'_>,
    right: &Side<'_>,
) -> Result<Vec<bool>, NoMemory>
    requires some { side_kind left.now ≢ k.Symbol }
    requires others { side_kind right.now ≢ k.Symbol }
    requires left { length (spread count left.now) ≡ count }
    requires right { length (spread count right.now) ≡ count }
    ensures { IfOk result (λ v. v.items ≡ zip2 (λ x y. P.relates (worth_cmp (worth x) (worth y)))
        (spread count left.now) (spread count right.now)) }
{
    let some = WideSide::of(alloc, left)?;
    let others = WideSide::of(alloc, right)?;
    let values = zip_lanes::<Compared<P>, i64, bool>(alloc, count, &some.lane(), &others.lane())?;
    Ok(values)
}

// Where both sides are stored alike, their items are compared as they are.
fn compare_sides<P: Relation>(
    alloc: Global,
    count: usize,
    left: &Side<'_>,
    right: &Side<'_>,
) -> Result<Vec<bool>, NoMemory>
    requires alike { is (side_kind left.now) k.Symbol ≡ is (side_kind right.now) k.Symbol }
    requires left { length (spread count left.now) ≡ count }
    requires right { length (spread count right.now) ≡ count }
    ensures { IfOk result (λ v. v.items ≡ zip2 (λ x y. P.relates (worth_cmp (worth x) (worth y)))
        (spread count left.now) (spread count right.now)) }
{
    match (Cells::of(left), Cells::of(right)) {
        (Cells::Booleans(some), Cells::Booleans(others)) => {
            Ok(zip_lanes::<Compared<P>, bool, bool>(alloc, count, &some, &others)?)
        }
        (Cells::Bytes(_, some), Cells::Bytes(_, others)) => {
            Ok(zip_lanes::<Compared<P>, u8, bool>(alloc, count, &some, &others)?)
        }
        (Cells::Shorts(some), Cells::Shorts(others)) => {
            Ok(zip_lanes::<Compared<P>, i16, bool>(alloc, count, &some, &others)?)
        }
        (Cells::Integers(_, some), Cells::Integers(_, others)) => {
            Ok(zip_lanes::<Compared<P>, i32, bool>(alloc, count, &some, &others)?)
        }
        (Cells::Symbols(some), Cells::Symbols(others)) => {
            Ok(compare_symbols::<P>(alloc, count, &some, &others)?)
        }
        _ => compare_wide::<P>(alloc, count, left, right),
    }
}

fn compare<P: Relation>(
    alloc: Global,
    count: usize,
    left: &Side<'_>,
    right: &Side<'_>,
) -> Result<Vector, NoMemory>
    requires alike { is (side_kind left.now) k.Symbol ≡ is (side_kind right.now) k.Symbol }
    requires left { length (spread count left.now) ≡ count }
    requires right { length (spread count right.now) ≡ count }
    ensures { IfOk result (λ v. v ≡ record {
      kind = k.Boolean;
      atoms = zip2 (λ x y. a.Boolean (P.relates (worth_cmp (worth x) (worth y))))
          (spread count left.now) (spread count right.now);
    }) }
{
    let values = compare_sides::<P>(alloc, count, left, right)?;
    Ok(booleans(values))
}

/// Whether the two items at each index are in the relation that the verb names.
pub(crate) fn comparison(
    alloc: Global,
    verb: Verb,
    count: usize,
    left: &Side<'_>,
    right: &Side<'_>,
) -> Result<Vector, NoMemory>
    requires verb { IsTrue (is_comparison verb) }
    requires alike { is (side_kind left.now) k.Symbol ≡ is (side_kind right.now) k.Symbol }
    requires left { length (spread count left.now) ≡ count }
    requires right { length (spread count right.now) ≡ count }
    ensures { IfOk result (λ v. v ≡ record {
      kind = k.Boolean;
      atoms = zip2 (λ x y. a.Boolean (holds verb (worth_cmp (worth x) (worth y))))
          (spread count left.now) (spread count right.now);
    }) }
{
    match verb {
        Verb::Eq => compare::<Same>(alloc, count, left, right),
        Verb::Ne => compare::<Other>(alloc, count, left, right),
        Verb::Lt => compare::<Below>(alloc, count, left, right),
        Verb::Gt => compare::<Above>(alloc, count, left, right),
        Verb::Le => compare::<AtMost>(alloc, count, left, right),
        Verb::Ge => compare::<AtLeast>(alloc, count, left, right),
        _ => unreachable!(),
    }
}
