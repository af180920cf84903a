//! Verbs that compute a number for each item.
ghost use Rattle.std.specs.Prelude.{◌≡◌, ◌≢◌, IsTrue, length, IfOk};
ghost use Rattle.std.specs.Simd.Lanes.{zip2};
ghost use Rattle.q_values.specs.Column.{contents, integer_kind, long_kind};
ghost use Rattle.q_values.specs.declared.kind.Kind.TheVariants as k;
ghost use Rattle.q_verbs.specs.Kinds.{is_computed};
ghost use Rattle.q_lanes.specs.Lanes.{lane_items};
ghost use Rattle.q_verbs.specs.Places.{operation, computes, multiple_of};
ghost use Rattle.q_binary.specs.Computed.{computed, given_items, computed_sides};
ghost use Rattle.q_verbs.specs.Numbers.{number_in, reduced};
ghost use Rattle.q_verbs.specs.Sides.{side_kind, spread};
ghost use Rattle.std.specs.Int.{w32};

use crate::int_multiples::multiples_of_ints;
use crate::multiples::multiples_of;
use crate::operation::{
    Computed, DaysAndSpan, Difference, Greater, Lesser, Multiple, Operation, Product, Quotient,
    Remainder, SpanAndDays, Sum,
};
use q_lanes::{Cells, Lane, Number, Reduced, WideSide, zip_lanes};
use q_values::{Column, IntegerKind, Kind, LongKind, NoMemory, Storage};
use q_verbs::{Side, Verb, have};
use std::alloc::{AllocError, Global};

// A verb, the numbers of its two sides, and the kinds of the sides that they come from.
#[derive(Drop)]
struct Task<'a, T: Number> {
    verb: Verb,
    left_kind: Kind,
    right_kind: Kind,
    // The number of items of each side.
    count: usize,
    left: Lane<'a, T>,
    right: Lane<'a, T>,
}

impl<T: Number> Task<'_, T> {
    // The operation's results, in the width of U.
    fn results<P: Operation, U: Reduced>(&self, alloc: Global) -> Result<Vec<U>, AllocError>
        requires left { length (lane_items self.now.count self.now.left) ≡ self.now.count }
        requires right { length (lane_items self.now.count self.now.right) ≡ self.now.count }
        ensures { IfOk result (λ v. v.items ≡ zip2 (λ x y. U.of (computed P.value (T.number x) (T.number y)))
            (lane_items self.now.count self.now.left) (lane_items self.now.count self.now.right)) }
    {
        zip_lanes::<Computed<P>, T, U>(alloc, self.count, &self.left, &self.right)
    }

    fn values<U: Reduced>(&self, alloc: Global) -> Result<Vec<U>, AllocError>
        requires verb { IsTrue (computes self.now.verb) }
        requires left { length (lane_items self.now.count self.now.left) ≡ self.now.count }
        requires right { length (lane_items self.now.count self.now.right) ≡ self.now.count }
        ensures { IfOk result (λ v. v.items ≡ zip2
            (λ x y. U.of (computed (operation self.now.verb self.now.left_kind self.now.right_kind)
            (T.number x) (T.number y)))
            (lane_items self.now.count self.now.left) (lane_items self.now.count self.now.right)) }
    {
        match self.verb {
            Verb::Add => self.sums(alloc),
            Verb::Sub => self.results::<Difference, U>(alloc),
            Verb::Mul => self.results::<Product, U>(alloc),
            Verb::Div => self.results::<Quotient, U>(alloc),
            Verb::Mod => self.results::<Remainder, U>(alloc),
            Verb::Xbar => self.multiples(alloc),
            Verb::Lesser => self.results::<Lesser, U>(alloc),
            Verb::Greater => self.results::<Greater, U>(alloc),
            _ => unreachable!(),
        }
    }

    fn sums<U: Reduced>(&self, alloc: Global) -> Result<Vec<U>, AllocError>
        requires verb { self.now.verb ≡ Verb.Add }
        requires left { length (lane_items self.now.count self.now.left) ≡ self.now.count }
        requires right { length (lane_items self.now.count self.now.right) ≡ self.now.count }
        ensures { IfOk result (λ v. v.items ≡ zip2
            (λ x y. U.of (computed (operation self.now.verb self.now.left_kind self.now.right_kind)
            (T.number x) (T.number y)))
            (lane_items self.now.count self.now.left) (lane_items self.now.count self.now.right)) }
    {
        if have(Kind::Date, Kind::Timespan, self.left_kind, self.right_kind) {
            self.results::<DaysAndSpan, U>(alloc)
        } else if have(Kind::Timespan, Kind::Date, self.left_kind, self.right_kind) {
            self.results::<SpanAndDays, U>(alloc)
        } else {
            self.results::<Sum, U>(alloc)
        }
    }

    // Where one width above 0 stands beside a column, no item is divided by it.
    fn multiples<U: Reduced>(&self, alloc: Global) -> Result<Vec<U>, AllocError>
        requires left { length (lane_items self.now.count self.now.left) ≡ self.now.count }
        requires right { length (lane_items self.now.count self.now.right) ≡ self.now.count }
        ensures { IfOk result (λ v. v.items ≡ zip2 (λ x y. U.of (computed multiple_of (T.number x) (T.number y)))
            (lane_items self.now.count self.now.left) (lane_items self.now.count self.now.right)) }
    {
        match (&self.left, &self.right) {
            (Lane::Every(width), Lane::Each(items)) if width.widened() > 0 => {
                multiples_of(alloc, width.widened(), items)
            }
            _ => self.results::<Multiple, U>(alloc),
        }
    }

    fn shorts(&self, alloc: Global) -> Result<Column, NoMemory>
        requires verb { IsTrue (computes self.now.verb) }
        requires left { length (lane_items self.now.count self.now.left) ≡ self.now.count }
        requires right { length (lane_items self.now.count self.now.right) ≡ self.now.count }
        ensures { IfOk result (λ c. contents c ≡ record {
          kind = k.Short;
          atoms = given_items k.Short (operation self.now.verb self.now.left_kind self.now.right_kind) T.number
              (lane_items self.now.count self.now.left) (lane_items self.now.count self.now.right);
        }) }
    {
        Ok(Column::Shorts(self.values(alloc)?))
    }

    fn integers(&self, alloc: Global, kind: IntegerKind) -> Result<Column, NoMemory>
        requires verb { IsTrue (computes self.now.verb) }
        requires left { length (lane_items self.now.count self.now.left) ≡ self.now.count }
        requires right { length (lane_items self.now.count self.now.right) ≡ self.now.count }
        ensures { IfOk result (λ c. contents c ≡ record {
          kind = integer_kind kind;
          atoms = given_items (integer_kind kind) (operation self.now.verb self.now.left_kind self.now.right_kind) T.number
              (lane_items self.now.count self.now.left) (lane_items self.now.count self.now.right);
        }) }
    {
        Ok(Column::Integers(kind, self.values(alloc)?))
    }

    fn longs(&self, alloc: Global, kind: LongKind) -> Result<Column, NoMemory>
        requires verb { IsTrue (computes self.now.verb) }
        requires left { length (lane_items self.now.count self.now.left) ≡ self.now.count }
        requires right { length (lane_items self.now.count self.now.right) ≡ self.now.count }
        ensures { IfOk result (λ c. contents c ≡ record {
          kind = long_kind kind;
          atoms = given_items (long_kind kind) (operation self.now.verb self.now.left_kind self.now.right_kind) T.number
              (lane_items self.now.count self.now.left) (lane_items self.now.count self.now.right);
        }) }
    {
        Ok(Column::Longs(kind, self.values(alloc)?))
    }

    // The result as a column of the kind.
    #[tactic(auto, using(crate::proofs::KindLemmas::computed_of_bytes))]
    fn column(&self, alloc: Global, kind: Kind) -> Result<Column, NoMemory>
        requires verb { IsTrue (computes self.now.verb) }
        requires kind { IsTrue (is_computed kind) }
        requires left { length (lane_items self.now.count self.now.left) ≡ self.now.count }
        requires right { length (lane_items self.now.count self.now.right) ≡ self.now.count }
        ensures { IfOk result (λ c. contents c ≡ record {
          kind = kind;
          atoms = given_items kind (operation self.now.verb self.now.left_kind self.now.right_kind) T.number
              (lane_items self.now.count self.now.left) (lane_items self.now.count self.now.right);
        }) }
    {
        match kind.storage() {
            Storage::Short => self.shorts(alloc),
            Storage::Integer(own) => self.integers(alloc, own),
            Storage::Long(own) => self.longs(alloc, own),
            Storage::Boolean | Storage::Byte(_) | Storage::Symbol => unreachable!(),
        }
    }
}

impl Task<'_, i32> {
    // Where one width above 0 stands beside ints, `xbar` runs in 32 bits.
    fn int_values(&self, alloc: Global) -> Result<Vec<i32>, AllocError>
        requires verb { IsTrue (computes self.now.verb) }
        requires left { length (lane_items self.now.count self.now.left) ≡ self.now.count }
        requires right { length (lane_items self.now.count self.now.right) ≡ self.now.count }
        ensures { IfOk result (λ v. v.items ≡ zip2
            (λ x y. reduced w32 (computed (operation self.now.verb self.now.left_kind self.now.right_kind)
            (number_in w32 x) (number_in w32 y)))
            (lane_items self.now.count self.now.left) (lane_items self.now.count self.now.right)) }
    {
        match (self.verb, &self.left, &self.right) {
            (Verb::Xbar, Lane::Every(width), Lane::Each(items)) if *width > 0 => {
                multiples_of_ints(alloc, *width, items)
            }
            _ => self.values(alloc),
        }
    }

    fn ints(&self, alloc: Global, kind: IntegerKind) -> Result<Column, NoMemory>
        requires verb { IsTrue (computes self.now.verb) }
        requires left { length (lane_items self.now.count self.now.left) ≡ self.now.count }
        requires right { length (lane_items self.now.count self.now.right) ≡ self.now.count }
        ensures { IfOk result (λ c. contents c ≡ record {
          kind = integer_kind kind;
          atoms = given_items (integer_kind kind) (operation self.now.verb self.now.left_kind self.now.right_kind) (number_in w32)
              (lane_items self.now.count self.now.left) (lane_items self.now.count self.now.right);
        }) }
    {
        Ok(Column::Integers(kind, self.int_values(alloc)?))
    }
}

// The verb's results for two sides, in this kind, computed in 64 bits.
fn arithmetic_in_64(
    alloc: Global,
    verb: Verb,
    kind: Kind,
    count: usize,
    left: &Side<'_>,
    right: &Side<'_>,
) -> Result<Column, NoMemory>
    requires left { length (spread count left.now) ≡ count }
    requires right { length (spread count right.now) ≡ count }
    requires verb { IsTrue (computes verb) }
    requires some { side_kind left.now ≢ k.Symbol }
    requires kind { IsTrue (is_computed kind) }
    requires others { side_kind right.now ≢ k.Symbol }
    ensures { IfOk result (λ c. contents c ≡ record {
      kind = kind;
      atoms = computed_sides verb kind count left.now right.now;
    }) }
{
    let some = WideSide::of(alloc, left)?;
    let others = WideSide::of(alloc, right)?;
    let task = Task {
        verb,
        left_kind: left.kind(),
        right_kind: right.kind(),
        count,
        left: some.lane(),
        right: others.lane(),
    };
    let column = task.column(alloc, kind)?;
    Ok(column)
}

/// The verb's results for two sides, item by item, in this kind: in 32 bits where all three have that width.
pub(crate) fn arithmetic(
    alloc: Global,
    verb: Verb,
    kind: Kind,
    count: usize,
    left: &Side<'_>,
    right: &Side<'_>,
) -> Result<Column, NoMemory>
    requires verb { IsTrue (computes verb) }
    requires kind { IsTrue (is_computed kind) }
    requires some { side_kind left.now ≢ k.Symbol }
    requires others { side_kind right.now ≢ k.Symbol }
    requires left { length (spread count left.now) ≡ count }
    requires right { length (spread count right.now) ≡ count }
    ensures { IfOk result (λ c. contents c ≡ record {
      kind = kind;
      atoms = computed_sides verb kind count left.now right.now;
    }) }
{
    match (Cells::of(left), Cells::of(right), kind.storage()) {
        (
            Cells::Integers(left_kind, some),
            Cells::Integers(right_kind, others),
            Storage::Integer(own),
        ) => {
            let task = Task {
                verb,
                left_kind: left_kind.kind(),
                right_kind: right_kind.kind(),
                count,
                left: some,
                right: others,
            };
            let column = task.ints(alloc, own)?;
            Ok(column)
        }
        _ => arithmetic_in_64(alloc, verb, kind, count, left, right),
    }
}
