//! The value of a query, worked out row by row.
//!
//! A field is an `i64`: of a symbol, the byte of its one letter; of a boolean, 0 or 1; of each other kind, its number. The
//! null is the least `i64` in each kind but these two.

use q_values::{Atom, Kind, Value, Vector};
use q_verbs::{Verb, Verb1};
use qsql_eval::Rows;
use qsql_request::Expr;
use std::alloc::Global;
use std::process::Abort;

/// A null.
pub(crate) const NULL: i64 = i64::MIN;

/// The value of an expression: an atom, or a list with an item for each row.
#[derive(Drop)]
pub(crate) struct Slow {
    /// The kind of its items.
    pub kind: Kind,
    /// Whether it is an atom, of which `items` has the one number.
    pub is_atom: bool,
    /// The numbers.
    pub items: Vec<i64>,
}

fn atom_of(rt: &impl Abort, alloc: Global, kind: Kind, number: i64) -> Slow {
    let items = Vec::from_slice(alloc, &[number]).expect(rt, "memory");
    Slow {
        kind,
        is_atom: true,
        items,
    }
}

fn list_of(kind: Kind, items: Vec<i64>) -> Slow {
    Slow {
        kind,
        is_atom: false,
        items,
    }
}

fn number_32(x: i32) -> i64 {
    if x == i32::MIN { NULL } else { i64::from(x) }
}

/// The number of an atom.
pub(crate) fn number_of(atom: &Atom) -> i64 {
    match atom {
        Atom::Boolean(x) => i64::from(*x),
        Atom::Byte(x) => i64::from(*x),
        Atom::Character(x) => i64::from(*x),
        Atom::Short(x) => if *x == i16::MIN { NULL } else { i64::from(*x) },
        Atom::Integer(x) => number_32(*x),
        Atom::Month(x) => number_32(*x),
        Atom::Date(x) => number_32(*x),
        Atom::Minute(x) => number_32(*x),
        Atom::Second(x) => number_32(*x),
        Atom::Time(x) => number_32(*x),
        Atom::Long(x) => *x,
        Atom::Timestamp(x) => *x,
        Atom::Timespan(x) => *x,
        Atom::Symbol(name) => match name.bytes().first() {
            Some(letter) => i64::from(*letter),
            None => 0,
        },
    }
}

// The numbers of a column at these rows.
fn numbers_at(rt: &impl Abort, alloc: Global, column: &Vector, kept: &[usize]) -> Vec<i64> {
    let mut items = Vec::new(alloc);
    for row in kept {
        let number = match column.get(alloc, *row).expect(rt, "memory") {
            Some(atom) => number_of(&atom),
            None => NULL,
        };
        items.push(number).expect(rt, "memory");
    }
    items
}

fn column_named<'a>(rows: &'a Rows, name: &[u8]) -> Option<&'a Vector> {
    let mut index = 0usize;
    for other in rows.names.as_slice() {
        if other.bytes() == name {
            return rows.columns.get(index);
        }
        index = index.saturating_add(1);
    }
    None
}

/// A column at these rows.
pub(crate) fn column_of(
    rt: &impl Abort,
    alloc: Global,
    rows: &Rows,
    name: &[u8],
    kept: &[usize],
) -> Slow {
    match column_named(rows, name) {
        Some(column) => list_of(column.kind(), numbers_at(rt, alloc, column, kept)),
        None => list_of(Kind::Boolean, Vec::new(alloc)),
    }
}

fn literal_of(rt: &impl Abort, alloc: Global, value: &Value) -> Slow {
    match value {
        Value::Atom(atom) => atom_of(rt, alloc, atom.kind(), number_of(atom)),
        Value::Vector(vector) => {
            let mut every = Vec::new(alloc);
            for row in 0..vector.len() {
                every.push(row).expect(rt, "memory");
            }
            list_of(vector.kind(), numbers_at(rt, alloc, vector, &every))
        }
        _ => list_of(Kind::Boolean, Vec::new(alloc)),
    }
}

// The quotient rounded down; the null where the divisor is 0.
fn quotient(x: i64, y: i64) -> i64 {
    if y == 0 {
        return NULL;
    }
    let down = x.wrapping_div(y);
    let is_exact = down.wrapping_mul(y) == x;
    if !is_exact && (x < 0) != (y < 0) {
        down.wrapping_sub(1)
    } else {
        down
    }
}

fn arithmetic(verb: Verb, x: i64, y: i64) -> i64 {
    if x == NULL || y == NULL {
        return NULL;
    }
    match verb {
        Verb::Add => x.wrapping_add(y),
        Verb::Sub => x.wrapping_sub(y),
        Verb::Mul => x.wrapping_mul(y),
        Verb::Div => quotient(x, y),
        Verb::Mod => if y == 0 {
            NULL
        } else {
            x.wrapping_sub(y.wrapping_mul(quotient(x, y)))
        },
        _ => if x == 0 {
            NULL
        } else {
            x.wrapping_mul(quotient(y, x))
        },
    }
}

fn two_numbers(verb: Verb, x: i64, y: i64) -> i64 {
    match verb {
        Verb::Eq => i64::from(x == y),
        Verb::Ne => i64::from(x != y),
        Verb::Lt => i64::from(x < y),
        Verb::Gt => i64::from(x > y),
        Verb::Le => i64::from(x <= y),
        Verb::Ge => i64::from(x >= y),
        Verb::Lesser => x.min(y),
        Verb::Greater => x.max(y),
        _ => arithmetic(verb, x, y),
    }
}

fn kind_of_two(verb: Verb, left: Kind, right: Kind) -> Kind {
    match verb {
        Verb::Add | Verb::Sub | Verb::Mul | Verb::Div | Verb::Mod | Verb::Xbar => Kind::Long,
        Verb::Lesser | Verb::Greater => if left == Kind::Boolean { right } else { left },
        _ => Kind::Boolean,
    }
}

/// An item of a list, or the atom.
pub(crate) fn item_at(side: &Slow, index: usize) -> i64 {
    let index = if side.is_atom { 0 } else { index };
    match side.items.get(index) {
        Some(number) => *number,
        None => NULL,
    }
}

fn by_item(rt: &impl Abort, alloc: Global, verb: Verb, left: &Slow, right: &Slow) -> Slow {
    let is_atom = left.is_atom && right.is_atom;
    let count = if left.is_atom {
        right.items.len()
    } else {
        left.items.len()
    };
    let mut items = Vec::new(alloc);
    for index in 0..count {
        items
            .push(two_numbers(verb, item_at(left, index), item_at(right, index)))
            .expect(rt, "memory");
    }
    Slow {
        kind: kind_of_two(verb, left.kind, right.kind),
        is_atom,
        items,
    }
}

fn is_among(items: &[i64], number: i64) -> bool {
    for item in items {
        if *item == number {
            return true;
        }
    }
    false
}

fn tested(rt: &impl Abort, alloc: Global, verb: Verb, left: &Slow, right: &Slow) -> Slow {
    let mut items = Vec::new(alloc);
    for item in &left.items {
        let holds = if verb == Verb::In {
            is_among(&right.items, *item)
        } else {
            item_at(right, 0) <= *item && *item <= item_at(right, 1)
        };
        items.push(i64::from(holds)).expect(rt, "memory");
    }
    Slow {
        kind: Kind::Boolean,
        is_atom: left.is_atom,
        items,
    }
}

fn two_sides(rt: &impl Abort, alloc: Global, verb: Verb, left: &Slow, right: &Slow) -> Slow {
    match verb {
        Verb::In | Verb::Within => tested(rt, alloc, verb, left, right),
        _ => by_item(rt, alloc, verb, left, right),
    }
}

fn null_of(kind: Kind) -> i64 {
    match kind {
        Kind::Boolean | Kind::Symbol => 0,
        _ => NULL,
    }
}

fn sum_of(items: &[i64]) -> i64 {
    let mut sum = 0i64;
    for item in items {
        if *item != NULL {
            sum = sum.wrapping_add(*item);
        }
    }
    sum
}

fn kind_of_sum(kind: Kind) -> Kind {
    if kind == Kind::Boolean {
        Kind::Integer
    } else {
        kind
    }
}

fn least_of(items: &[i64]) -> i64 {
    let mut least = i64::MAX;
    for item in items {
        if *item != NULL {
            least = least.min(*item);
        }
    }
    least
}

fn greatest_of(items: &[i64]) -> i64 {
    let mut greatest = i64::MIN + 1;
    for item in items {
        greatest = greatest.max(*item);
    }
    greatest
}

fn first_or_null(kind: Kind, item: Option<&i64>) -> i64 {
    match item {
        Some(number) => *number,
        None => null_of(kind),
    }
}

fn distinct_of(rt: &impl Abort, alloc: Global, items: &[i64]) -> Vec<i64> {
    let mut found = Vec::new(alloc);
    for item in items {
        if !is_among(&found, *item) {
            found.push(*item).expect(rt, "memory");
        }
    }
    found
}

fn negated(rt: &impl Abort, alloc: Global, side: &Slow) -> Slow {
    let mut items = Vec::new(alloc);
    for item in &side.items {
        items.push(item.wrapping_neg()).expect(rt, "memory");
    }
    Slow {
        kind: Kind::Long,
        is_atom: side.is_atom,
        items,
    }
}

fn inverted(rt: &impl Abort, alloc: Global, side: &Slow) -> Slow {
    let mut items = Vec::new(alloc);
    for item in &side.items {
        items.push(i64::from(*item == 0)).expect(rt, "memory");
    }
    Slow {
        kind: Kind::Boolean,
        is_atom: side.is_atom,
        items,
    }
}

fn one_side(rt: &impl Abort, alloc: Global, verb: Verb1, side: &Slow) -> Slow {
    match verb {
        Verb1::Not => inverted(rt, alloc, side),
        Verb1::Neg => negated(rt, alloc, side),
        Verb1::Count => atom_of(rt, alloc, Kind::Long, side.items.len() as i64),
        Verb1::Sum => atom_of(rt, alloc, kind_of_sum(side.kind), sum_of(&side.items)),
        Verb1::Min => atom_of(rt, alloc, side.kind, least_of(&side.items)),
        Verb1::Max => atom_of(rt, alloc, side.kind, greatest_of(&side.items)),
        Verb1::First => atom_of(
            rt,
            alloc,
            side.kind,
            first_or_null(side.kind, side.items.first()),
        ),
        Verb1::Last => atom_of(
            rt,
            alloc,
            side.kind,
            first_or_null(side.kind, side.items.last()),
        ),
        Verb1::Distinct => list_of(side.kind, distinct_of(rt, alloc, &side.items)),
    }
}

/// The value of an expression over the rows with these indices.
pub(crate) fn value_of(
    rt: &impl Abort,
    alloc: Global,
    expr: &Expr,
    rows: &Rows,
    kept: &[usize],
) -> Slow {
    match expr {
        Expr::Literal(value) => literal_of(rt, alloc, value),
        Expr::Name(name) => column_of(rt, alloc, rows, name.bytes(), kept),
        Expr::One(verb, side) => {
            let side = value_of(rt, alloc, side, rows, kept);
            one_side(rt, alloc, *verb, &side)
        }
        Expr::Two(verb, left, right) => {
            let left = value_of(rt, alloc, left, rows, kept);
            let right = value_of(rt, alloc, right, rows, kept);
            two_sides(rt, alloc, *verb, &left, &right)
        }
    }
}

// The rows, of those given, at which the phrase holds.
fn rows_where(
    rt: &impl Abort,
    alloc: Global,
    phrase: &Expr,
    rows: &Rows,
    given: &[usize],
) -> Vec<usize> {
    let truths = value_of(rt, alloc, phrase, rows, given);
    let mut kept = Vec::new(alloc);
    let mut index = 0usize;
    for row in given {
        if item_at(&truths, index) == 1 {
            kept.push(*row).expect(rt, "memory");
        }
        index = index.saturating_add(1);
    }
    kept
}

/// The rows that the phrases keep, from left to right, of the first `count`.
pub(crate) fn kept_rows(
    rt: &impl Abort,
    alloc: Global,
    phrases: &[Expr],
    rows: &Rows,
    count: usize,
) -> Vec<usize> {
    let mut kept = Vec::new(alloc);
    for row in 0..count {
        kept.push(row).expect(rt, "memory");
    }
    for phrase in phrases {
        kept = rows_where(rt, alloc, phrase, rows, &kept);
    }
    kept
}
