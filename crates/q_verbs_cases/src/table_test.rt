//! Reads the rows of the tables, runs the verbs and compares.
ghost use Rattle.std.specs.Prelude.{◌≡◌};
ghost use Rattle.q_verbs.specs.Places.{is_by_place};
ghost use Rattle.q_verbs.specs.Sides.{AreBeside};
ghost use Rattle.q_verbs.specs.Lists.{is_unary};
ghost use Rattle.q_verbs.specs.Aggregates.{is_aggregate};

use crate::{kinds_rows, one_side_rows, two_sides_rows};
use q_binary::binary;
use q_matching::{is_in, is_like, is_within};
use q_unary::{aggregate, unary};
use q_values::{Atom, Column, Kind, Sym, Symbols, Vector};
use q_verbs::{Side, Verb, Verb1, result_kind, result_kind1};
use std::alloc::Global;
use std::process::Abort;

// The kind of a letter (KX, Datatypes reference).
fn kind_of_letter(letter: u8) -> Option<Kind> {
    match letter {
        b'b' => Some(Kind::Boolean),
        b'x' => Some(Kind::Byte),
        b'h' => Some(Kind::Short),
        b'i' => Some(Kind::Integer),
        b'j' => Some(Kind::Long),
        b'c' => Some(Kind::Character),
        b's' => Some(Kind::Symbol),
        b'p' => Some(Kind::Timestamp),
        b'm' => Some(Kind::Month),
        b'd' => Some(Kind::Date),
        b'n' => Some(Kind::Timespan),
        b'u' => Some(Kind::Minute),
        b'v' => Some(Kind::Second),
        b't' => Some(Kind::Time),
        _ => None,
    }
}

// The kind that a word names, which is one letter.
fn kind_of_word(word: &str) -> Option<Kind> {
    match word.as_bytes() {
        [letter] => kind_of_letter(*letter),
        _ => None,
    }
}

pub(crate) fn null_number(kind: Kind) -> i64 {
    match kind {
        Kind::Short => i64::from(i16::MIN),
        Kind::Long | Kind::Timestamp | Kind::Timespan => i64::MIN,
        _ => i64::from(i32::MIN),
    }
}

fn end_number(kind: Kind) -> i64 {
    match kind {
        Kind::Short => i64::from(i16::MAX),
        Kind::Long | Kind::Timestamp | Kind::Timespan => i64::MAX,
        _ => i64::from(i32::MAX),
    }
}

fn number_of(kind: Kind, word: &str) -> Option<i64> {
    match word.as_bytes() {
        b"0N" => Some(null_number(kind)),
        b"0W" => Some(end_number(kind)),
        b"-0W" => Some(end_number(kind).wrapping_neg()),
        _ => word.parse::<i64>().ok(),
    }
}

// The atom of a kind in 8 or 16 bits.
fn narrow_atom(kind: Kind, number: i64) -> Option<Atom> {
    match kind {
        Kind::Boolean => Some(Atom::Boolean(number == 1)),
        Kind::Byte => Some(Atom::Byte(u8::try_from(number).ok()?)),
        Kind::Character => Some(Atom::Character(u8::try_from(number).ok()?)),
        Kind::Short => Some(Atom::Short(i16::try_from(number).ok()?)),
        _ => None,
    }
}

// The atom of a kind in 32 or 64 bits.
fn wide_atom(kind: Kind, number: i64) -> Option<Atom> {
    match kind {
        Kind::Integer => Some(Atom::Integer(i32::try_from(number).ok()?)),
        Kind::Month => Some(Atom::Month(i32::try_from(number).ok()?)),
        Kind::Date => Some(Atom::Date(i32::try_from(number).ok()?)),
        Kind::Minute => Some(Atom::Minute(i32::try_from(number).ok()?)),
        Kind::Second => Some(Atom::Second(i32::try_from(number).ok()?)),
        Kind::Time => Some(Atom::Time(i32::try_from(number).ok()?)),
        Kind::Long => Some(Atom::Long(number)),
        Kind::Timestamp => Some(Atom::Timestamp(number)),
        Kind::Timespan => Some(Atom::Timespan(number)),
        _ => None,
    }
}

pub(crate) fn atom_of_number(kind: Kind, number: i64) -> Option<Atom> {
    match narrow_atom(kind, number) {
        Some(atom) => Some(atom),
        None => wide_atom(kind, number),
    }
}

fn atom_of_word(rt: &impl Abort, alloc: Global, kind: Kind, word: &str) -> Option<Atom> {
    if let Some(name) = word.strip_prefix('`') {
        let symbol = Sym::of(alloc, name.as_bytes()).expect(rt, "memory");
        return Some(Atom::Symbol(symbol));
    }
    match number_of(kind, word) {
        Some(number) => atom_of_number(kind, number),
        None => None,
    }
}

fn vector_of_words(rt: &impl Abort, alloc: Global, kind: Kind, words: &str) -> Vector {
    let mut items = Vector::new(alloc, kind);
    for word in words.split_ascii_whitespace() {
        match atom_of_word(rt, alloc, kind, word) {
            Some(atom) => items.push(atom).expect(rt, "memory"),
            None => panic!(rt; "no item of the kind"),
        }
    }
    items
}

fn vector_of_text(rt: &impl Abort, alloc: Global, text: &str) -> Vector {
    let mut items = Vector::new(alloc, Kind::Character);
    for byte in text.as_bytes() {
        items.push(Atom::Character(*byte)).expect(rt, "memory");
    }
    items
}

// A column as a row writes it.
fn vector_of(rt: &impl Abort, alloc: Global, column: &str) -> Vector {
    let (front, words) = column.split_once(' ').unwrap_or((column, ""));
    match kind_of_word(front) {
        Some(kind) => vector_of_words(rt, alloc, kind, words),
        None => vector_of_text(rt, alloc, words),
    }
}

fn is_same_symbols(some: &Symbols, others: &Symbols) -> bool {
    if some.len() != others.len() {
        return false;
    }
    for i in 0..some.len() {
        if some.at(i) != others.at(i) {
            return false;
        }
    }
    true
}

fn is_same_column(some: &Column, others: &Column) -> bool {
    match (some, others) {
        (Column::Booleans(x), Column::Booleans(y)) => x.as_slice() == y.as_slice(),
        (Column::Bytes(_, x), Column::Bytes(_, y)) => x.as_slice() == y.as_slice(),
        (Column::Shorts(x), Column::Shorts(y)) => x.as_slice() == y.as_slice(),
        (Column::Integers(_, x), Column::Integers(_, y)) => x.as_slice() == y.as_slice(),
        (Column::Longs(_, x), Column::Longs(_, y)) => x.as_slice() == y.as_slice(),
        (Column::Symbols(x), Column::Symbols(y)) => is_same_symbols(x, y),
        _ => false,
    }
}

pub(crate) fn is_same(some: &Vector, others: &Vector) -> bool {
    some.kind() == others.kind() && is_same_column(some.column(), others.column())
}

fn goes_by_place(verb: Verb) -> bool
    ensures { result ≡ is_by_place verb }
{
    !matches!(verb, Verb::In | Verb::Within | Verb::Like)
}

fn gives_a_list(verb: Verb1) -> bool
    ensures { result ≡ is_unary verb }
{
    matches!(verb, Verb1::Not | Verb1::Neg | Verb1::Distinct)
}

fn gives_an_atom(verb: Verb1) -> bool
    ensures { result ≡ is_aggregate verb }
{
    !matches!(verb, Verb1::Not | Verb1::Neg | Verb1::Distinct)
}

pub(crate) fn by_place(
    rt: &impl Abort,
    alloc: Global,
    verb: Verb,
    left: &Vector,
    right: &Vector,
) -> Option<Vector> {
    if !goes_by_place(verb) || left.len() != right.len() {
        return None;
    }
    match result_kind(verb, left.kind(), right.kind()) {
        Some(_) => {
            let found = binary(alloc, verb, &Side::Column(left), &Side::Column(right)).expect(
                rt, "memory",
            );
            Some(found)
        }
        None => None,
    }
}

fn among(rt: &impl Abort, alloc: Global, left: &Side<'_>, items: &Side<'_>) -> Option<Vector> {
    match result_kind(Verb::In, left.kind(), items.kind()) {
        Some(_) => {
            let found = is_in(alloc, left, items).expect(rt, "memory");
            Some(found)
        }
        None => None,
    }
}

fn between_atoms(
    rt: &impl Abort,
    alloc: Global,
    left: &Side<'_>,
    low: &Atom,
    high: &Atom,
) -> Option<Vector> {
    if high.kind() != low.kind() {
        return None;
    }
    match result_kind(Verb::Within, left.kind(), low.kind()) {
        Some(_) => {
            let found = is_within(alloc, left, low, high).expect(rt, "memory");
            Some(found)
        }
        None => None,
    }
}

fn between(rt: &impl Abort, alloc: Global, left: &Side<'_>, ends: &Vector) -> Option<Vector> {
    if ends.len() != 2 {
        return None;
    }
    let low = ends.at(alloc, 0).expect(rt, "memory");
    let high = ends.at(alloc, 1).expect(rt, "memory");
    let found = between_atoms(rt, alloc, left, &low, &high);
    found
}

fn alike(rt: &impl Abort, alloc: Global, left: &Side<'_>, pattern: &Vector) -> Option<Vector> {
    if left.kind() != Kind::Symbol {
        return None;
    }
    match pattern.column() {
        Column::Bytes(_, bytes) => {
            let found = is_like(alloc, left, bytes).expect(rt, "memory");
            Some(found)
        }
        _ => None,
    }
}

// What a verb that tests the items of a side finds.
fn found_of_test(
    rt: &impl Abort,
    alloc: Global,
    verb: Verb,
    left: &Side<'_>,
    right: &Vector,
) -> Option<Vector> {
    match verb {
        Verb::In => among(rt, alloc, left, &Side::Column(right)),
        Verb::Within => between(rt, alloc, left, right),
        Verb::Like => alike(rt, alloc, left, right),
        _ => None,
    }
}

// The verb's result for the two columns; `None` where it doesn't take them.
fn found_of_two(
    rt: &impl Abort,
    alloc: Global,
    verb: Verb,
    left: &Vector,
    right: &Vector,
) -> Option<Vector> {
    if goes_by_place(verb) {
        by_place(rt, alloc, verb, left, right)
    } else {
        found_of_test(rt, alloc, verb, &Side::Column(left), right)
    }
}

// The verb's result without items at the left.
fn found_of_no_left(
    rt: &impl Abort,
    alloc: Global,
    verb: Verb,
    left: &Vector,
    right: &Vector,
) -> Option<Vector> {
    let none = Vector::new(alloc, left.kind());
    if goes_by_place(verb) {
        let none_right = Vector::new(alloc, right.kind());
        found_of_two(rt, alloc, verb, &none, &none_right)
    } else {
        found_of_two(rt, alloc, verb, &none, right)
    }
}

pub(crate) fn is_wanted(found: Option<Vector>, wanted: &Vector) -> bool {
    match found {
        Some(found) => is_same(&found, wanted),
        None => false,
    }
}

// The verb's result for these sides, of which not both are columns.
pub(crate) fn found_of_sides(
    rt: &impl Abort,
    alloc: Global,
    verb: Verb,
    left: &Side<'_>,
    right: &Side<'_>,
) -> Option<Vector>
    requires { AreBeside left.now right.now }
{
    if !goes_by_place(verb) || result_kind(verb, left.kind(), right.kind()).is_none() {
        return None;
    }
    let found = binary(alloc, verb, left, right).expect(rt, "memory");
    Some(found)
}

// Whether the item at the index is the one that is wanted there, and the items are as many.
fn has_item(
    rt: &impl Abort,
    found: Option<Vector>,
    wanted: &Vector,
    i: usize,
    alloc: Global,
) -> bool {
    let Some(found) = found else {
        return false;
    };
    if found.len() != wanted.len() || i >= wanted.len() {
        return false;
    }
    let some = found.take(alloc, i, 1).expect(rt, "memory");
    let other = wanted.take(alloc, i, 1).expect(rt, "memory");
    is_same(&some, &other)
}

// Whether the verb gives the item that is wanted at the index where an atom stands for a column, or for each.
fn atoms_give(
    rt: &impl Abort,
    alloc: Global,
    verb: Verb,
    left: &Vector,
    right: &Vector,
    wanted: &Vector,
    i: usize,
) -> bool {
    if i >= left.len() || i >= right.len() || i >= wanted.len() {
        return false;
    }
    let some = left.at(alloc, i).expect(rt, "memory");
    let other = right.at(alloc, i).expect(rt, "memory");
    let from_left = found_of_sides(rt, alloc, verb, &Side::Atom(&some), &Side::Column(right));
    let from_right = found_of_sides(rt, alloc, verb, &Side::Column(left), &Side::Atom(&other));
    let of_atoms = found_of_sides(rt, alloc, verb, &Side::Atom(&some), &Side::Atom(&other));
    let one = wanted.take(alloc, i, 1).expect(rt, "memory");
    let left_holds = has_item(rt, from_left, wanted, i, alloc);
    let right_holds = has_item(rt, from_right, wanted, i, alloc);
    let both_hold = has_item(rt, of_atoms, &one, 0, alloc);
    left_holds && right_holds && both_hold
}

// Whether a verb that tests the items of a side gives the same for each item as an atom.
fn tests_hold(
    rt: &impl Abort,
    alloc: Global,
    verb: Verb,
    left: &Vector,
    right: &Vector,
    wanted: &Vector,
) -> bool {
    for i in 0..left.len() {
        if i >= wanted.len() {
            return false;
        }
        let atom = left.at(alloc, i).expect(rt, "memory");
        let one = wanted.take(alloc, i, 1).expect(rt, "memory");
        let found = found_of_test(rt, alloc, verb, &Side::Atom(&atom), right);
        if !has_item(rt, found, &one, 0, alloc) {
            return false;
        }
    }
    true
}

// Whether each item of the row stands as an atom beside the other column.
fn atoms_hold(
    rt: &impl Abort,
    alloc: Global,
    verb: Verb,
    left: &Vector,
    right: &Vector,
    wanted: &Vector,
) -> bool {
    if !goes_by_place(verb) {
        return tests_hold(rt, alloc, verb, left, right, wanted);
    }
    for i in 0..left.len() {
        if !atoms_give(rt, alloc, verb, left, right, wanted, i) {
            return false;
        }
    }
    true
}

fn two_sides_give(
    rt: &impl Abort,
    alloc: Global,
    verb: Verb,
    left: &Vector,
    right: &Vector,
    wanted: &Vector,
) -> bool {
    let found = found_of_two(rt, alloc, verb, left, right);
    if !is_wanted(found, wanted) {
        return false;
    }
    let none = found_of_no_left(rt, alloc, verb, left, right);
    let atoms = atoms_hold(rt, alloc, verb, left, right, wanted);
    atoms && is_wanted(none, &Vector::new(alloc, wanted.kind()))
}

// Whether the verb's result is that of the row, and without items is empty.
fn row_holds(rt: &impl Abort, alloc: Global, verb: Verb, row: &str) -> bool {
    let (sides, result) = row.rsplit_once("; ").unwrap_or((row, ""));
    let (left, right) = sides.split_once("; ").unwrap_or((sides, ""));
    let left = vector_of(rt, alloc, left);
    let right = vector_of(rt, alloc, right);
    let wanted = vector_of(rt, alloc, result);
    let holds = two_sides_give(rt, alloc, verb, &left, &right, &wanted);
    holds
}

// A column of one.
pub(crate) fn vector_of_atom(rt: &impl Abort, alloc: Global, atom: Atom) -> Vector {
    let mut items = Vector::new(alloc, atom.kind());
    items.push(atom).expect(rt, "memory");
    items
}

// The verb's result for the column; `None` where it doesn't take it.
pub(crate) fn found_of_one(
    rt: &impl Abort,
    alloc: Global,
    verb: Verb1,
    items: &Vector,
) -> Option<Vector> {
    if result_kind1(verb, items.kind()).is_none() {
        return None;
    }
    if gives_a_list(verb) {
        let found = unary(alloc, verb, items).expect(rt, "memory");
        return Some(found);
    }
    if gives_an_atom(verb) {
        let atom = aggregate(alloc, verb, items).expect(rt, "memory");
        let found = vector_of_atom(rt, alloc, atom);
        return Some(found);
    }
    None
}

// Whether the verb makes an atom, or of an empty column an empty one.
fn none_is_none(
    rt: &impl Abort,
    alloc: Global,
    verb: Verb1,
    items: &Vector,
    wanted: &Vector,
) -> bool {
    if !gives_a_list(verb) {
        return true;
    }
    let found = found_of_one(rt, alloc, verb, &Vector::new(alloc, items.kind()));
    is_wanted(found, &Vector::new(alloc, wanted.kind()))
}

fn row_holds_of_one(rt: &impl Abort, alloc: Global, verb: Verb1, row: &str) -> bool {
    let (items, result) = row.split_once("; ").unwrap_or((row, ""));
    let items = vector_of(rt, alloc, items);
    let wanted = vector_of(rt, alloc, result);
    let found = found_of_one(rt, alloc, verb, &items);
    if !is_wanted(found, &wanted) {
        return false;
    }
    none_is_none(rt, alloc, verb, &items, &wanted)
}

/// The first of the rows where the verb has another result.
pub(crate) fn first_wrong(
    rt: &impl Abort,
    alloc: Global,
    verb: Verb,
    rows: &[&'static str],
) -> Option<&'static str> {
    for row in rows {
        if !row_holds(rt, alloc, verb, row) {
            return Some(*row);
        }
    }
    None
}

/// The same for a verb with one side.
pub(crate) fn first_wrong_of_one(
    rt: &impl Abort,
    alloc: Global,
    verb: Verb1,
    rows: &[&'static str],
) -> Option<&'static str> {
    for row in rows {
        if !row_holds_of_one(rt, alloc, verb, row) {
            return Some(*row);
        }
    }
    None
}

#[test]
fn each_row_of_the_verbs(rt: HostRuntime) {
    for (verb, rows) in two_sides_rows::TWO_SIDES {
        assert_eq!(rt; first_wrong(&rt, rt.alloc(), verb, rows), None, "{verb:?}");
    }
    for (verb, rows) in one_side_rows::ONE_SIDE {
        assert_eq!(rt;
            first_wrong_of_one(&rt, rt.alloc(), verb, rows),
            None,
            "{verb:?}"
        );
    }
}

// Whether the kinds of the verb's results are those of the line, where the left side has this kind.
fn line_holds(verb: Verb, left: Option<Kind>, line: &str) -> bool {
    let Some(left) = left else {
        return false;
    };
    let pairs = kinds_rows::KINDS.as_bytes().iter().zip(line.as_bytes());
    for (right, letter) in pairs {
        let found = match kind_of_letter(*right) {
            Some(right) => result_kind(verb, left, right),
            None => None,
        };
        if found != kind_of_letter(*letter) {
            return false;
        }
    }
    line.len() == kinds_rows::KINDS.len()
}

fn lines_hold(verb: Verb, lines: &[&str]) -> bool {
    for (letter, line) in kinds_rows::KINDS.as_bytes().iter().zip(lines) {
        if !line_holds(verb, kind_of_letter(*letter), line) {
            return false;
        }
    }
    lines.len() == kinds_rows::KINDS.len()
}

fn line_of_one_holds(verb: Verb1, line: &str) -> bool {
    for (kind, letter) in kinds_rows::KINDS.as_bytes().iter().zip(line.as_bytes()) {
        let found = match kind_of_letter(*kind) {
            Some(kind) => result_kind1(verb, kind),
            None => None,
        };
        if found != kind_of_letter(*letter) {
            return false;
        }
    }
    line.len() == kinds_rows::KINDS.len()
}

#[test]
fn each_pair_of_kinds(rt: HostRuntime) {
    for (verb, lines) in kinds_rows::TWO_SIDES {
        assert!(rt; lines_hold(verb, lines), "{verb:?}");
    }
    for (verb, line) in kinds_rows::ONE_SIDE {
        assert!(rt; line_of_one_holds(verb, line), "{verb:?}");
    }
}
