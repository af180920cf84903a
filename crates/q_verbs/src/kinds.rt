//! Which kinds a verb takes, and the kind of its result.
ghost use Rattle.std.specs.Prelude.{◌≡◌};
ghost use Rattle.q_verbs.specs.Kinds.{is_num, is_whole, is_length, is_temporal, is_number, are, wide, wider};
ghost use Rattle.q_verbs.specs.Kinds.{sum_kind, difference_kind, product_kind, quotient_kind, remainder_kind, multiple_kind};
ghost use Rattle.q_verbs.specs.Kinds.{choice_kind, comparison_kind, match_kind, result_kind_of, negated_kind, total_kind, result_kind1_of};

use crate::verb::{Verb, Verb1};
use q_values::Kind;

// Boolean, short, int and long.
fn has_num(x: Kind) -> bool
    ensures { result ≡ is_num x }
{
    matches!(x, Kind::Boolean | Kind::Short | Kind::Integer | Kind::Long)
}

// Those and byte.
fn has_whole(x: Kind) -> bool
    ensures { result ≡ is_whole x }
{
    has_num(x) || x == Kind::Byte
}

// The kinds that are a length of time.
fn has_length(x: Kind) -> bool
    ensures { result ≡ is_length x }
{
    matches!(x, Kind::Timespan | Kind::Minute | Kind::Second | Kind::Time)
}

// Those and the kinds that are a point in time.
fn has_temporal(x: Kind) -> bool
    ensures { result ≡ is_temporal x }
{
    matches!(x, Kind::Timestamp | Kind::Month | Kind::Date) || has_length(x)
}

// Every kind but symbol and character.
fn has_number(x: Kind) -> bool
    ensures { result ≡ is_number x }
{
    !matches!(x, Kind::Symbol | Kind::Character)
}

/// Whether the left side has the kind `a` and the right side the kind `b`.
pub fn have(a: Kind, b: Kind, left: Kind, right: Kind) -> bool
    ensures { result ≡ are a b left right }
{
    left == a && right == b
}

fn wide_of(left: Kind, right: Kind) -> Kind
    ensures { result ≡ wide left right }
{
    if left == Kind::Long || right == Kind::Long {
        Kind::Long
    } else {
        Kind::Integer
    }
}

fn wider_of(left: Kind, right: Kind) -> Kind
    ensures { result ≡ wider left right }
{
    if left.type_number() < right.type_number() {
        right
    } else {
        left
    }
}

fn kind_of_sum(left: Kind, right: Kind) -> Option<Kind>
    ensures { result ≡ sum_kind left right }
{
    if has_num(left) && has_num(right) {
        Some(wide_of(left, right))
    } else if has_num(left) && has_temporal(right) {
        Some(right)
    } else if has_temporal(left) && has_num(right) {
        Some(left)
    } else if have(Kind::Date, Kind::Timespan, left, right)
        || have(Kind::Timespan, Kind::Date, left, right)
    {
        Some(Kind::Timestamp)
    } else if have(Kind::Timestamp, Kind::Timespan, left, right)
        || have(Kind::Timespan, Kind::Timestamp, left, right)
    {
        Some(Kind::Timestamp)
    } else if has_length(left) && left == right {
        Some(left)
    } else {
        None
    }
}

fn kind_of_difference(left: Kind, right: Kind) -> Option<Kind>
    ensures { result ≡ difference_kind left right }
{
    if has_num(left) && has_num(right) {
        Some(wide_of(left, right))
    } else if has_temporal(left) && has_num(right) {
        Some(left)
    } else if have(Kind::Date, Kind::Date, left, right)
        || have(Kind::Month, Kind::Month, left, right)
    {
        Some(Kind::Integer)
    } else if have(Kind::Timestamp, Kind::Timestamp, left, right) {
        Some(Kind::Timespan)
    } else if have(Kind::Timestamp, Kind::Timespan, left, right) {
        Some(Kind::Timestamp)
    } else if has_length(left) && left == right {
        Some(left)
    } else {
        None
    }
}

fn kind_of_product(left: Kind, right: Kind) -> Option<Kind>
    ensures { result ≡ product_kind left right }
{
    if has_num(left) && has_num(right) {
        Some(wide_of(left, right))
    } else if has_num(left) && has_length(right) {
        Some(right)
    } else if has_length(left) && has_num(right) {
        Some(left)
    } else {
        None
    }
}

fn kind_of_quotient(left: Kind, right: Kind) -> Option<Kind>
    ensures { result ≡ quotient_kind left right }
{
    if !(has_num(left) && has_num(right)) {
        None
    } else if left == Kind::Long {
        Some(Kind::Long)
    } else {
        Some(Kind::Integer)
    }
}

fn kind_of_remainder(left: Kind, right: Kind) -> Option<Kind>
    ensures { result ≡ remainder_kind left right }
{
    if has_num(left) && has_num(right) {
        Some(wide_of(left, right))
    } else {
        None
    }
}

fn kind_of_multiple(left: Kind, right: Kind) -> Option<Kind>
    ensures { result ≡ multiple_kind left right }
{
    if has_num(left) && has_num(right) {
        Some(wide_of(left, right))
    } else if has_num(left) && has_temporal(right) {
        Some(right)
    } else if left == Kind::Timespan && (right == Kind::Timespan || right == Kind::Timestamp) {
        Some(right)
    } else {
        None
    }
}

fn kind_of_choice(left: Kind, right: Kind) -> Option<Kind>
    ensures { result ≡ choice_kind left right }
{
    if left == right {
        if has_number(left) { Some(left) } else { None }
    } else if has_num(left) && has_num(right) {
        Some(wider_of(left, right))
    } else {
        None
    }
}

fn kind_of_comparison(left: Kind, right: Kind) -> Option<Kind>
    ensures { result ≡ comparison_kind left right }
{
    if left == right || (has_whole(left) && has_whole(right)) {
        Some(Kind::Boolean)
    } else {
        None
    }
}

fn kind_of_match(left: Kind, right: Kind) -> Option<Kind>
    ensures { result ≡ match_kind left right }
{
    if have(Kind::Symbol, Kind::Character, left, right) {
        Some(Kind::Boolean)
    } else {
        None
    }
}

/// The kind of the verb's result where its sides have these kinds; `None` where the verb doesn't take them.
pub fn result_kind(verb: Verb, left: Kind, right: Kind) -> Option<Kind>
    ensures { result ≡ result_kind_of verb left right }
{
    match verb {
        Verb::Add => kind_of_sum(left, right),
        Verb::Sub => kind_of_difference(left, right),
        Verb::Mul => kind_of_product(left, right),
        Verb::Div => kind_of_quotient(left, right),
        Verb::Mod => kind_of_remainder(left, right),
        Verb::Xbar => kind_of_multiple(left, right),
        Verb::Eq | Verb::Ne | Verb::Lt | Verb::Gt | Verb::Le | Verb::Ge | Verb::In | Verb::Within =>
            { kind_of_comparison(left, right) }
        Verb::Lesser | Verb::Greater => kind_of_choice(left, right),
        Verb::Like => kind_of_match(left, right),
    }
}

fn kind_of_negated(kind: Kind) -> Option<Kind>
    ensures { result ≡ negated_kind kind }
{
    if kind == Kind::Boolean {
        Some(Kind::Integer)
    } else if has_num(kind) || has_length(kind) {
        Some(kind)
    } else {
        None
    }
}

fn kind_of_total(kind: Kind) -> Option<Kind>
    ensures { result ≡ total_kind kind }
{
    if kind == Kind::Long || kind == Kind::Timespan {
        Some(kind)
    } else if has_num(kind) {
        Some(Kind::Integer)
    } else {
        None
    }
}

/// The kind of the verb's result where its side has this kind; `None` where the verb doesn't take it.
pub fn result_kind1(verb: Verb1, kind: Kind) -> Option<Kind>
    ensures { result ≡ result_kind1_of verb kind }
{
    match verb {
        Verb1::Not if has_whole(kind) => Some(Kind::Boolean),
        Verb1::Not => None,
        Verb1::Neg => kind_of_negated(kind),
        Verb1::Count => Some(Kind::Long),
        Verb1::Sum => kind_of_total(kind),
        Verb1::Min | Verb1::Max if has_number(kind) => Some(kind),
        Verb1::Min | Verb1::Max => None,
        Verb1::First | Verb1::Last | Verb1::Distinct => Some(kind),
    }
}
