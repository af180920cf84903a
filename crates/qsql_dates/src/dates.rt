//! The dates that phrases keep.
ghost use Rattle.std.specs.Prelude.{◌≡◌, true, map, All, IfOk, [], ◌∷◌};
ghost use Rattle.std.specs.List.{list_all};
ghost use Rattle.q_values.specs.Tree.{tree, vector};
ghost use Rattle.q_values.specs.declared.kind.Kind.TheVariants as k;
ghost use Rattle.qsql_request.specs.Views.{form};
ghost use Rattle.qsql_values.specs.Operands.{operand_tree, kind_of_tree};
ghost use Rattle.qsql_values.specs.Values.{truths};
ghost use Rattle.qsql_dates.specs.Dates;
ghost use Rattle.qsql_dates.specs.Dates.{names_date, fits_verb, date_column, IsDateTest};

use q_values::{Atom, Column, IntegerKind, NoMemory, Sym, Value, Vector};
use q_verbs::Verb;
use qsql_request::{Expr, is_test};
use qsql_values::{Operand, Scope, value_of};
use std::alloc::Global;

fn names_date(expr: &Expr) -> bool
    ensures { result ≡ names_date (form expr.now) }
{
    match expr {
        Expr::Name(name) => name.bytes() == b"date".as_slice(),
        Expr::Literal(_) => false,
        Expr::One(..) => false,
        Expr::Two(..) => false,
    }
}

// Whether it is a literal that a verb may have at its right: an atom, or a list for a test.
fn fits_verb(verb: Verb, expr: &Expr) -> bool
    ensures { result ≡ fits_verb verb (form expr.now) }
{
    match expr {
        Expr::Literal(value) => is_test(verb) || matches!(value, Value::Atom(_)),
        Expr::Name(_) => false,
        Expr::One(..) => false,
        Expr::Two(..) => false,
    }
}

fn is_date_phrase(expr: &Expr) -> bool
    ensures { result ≡ Dates.is_date_phrase (form expr.now) }
{
    match expr {
        Expr::Two(verb, left, right) => names_date(left) && fits_verb(*verb, right),
        Expr::Literal(_) => false,
        Expr::Name(_) => false,
        Expr::One(..) => false,
    }
}

// The column `date` of one row.
fn column_of_date(alloc: Global, date: i32) -> Result<Vector, NoMemory>
    ensures { IfOk result (λ v. v ≡ date_column (date ∷ [])) }
{
    let dates = vec![in alloc; date; 1]?;
    Ok(Vector::from_column(Column::Integers(IntegerKind::Date, dates)))
}

fn are_true(flags: &[bool]) -> bool
    ensures { result ≡ list_all (λ b. b) flags.now }
{
    flags.iter().all(|flag| *flag)
}

// The flags of a test.
#[tactic(auto, using(crate::proofs::DateLemmas::flags_kept))]
fn flags_of(test: &Vector) -> &[bool]
    requires { test.now.kind ≡ k.Boolean }
    ensures { result.now ≡ truths (vector test.now) }
{
    match test.column() {
        Column::Booleans(flags) => flags,
        _ => unreachable!(),
    }
}

// Whether a boolean value has no item but true ones.
fn is_all_true(value: &Operand) -> bool
    requires { kind_of_tree (operand_tree value.now) ≡ k.Boolean }
    ensures { result ≡ list_all (λ b. b) (truths (operand_tree value.now)) }
{
    match value {
        Operand::Atom(atom) => matches!(atom, Atom::Boolean(true)),
        Operand::Column(held) => are_true(flags_of(held.vector())),
    }
}

// Whether a phrase holds at the rows of a date.
fn holds_on(alloc: Global, phrase: &Expr, date: i32) -> Result<bool, NoMemory>
    requires { IsDateTest date (form phrase.now) }
    ensures { IfOk result (λ b. b ≡ Dates.holds_on date (form phrase.now)) }
{
    let name = Sym::copied(alloc, b"date")?;
    let column = column_of_date(alloc, date)?;
    let names = [name];
    let columns = [column];
    let scope = Scope::new(&names, &columns);
    let value = value_of(alloc, phrase, &scope)?;
    Ok(is_all_true(&value))
}

/// Whether the first phrases, as long as they are date phrases, all hold at the rows of a date (in days since 2000.01.01).
pub fn keeps(alloc: Global, phrases: &[Expr], date: i32) -> Result<bool, NoMemory>
    requires { All (λ p. Dates.is_date_phrase (form p) ≡ true → IsDateTest date (form p)) phrases.now }
    ensures { IfOk result (λ b. b ≡ Dates.keeps (map form phrases.now) date) }
{
    for phrase in phrases {
        if !is_date_phrase(phrase) {
            return Ok(true);
        }
        if !holds_on(alloc, phrase, date)? {
            return Ok(false);
        }
    }
    Ok(true)
}
