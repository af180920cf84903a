//! The names of a symbol literal.
ghost use Rattle.std.specs.Prelude.{◌≡◌, ◌∷◌, [], map, IfOk};
ghost use Rattle.q_values.specs.Tree.{tree};
ghost use Rattle.qsql_parse.specs.Grammar.{symbol_of, is_null_symbol, is_null_tree, is_null_atom};
ghost use Rattle.qsql_tokens.specs.Views.{token_of};
ghost use Rattle.qsql_parse.specs.States.{Finds};
ghost use Rattle.qsql_parse.specs.Machine.{symbols_of, names_of};
ghost use Rattle.qsql_parse.specs.Machine;

use crate::refusal::Stop;
use q_values::{Atom, Kind, Names, NoMemory, Sym, Value, Vector};
use qsql_tokens::Token;
use std::alloc::Global;

fn copy_of(alloc: Global, name: &Sym) -> Result<Sym, NoMemory>
    ensures { IfOk result (λ s. s ≡ name.now) }
{
    Sym::copied(alloc, name.bytes())
}

// The name of an atom; empty where it is no symbol.
fn name_of_atom(alloc: Global, atom: &Atom) -> Result<Sym, NoMemory>
    ensures { IfOk result (λ s. s ≡ symbol_of atom.now) }
{
    match atom {
        Atom::Symbol(name) => copy_of(alloc, name),
        _ => Sym::copied(alloc, &[]),
    }
}

fn is_symbols(kind: Kind) -> bool
    ensures { result ≡ Machine.is_symbols kind }
{
    matches!(kind, Kind::Symbol)
}

// The names of a vector's atoms; empty where they are no symbols.
fn names_of_vector(alloc: Global, vector: &Vector) -> Result<Names, NoMemory>
    ensures { IfOk result (λ names. names ≡ map symbol_of vector.now.atoms) }
{
    let mut names = Names::new(alloc);
    for i in 0..vector.len() {
        let atom = vector.at(alloc, i)?;
        names.push(name_of_atom(alloc, &atom)?)?;
    }
    Ok(names)
}

fn one_name(alloc: Global, atom: &Atom) -> Result<Names, NoMemory>
    ensures { IfOk result (λ names. names ≡ symbol_of atom.now ∷ []) }
{
    let mut names = Names::new(alloc);
    names.push(name_of_atom(alloc, atom)?)?;
    Ok(names)
}

fn names_of_value(alloc: Global, value: &Value) -> Result<Names, Stop>
    ensures { Finds (λ names. names) result (names_of (tree value.now)) }
{
    match value {
        Value::Atom(atom) if is_symbols(atom.kind()) => Ok(one_name(alloc, atom)?),
        Value::Vector(vector) if is_symbols(vector.kind()) => Ok(names_of_vector(alloc, vector)?),
        Value::Atom(_) => Err(Stop::Here),
        Value::Vector(_) => Err(Stop::Here),
        Value::List(_) => Err(Stop::Here),
        Value::Dict(_) => Err(Stop::Here),
        Value::Table(_) => Err(Stop::Here),
        Value::Keyed(_) => Err(Stop::Here),
        Value::Identity => Err(Stop::Here),
        Value::Wrong(_) => Err(Stop::Here),
    }
}

/// The names of a token that is a symbol literal: one for an atom, any number for a vector.
pub fn names_of_token(alloc: Global, token: &Token) -> Result<Names, Stop>
    ensures { Finds (λ names. names) result (symbols_of (token_of token.now)) }
{
    match token {
        Token::Literal(value) => names_of_value(alloc, value),
        Token::Number(_) => Err(Stop::Here),
        Token::Name(_) => Err(Stop::Here),
        Token::Monad(_) => Err(Stop::Here),
        Token::Sign(_) => Err(Stop::Here),
        Token::Dyad(_) => Err(Stop::Here),
        Token::Word(_) => Err(Stop::Here),
        Token::Mark(_) => Err(Stop::Here),
    }
}

fn is_null(atom: &Atom) -> bool
    ensures { result ≡ is_null_atom atom.now }
{
    match atom {
        Atom::Symbol(name) => name.bytes().len() == 0,
        _ => false,
    }
}

fn is_null_value(value: &Value) -> bool
    ensures { result ≡ is_null_tree (tree value.now) }
{
    match value {
        Value::Atom(atom) => is_null(atom),
        Value::Vector(_) => false,
        Value::List(_) => false,
        Value::Dict(_) => false,
        Value::Table(_) => false,
        Value::Keyed(_) => false,
        Value::Identity => false,
        Value::Wrong(_) => false,
    }
}

/// Whether the token is the null symbol as an atom, which stands for all names.
pub fn is_null_name(token: &Token) -> bool
    ensures { result ≡ is_null_symbol (token_of token.now) }
{
    match token {
        Token::Literal(value) => is_null_value(value),
        Token::Number(_) => false,
        Token::Name(_) => false,
        Token::Monad(_) => false,
        Token::Sign(_) => false,
        Token::Dyad(_) => false,
        Token::Word(_) => false,
        Token::Mark(_) => false,
    }
}
