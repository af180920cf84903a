//! A query without its phrases, for rows that they have kept.
ghost use Rattle.std.specs.Prelude.{◌≡◌, map, IfOk, IsOkAnd};
ghost use Rattle.q_values.specs.Tree.{tree};
ghost use Rattle.qsql_request.specs.Forms.{constant, column, one, two};
ghost use Rattle.qsql_request.specs.Views.{form, column_form, query_of};
ghost use Rattle.gateway.specs.Kept.{after_phrases};

use q_values::{NoMemory, Sym, Value};
use q_verbs::{Verb, Verb1};
use qsql_request::{Col, Cols, Expr, Exprs, Query};
use std::alloc::Global;
use std::mem::replace;

// A copy of a literal: an atom or a vector, as no other value has a verb.
fn literal_copied(alloc: Global, literal: &Value) -> Result<Value, NoMemory>
    ensures { IfOk result (λ v. tree v ≡ tree literal.now) }
{
    match literal {
        Value::Atom(atom) => Ok(Value::Atom(atom.copy(alloc)?)),
        Value::Vector(vector) => Ok(Value::Vector(vector.take(alloc, 0, vector.len())?)),
        _ => Err(NoMemory),
    }
}

fn literal_of(alloc: Global, literal: &Value) -> Result<Expr, NoMemory>
    ensures { IfOk result (λ e. form e ≡ constant (tree literal.now)) }
{
    Ok(Expr::Literal(literal_copied(alloc, literal)?))
}

// Out of line, as are those below, so that a level of `expr_into` takes little of the stack.
#[inline(never)]
fn literal_into(alloc: Global, literal: &Value, out: &mut Result<Expr, NoMemory>)
    ensures { IfOk out.new (λ e. form e ≡ constant (tree literal.now)) }
{
    *out = literal_of(alloc, literal);
}

fn name_of(alloc: Global, name: &Sym) -> Result<Expr, NoMemory>
    ensures { IfOk result (λ e. form e ≡ column name.now) }
{
    Ok(Expr::Name(Sym::copied(alloc, name.bytes())?))
}

#[inline(never)]
fn name_into(alloc: Global, name: &Sym, out: &mut Result<Expr, NoMemory>)
    ensures { IfOk out.new (λ e. form e ≡ column name.now) }
{
    *out = name_of(alloc, name);
}

fn one_of(alloc: Global, verb: Verb1, side: Expr) -> Result<Expr, NoMemory>
    ensures { IfOk result (λ e. form e ≡ one verb (form side)) }
{
    Ok(Expr::One(verb, Box::new(alloc, side)?))
}

// A verb on its side, in the place of the side.
#[inline(never)]
fn on_side(alloc: Global, verb: Verb1, out: &mut Result<Expr, NoMemory>)
    ensures { IfOk out.new (λ e. IsOkAnd out.old (λ x. form e ≡ one verb (form x))) }
{
    if let Ok(side) = replace(out, Err(NoMemory)) {
        *out = one_of(alloc, verb, side);
    }
}

fn two_of(alloc: Global, verb: Verb, left: Expr, right: Expr) -> Result<Expr, NoMemory>
    ensures { IfOk result (λ e. form e ≡ two verb (form left) (form right)) }
{
    Ok(Expr::Two(verb, Box::new(alloc, left)?, Box::new(alloc, right)?))
}

// A verb between its sides, where the left one is copied, in the place of the right one.
#[inline(never)]
fn on_sides(
    alloc: Global,
    verb: Verb,
    left: Result<Expr, NoMemory>,
    out: &mut Result<Expr, NoMemory>,
)
    ensures { IfOk out.new (λ e. IsOkAnd left (λ x. IsOkAnd out.old (λ y. form e ≡ two verb (form x) (form y)))) }
{
    let right = replace(out, Err(NoMemory));
    if let Ok(left) = left {
        if let Ok(right) = right {
            *out = two_of(alloc, verb, left, right);
        }
    }
}

#[cycle(expr_copied)]
#[inline(never)]
fn two_into(alloc: Global, verb: Verb, left: &Expr, right: &Expr, out: &mut Result<Expr, NoMemory>)
    ensures { IfOk out.new (λ e. form e ≡ two verb (form left.now) (form right.now)) }
{
    expr_into(alloc, right, out);
    on_sides(alloc, verb, expr_copied(alloc, left), out);
}

// The copy of an expression, written where that of its right side was: a level takes none of the stack for a copy.
#[cycle(expr_copied)]
#[inline(never)]
fn expr_into(alloc: Global, expr: &Expr, out: &mut Result<Expr, NoMemory>)
    ensures { IfOk out.new (λ e. form e ≡ form expr.now) }
{
    match expr {
        Expr::Literal(literal) => literal_into(alloc, literal, out),
        Expr::Name(name) => name_into(alloc, name, out),
        Expr::One(verb, side) => {
            expr_into(alloc, side, out);
            on_side(alloc, *verb, out);
        }
        Expr::Two(verb, left, right) => two_into(alloc, *verb, left, right, out),
    }
}

#[cycle(expr_copied)]
fn expr_copied(alloc: Global, expr: &Expr) -> Result<Expr, NoMemory>
    ensures { IfOk result (λ e. form e ≡ form expr.now) }
{
    let mut copy = Err(NoMemory);
    expr_into(alloc, expr, &mut copy);
    copy
}

fn name_copied(alloc: Global, name: &Option<Sym>) -> Result<Option<Sym>, NoMemory>
    ensures { IfOk result (λ copied. copied ≡ name.now) }
{
    match name {
        Some(name) => Ok(Some(Sym::copied(alloc, name.bytes())?)),
        None => Ok(None),
    }
}

fn column_copied(alloc: Global, column: &Col) -> Result<Col, NoMemory>
    ensures { IfOk result (λ copied. column_form copied ≡ column_form column.now) }
{
    let name = name_copied(alloc, &column.name)?;
    let expr = expr_copied(alloc, &column.expr)?;
    Ok(Col { name, expr })
}

fn columns_copied(alloc: Global, columns: &[Col]) -> Result<Cols, NoMemory>
    ensures { IfOk result (λ copied. map column_form copied ≡ map column_form columns.now) }
{
    let mut copied = Cols::with_capacity(alloc, columns.len())?;
    for column in columns {
        copied.push(column_copied(alloc, column)?)?;
    }
    Ok(copied)
}

/// The query without its phrases.
pub fn without_phrases(alloc: Global, query: &Query) -> Result<Query, NoMemory>
    ensures { IfOk result (λ rest. query_of rest ≡ after_phrases (query_of query.now)) }
{
    let columns = columns_copied(alloc, query.columns.as_slice())?;
    let by = columns_copied(alloc, query.by.as_slice())?;
    let table = Sym::copied(alloc, query.table.bytes())?;
    Ok(Query {
        exec: query.exec,
        first: query.first,
        columns,
        by,
        table,
        phrases: Exprs::new(alloc),
    })
}
