//! Steps within expressions.
ghost use Rattle.std.specs.Prelude.{◌≡◌, IfOk};
ghost use Rattle.qsql_tokens.specs.Views.{token_of};
ghost use Rattle.qsql_parse.specs.States.{around, stack_of, state_of, Steps};
ghost use Rattle.qsql_request.specs.Forms.{one, two};
ghost use Rattle.qsql_request.specs.Views.{form};
ghost use Rattle.qsql_parse.specs.Machine.{got, wanted, step_close, step_got, step_wanted, step_monad};
ghost use Rattle.qsql_tokens.specs.Tokens;

use crate::outer_steps::expect_mark;
use crate::query_steps::after_base;
use crate::refusal::Stop;
use crate::state::{ExpressionState, Frame, Stack, State};
use q_values::{Atom, NoMemory, Value};
use q_verbs::{Verb, Verb1};
use qsql_request::Expr;
use qsql_tokens::{Mark, Token};
use std::alloc::Global;

/// The value in a box of its own.
pub fn boxed<T: Drop>(alloc: Global, value: T) -> Result<Box<T>, NoMemory>
    ensures { IfOk result (λ boxed. boxed.value ≡ value) }
{
    Ok(Box::new(alloc, value)?)
}

/// The expression of a verb with one side.
pub fn one_of(alloc: Global, verb: Verb1, side: Expr) -> Result<Expr, NoMemory>
    ensures { IfOk result (λ expr. form expr ≡ one verb (form side)) }
{
    Ok(Expr::One(verb, Box::new(alloc, side)?))
}

/// The expression of a verb with two sides.
pub fn two_of(alloc: Global, verb: Verb, left: Expr, right: Expr) -> Result<Expr, NoMemory>
    ensures { IfOk result (λ expr. form expr ≡ two verb (form left) (form right)) }
{
    Ok(Expr::Two(verb, Box::new(alloc, left)?, Box::new(alloc, right)?))
}

// After a term in brackets, within what the brackets are part of.
fn got_in(stack: Stack, expr: Expr) -> State
    ensures { state_of result ≡ got (form expr) (stack_of stack) }
{
    State::InExpression(stack, ExpressionState::Got(expr))
}

/// The state before an expression within this frame.
pub fn wanted_within(stack: Stack, frame: Frame) -> Result<State, NoMemory>
    ensures { IfOk result (λ state. state_of state ≡ wanted (around frame (stack_of stack))) }
{
    Ok(State::InExpression(stack.with(frame)?, ExpressionState::Wanted))
}

/// The state after an expression that ends with this token: the verbs before it take it as their right side.
pub fn after_expression(
    alloc: Global,
    mut stack: Stack,
    mut expr: Expr,
    token: &Token,
) -> Result<State, Stop>
    ensures { Steps result (step_close (stack_of stack) (form expr) (token_of token.now)) }
{
    // A loop, so that a long expression takes little of the stack.
    loop {
        match stack.frames.pop_front() {
            None => return after_base(alloc, stack.base, expr, token),
            Some(Frame::RightOf(verb, left)) => expr = two_of(alloc, verb, left, expr)?,
            Some(Frame::Under(verb)) => expr = one_of(alloc, verb, expr)?,
            Some(Frame::InBrackets) => {
                return expect_mark(token, Mark::Right, got_in(stack, expr));
            }
            Some(Frame::Applied(verb)) => {
                let one = one_of(alloc, verb, expr)?;
                return expect_mark(token, Mark::Close, got_in(stack, one));
            }
            Some(Frame::FirstOfTwo(verb)) => {
                let second = wanted_within(stack, Frame::SecondOfTwo(verb, expr))?;
                return expect_mark(token, Mark::Semicolon, second);
            }
            Some(Frame::SecondOfTwo(verb, left)) => {
                let both = two_of(alloc, verb, left, expr)?;
                return expect_mark(token, Mark::Close, got_in(stack, both));
            }
        }
    }
}

/// The state after a term: a verb takes it as its left side, and any other token ends the expression.
pub fn after_term(alloc: Global, expr: Expr, stack: Stack, token: &Token) -> Result<State, Stop>
    ensures { Steps result (step_got (form expr) (stack_of stack) (token_of token.now)) }
{
    match token.verb() {
        Some(verb) => Ok(wanted_within(stack, Frame::RightOf(verb, expr))?),
        None => after_expression(alloc, stack, expr, token),
    }
}

// The state before an expression, where the next token is a mark.
fn before_mark(stack: Stack, mark: Mark) -> Result<State, Stop>
    ensures { Steps result (step_wanted (stack_of stack) (Tokens.mark mark)) }
{
    match mark {
        Mark::Left => Ok(wanted_within(stack, Frame::InBrackets)?),
        _ => Err(Stop::Here),
    }
}

/// The state before an expression, given its first token.
pub fn before_expression(stack: Stack, token: Token) -> Result<State, Stop>
    ensures { Steps result (step_wanted (stack_of stack) (token_of token)) }
{
    match token {
        Token::Number(number) => Ok(State::InExpression(
            stack,
            ExpressionState::Got(Expr::Literal(Value::Atom(Atom::Long(number)))),
        )),
        Token::Literal(value) => Ok(State::InExpression(
            stack,
            ExpressionState::Got(Expr::Literal(value)),
        )),
        Token::Name(name) => Ok(State::InExpression(stack, ExpressionState::Got(Expr::Name(name)))),
        Token::Monad(verb) => Ok(State::InExpression(stack, ExpressionState::MonadRead(verb))),
        Token::Sign(_) => Err(Stop::Here),
        Token::Dyad(verb) => Ok(State::InExpression(stack, ExpressionState::DyadRead(verb))),
        Token::Word(_) => Err(Stop::Here),
        Token::Mark(mark) => before_mark(stack, mark),
    }
}

/// The state after a verb with one side, which has brackets or takes the expression that follows.
pub fn after_monad(verb: Verb1, stack: Stack, token: Token) -> Result<State, Stop>
    ensures { Steps result (step_monad verb (stack_of stack) (token_of token)) }
{
    if token.is(Mark::Open) {
        Ok(wanted_within(stack, Frame::Applied(verb))?)
    } else {
        before_expression(stack.with(Frame::Under(verb))?, token)
    }
}
