//! Reading a request from its tokens, one at a time.
ghost use Rattle.std.specs.Prelude.{◌≡◌, map, []};
ghost use Rattle.qsql_tokens.specs.Views.{token_of, placed_of};
ghost use Rattle.qsql_parse.specs.States.{base_of, state_of, query_state_of, expression_state_of, join_state_of, sub_state_of, outer_of, stack_of, Steps};
ghost use Rattle.qsql_parse.specs.States.{Finds, IsFinished};
ghost use Rattle.qsql_request.specs.Views.{form, query_of, request_of};
ghost use Rattle.qsql_parse.specs.Machine.{step, start, dyad_read, whole, whole_query, whole_base, whole_expr};
ghost use Rattle.qsql_parse.specs.Reading.{reading, Reads};

use crate::expression_steps::{
    after_monad, after_term, before_expression, one_of, two_of, wanted_within,
};
use crate::outer_steps::{
    after_source, at_start, before_keys, before_names, before_query, before_source, before_tables,
    expect_mark,
};
use crate::query_steps::{
    after_name, after_number, after_table, after_verb, before_column, before_columns,
    before_number, before_table, with_condition,
};
use crate::refusal::{ParseRefusal, Stop};
use crate::state::{
    Base, ExpressionState, Frame, JoinState, Outer, QueryState, Side, Stack, State, SubState,
};
use q_verbs::Verb;
use qsql_request::{Expr, Query, Request};
use qsql_tokens::{Mark, Placed, Token};
use std::alloc::Global;
use std::collections::VecDeque;

// The state after one more token of a query.
fn next_in_query(
    alloc: Global,
    outer: Outer,
    state: QueryState,
    token: Token,
) -> Result<State, Stop>
    ensures { Steps result (step (query_state_of (outer_of outer) state) (token_of token)) }
{
    match state {
        QueryState::VerbRead(exec) => after_verb(alloc, outer, exec, token),
        QueryState::NumberWanted(exec) => before_number(outer, exec, &token),
        QueryState::NumberRead(exec, number) => after_number(alloc, outer, exec, number, &token),
        QueryState::ColumnsWanted(draft) => before_columns(alloc, outer, draft, token),
        QueryState::ColumnWanted(draft, grouped) => {
            before_column(alloc, outer, draft, grouped, token)
        }
        QueryState::NameRead(draft, grouped, name) => {
            after_name(alloc, outer, draft, grouped, name, &token)
        }
        QueryState::TableWanted(draft) => before_table(alloc, outer, draft, token),
        QueryState::TableRead(query) => after_table(alloc, outer, query, &token),
    }
}

// The state after a verb with two sides that precedes its brackets.
fn after_dyad(verb: Verb, stack: Stack, token: &Token) -> Result<State, Stop>
    ensures { Steps result (step (dyad_read verb (stack_of stack)) (token_of token.now)) }
{
    expect_mark(
        token,
        Mark::Open,
        wanted_within(stack, Frame::FirstOfTwo(verb))?,
    )
}

// The state after one more token of an expression.
fn next_in_expression(
    alloc: Global,
    stack: Stack,
    state: ExpressionState,
    token: Token,
) -> Result<State, Stop>
    ensures { Steps result (step (expression_state_of (stack_of stack) state) (token_of token)) }
{
    match state {
        ExpressionState::Wanted => before_expression(stack, token),
        ExpressionState::MonadRead(verb) => after_monad(verb, stack, token),
        ExpressionState::DyadRead(verb) => after_dyad(verb, stack, &token),
        ExpressionState::Got(expr) => after_term(alloc, expr, stack, &token),
    }
}

// The state after one more token of an as-of join.
fn next_in_join(alloc: Global, state: JoinState, token: Token) -> Result<State, Stop>
    ensures { Steps result (step (join_state_of state) (token_of token)) }
{
    match state {
        JoinState::Begun => expect_mark(&token, Mark::Open, State::InJoin(JoinState::KeysWanted)),
        JoinState::KeysWanted => before_keys(alloc, &token),
        JoinState::KeysRead(keys) => expect_mark(
            &token,
            Mark::Semicolon,
            State::InJoin(JoinState::SourceWanted(Side::ToLeft(keys))),
        ),
        JoinState::SourceWanted(side) => before_source(side, token),
        JoinState::QueryWanted(side) => before_query(side, &token),
        JoinState::SourceRead(side, source) => after_source(side, source, &token),
    }
}

// The state after one more token of a subscription.
fn next_in_sub(alloc: Global, state: SubState, token: &Token) -> Result<State, Stop>
    ensures { Steps result (step (sub_state_of state) (token_of token.now)) }
{
    match state {
        SubState::Begun => expect_mark(token, Mark::Open, State::InSub(SubState::TablesWanted)),
        SubState::TablesWanted => before_tables(alloc, token),
        SubState::TablesRead(tables) => expect_mark(
            token,
            Mark::Semicolon,
            State::InSub(SubState::NamesWanted(tables)),
        ),
        SubState::NamesWanted(tables) => before_names(alloc, tables, token),
        SubState::NamesRead(sub) => expect_mark(token, Mark::Close, State::Done(Request::Sub(sub))),
    }
}

// The state after one more token.
fn next_state(alloc: Global, state: State, token: Token) -> Result<State, Stop>
    ensures { Steps result (step (state_of state) (token_of token)) }
{
    match state {
        State::Start => at_start(&token),
        State::InQuery(outer, state) => next_in_query(alloc, outer, state, token),
        State::InExpression(stack, state) => next_in_expression(alloc, stack, state, token),
        State::InJoin(state) => next_in_join(alloc, state, token),
        State::InSub(state) => next_in_sub(alloc, state, &token),
        State::Done(_) => Err(Stop::Here),
    }
}

// The request of a query that ends the text.
fn whole_of_query(outer: Outer, query: Query) -> Result<Request, Stop>
    ensures { Finds request_of result (whole_query (outer_of outer) (query_of query)) }
{
    match outer {
        Outer::Alone => Ok(Request::Query(query)),
        Outer::Bare(_) => Err(Stop::Here),
        Outer::Bracketed(_) => Err(Stop::Here),
    }
}

// The request of a query whose last column or phrase ends the text.
fn whole_of_base(base: Base, expr: Expr) -> Result<Request, Stop>
    ensures { Finds request_of result (whole_base (base_of base) (form expr)) }
{
    match base {
        Base::Phrase(outer, query) => whole_of_query(outer, with_condition(query, expr)?),
        Base::Column(_, _, _, _) => Err(Stop::Here),
    }
}

// The request of a query whose last expression ends the text.
fn whole_of_expression(alloc: Global, mut stack: Stack, mut expr: Expr) -> Result<Request, Stop>
    ensures { Finds request_of result (whole_expr (stack_of stack) (form expr)) }
{
    // A loop, so that a long expression takes little of the stack.
    loop {
        match stack.frames.pop_front() {
            None => return whole_of_base(stack.base, expr),
            Some(Frame::RightOf(verb, left)) => expr = two_of(alloc, verb, left, expr)?,
            Some(Frame::Under(verb)) => expr = one_of(alloc, verb, expr)?,
            Some(Frame::InBrackets) => return Err(Stop::Here),
            Some(Frame::Applied(_)) => return Err(Stop::Here),
            Some(Frame::FirstOfTwo(_)) => return Err(Stop::Here),
            Some(Frame::SecondOfTwo(_, _)) => return Err(Stop::Here),
        }
    }
}

// The request of a query where the text ends, if it may end there.
fn whole_in_query(outer: Outer, state: QueryState) -> Result<Request, Stop>
    ensures { Finds request_of result (whole (query_state_of (outer_of outer) state)) }
{
    match state {
        QueryState::TableRead(query) => whole_of_query(outer, query),
        QueryState::VerbRead(_) => Err(Stop::Here),
        QueryState::NumberWanted(_) => Err(Stop::Here),
        QueryState::NumberRead(_, _) => Err(Stop::Here),
        QueryState::ColumnsWanted(_) => Err(Stop::Here),
        QueryState::ColumnWanted(_, _) => Err(Stop::Here),
        QueryState::NameRead(_, _, _) => Err(Stop::Here),
        QueryState::TableWanted(_) => Err(Stop::Here),
    }
}

// The expression that has been read, if it may end here.
fn finished(state: ExpressionState) -> Option<Expr>
    ensures { IsFinished result state }
{
    match state {
        ExpressionState::Got(expr) => Some(expr),
        ExpressionState::Wanted => None,
        ExpressionState::MonadRead(_) => None,
        ExpressionState::DyadRead(_) => None,
    }
}

// The request of a query where the text ends within an expression, if it may end there.
fn whole_in_expression(alloc: Global, stack: Stack, state: ExpressionState) -> Result<Request, Stop>
    ensures { Finds request_of result (whole (expression_state_of (stack_of stack) state)) }
{
    match finished(state) {
        Some(expr) => whole_of_expression(alloc, stack, expr),
        None => Err(Stop::Here),
    }
}

// No request: an as-of join doesn't end before its bracket.
fn whole_in_join(state: JoinState) -> Result<Request, Stop>
    ensures { Finds request_of result (whole (join_state_of state)) }
{
    match state {
        JoinState::Begun => Err(Stop::Here),
        JoinState::KeysWanted => Err(Stop::Here),
        JoinState::KeysRead(_) => Err(Stop::Here),
        JoinState::SourceWanted(_) => Err(Stop::Here),
        JoinState::QueryWanted(_) => Err(Stop::Here),
        JoinState::SourceRead(_, _) => Err(Stop::Here),
    }
}

// No request: a subscription doesn't end before its bracket.
fn whole_in_sub(state: SubState) -> Result<Request, Stop>
    ensures { Finds request_of result (whole (sub_state_of state)) }
{
    match state {
        SubState::Begun => Err(Stop::Here),
        SubState::TablesWanted => Err(Stop::Here),
        SubState::TablesRead(_) => Err(Stop::Here),
        SubState::NamesWanted(_) => Err(Stop::Here),
        SubState::NamesRead(_) => Err(Stop::Here),
    }
}

// The request that has been read, if the text may end here.
fn whole_of(alloc: Global, state: State) -> Result<Request, Stop>
    ensures { Finds request_of result (whole (state_of state)) }
{
    match state {
        State::Done(request) => Ok(request),
        State::InQuery(outer, state) => whole_in_query(outer, state),
        State::InExpression(stack, state) => whole_in_expression(alloc, stack, state),
        State::InJoin(state) => whole_in_join(state),
        State::InSub(state) => whole_in_sub(state),
        State::Start => Err(Stop::Here),
    }
}

// The request, given the offset where the text ends.
fn ended(alloc: Global, state: State, end: usize) -> Result<Request, ParseRefusal>
    ensures { Reads result (reading (state_of state) [] end) }
{
    match whole_of(alloc, state) {
        Ok(request) => Ok(request),
        Err(Stop::Here) => Err(ParseRefusal::Parse(end)),
        Err(Stop::NoMemory) => Err(ParseRefusal::NoMemory),
    }
}

/// The request of these tokens of a text with `end` bytes, or the offset of the first token with which no request continues,
/// which is `end` where the text ends too early.
pub fn read_request(
    alloc: Global,
    tokens: VecDeque<Placed>,
    end: usize,
) -> Result<Request, ParseRefusal>
    ensures { Reads result (reading start (map placed_of tokens.items) end) }
{
    let mut tokens = tokens;
    let mut state = State::Start;
    while let Some(placed) = tokens.pop_front() {
        match next_state(alloc, state, placed.token) {
            Ok(next) => state = next,
            Err(Stop::Here) => return Err(ParseRefusal::Parse(placed.place)),
            Err(Stop::NoMemory) => return Err(ParseRefusal::NoMemory),
        }
    }
    ended(alloc, state, end)
}
