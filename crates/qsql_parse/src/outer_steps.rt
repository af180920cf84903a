//! Steps after whole queries, and within as-of joins and subscriptions.
ghost use Rattle.std.specs.Prelude.{◌≡◌};
ghost use Rattle.qsql_tokens.specs.Views.{token_of};
ghost use Rattle.qsql_parse.specs.States.{side_of, outer_of, state_of, Steps};
ghost use Rattle.qsql_request.specs.Views.{source_of, query_of};
ghost use Rattle.qsql_tokens.specs.Parts.{is_mark};
ghost use Rattle.qsql_parse.specs.Machine.{step_source, step_end, step_side, step_query, query_source, start_with, query_verb, when, step, start};
ghost use Rattle.qsql_parse.specs.Machine.{keys_wanted, tables_wanted, names_wanted};

use crate::expression_steps::boxed;
use crate::names::{is_null_name, names_of_token};
use crate::refusal::Stop;
use crate::state::{JoinState, Outer, QueryState, Side, State, SubState};
use q_values::Names;
use qsql_request::{AjQuery, Query, Request, Source, SubRequest};
use qsql_tokens::{Mark, Token, Word};
use std::alloc::Global;

/// The given state, if the token is this mark; no request continues with another token.
pub fn expect_mark(token: &Token, mark: Mark, state: State) -> Result<State, Stop>
    ensures { Steps result (when (is_mark mark (token_of token.now)) (state_of state)) }
{
    if token.is(mark) {
        Ok(state)
    } else {
        Err(Stop::Here)
    }
}

/// The state after a source.
pub fn after_source(side: Side, source: Source, token: &Token) -> Result<State, Stop>
    ensures { Steps result (step_source (side_of side) (source_of source) (token_of token.now)) }
{
    match side {
        Side::ToLeft(keys) => expect_mark(
            token,
            Mark::Semicolon,
            State::InJoin(JoinState::SourceWanted(Side::ToRight(keys, source))),
        ),
        Side::ToRight(keys, left) => {
            let joined = AjQuery {
                keys,
                left,
                right: source,
            };
            expect_mark(token, Mark::Close, State::Done(Request::Aj(joined)))
        }
    }
}

/// The state after a query that may end here.
pub fn after_query(alloc: Global, outer: Outer, query: Query, token: &Token) -> Result<State, Stop>
    ensures { Steps result (step_end (outer_of outer) (query_of query) (token_of token.now)) }
{
    match outer {
        Outer::Alone => Err(Stop::Here),
        Outer::Bare(side) => {
            let rows = Source::Of(boxed(alloc, query)?);
            after_source(side, rows, token)
        }
        Outer::Bracketed(side) => {
            let rows = Source::Of(boxed(alloc, query)?);
            expect_mark(
                token,
                Mark::Right,
                State::InJoin(JoinState::SourceRead(side, rows)),
            )
        }
    }
}

// If the word begins a query, whether it is `exec`.
fn verb_of_query(word: Option<Word>) -> Option<bool>
    ensures { result ≡ query_verb word }
{
    match word {
        Some(Word::Select) => Some(false),
        Some(Word::Exec) => Some(true),
        _ => None,
    }
}

// The state before a source, where the token is no name.
fn before_query_source(side: Side, token: &Token) -> Result<State, Stop>
    ensures { Steps result (query_source (side_of side) (token_of token.now)) }
{
    match verb_of_query(token.word()) {
        Some(exec) => Ok(State::InQuery(Outer::Bare(side), QueryState::VerbRead(exec))),
        None => expect_mark(
            token,
            Mark::Left,
            State::InJoin(JoinState::QueryWanted(side)),
        ),
    }
}

/// The state before a source, given its first token.
pub fn before_source(side: Side, token: Token) -> Result<State, Stop>
    ensures { Steps result (step_side (side_of side) (token_of token)) }
{
    match token.into_name() {
        Ok(name) => Ok(State::InJoin(JoinState::SourceRead(side, Source::All(name)))),
        Err(other) => before_query_source(side, &other),
    }
}

/// The state before a query in parentheses, given its first token.
pub fn before_query(side: Side, token: &Token) -> Result<State, Stop>
    ensures { Steps result (step_query (side_of side) (token_of token.now)) }
{
    match verb_of_query(token.word()) {
        Some(exec) => Ok(State::InQuery(Outer::Bracketed(side), QueryState::VerbRead(exec))),
        None => Err(Stop::Here),
    }
}

// The state after the first word of a text.
fn started(word: Word) -> Result<State, Stop>
    ensures { Steps result (start_with word) }
{
    match word {
        Word::Select => Ok(State::InQuery(Outer::Alone, QueryState::VerbRead(false))),
        Word::Exec => Ok(State::InQuery(Outer::Alone, QueryState::VerbRead(true))),
        Word::Aj => Ok(State::InJoin(JoinState::Begun)),
        Word::Count => Ok(State::Done(Request::Count)),
        Word::Day => Ok(State::Done(Request::Day)),
        Word::Sub => Ok(State::InSub(SubState::Begun)),
        Word::By | Word::From | Word::Where => Err(Stop::Here),
    }
}

/// The state after the first token of a text.
pub fn at_start(token: &Token) -> Result<State, Stop>
    ensures { Steps result (step start (token_of token.now)) }
{
    match token.word() {
        Some(word) => started(word),
        None => Err(Stop::Here),
    }
}

/// The state before the keys of an as-of join, given their token.
pub fn before_keys(alloc: Global, token: &Token) -> Result<State, Stop>
    ensures { Steps result (step keys_wanted (token_of token.now)) }
{
    let keys = names_of_token(alloc, token)?;
    Ok(State::InJoin(JoinState::KeysRead(keys)))
}

/// The state before the tables of a subscription, given their token.
pub fn before_tables(alloc: Global, token: &Token) -> Result<State, Stop>
    ensures { Steps result (step tables_wanted (token_of token.now)) }
{
    let tables = names_of_token(alloc, token)?;
    Ok(State::InSub(SubState::TablesRead(tables)))
}

/// The state before the names of a subscription, given their token.
pub fn before_names(alloc: Global, tables: Names, token: &Token) -> Result<State, Stop>
    ensures { Steps result (step (names_wanted tables) (token_of token.now)) }
{
    let names = names_of_token(alloc, token)?;
    let all = is_null_name(token);
    Ok(State::InSub(SubState::NamesRead(SubRequest { tables, all, names })))
}
