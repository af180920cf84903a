//! Steps within a query.
ghost use Rattle.std.specs.Prelude.{◌≡◌, IfOk};
ghost use Rattle.qsql_tokens.specs.Views.{token_of};
ghost use Rattle.qsql_parse.specs.States.{state_of, base_of, outer_of, draft_of, Steps};
ghost use Rattle.qsql_request.specs.Views.{form, query_of};
ghost use Rattle.qsql_parse.specs.Machine.{step, step_base, step_columns, step_column, step_name, step_selected, step_verb, step_table, is_from};
ghost use Rattle.qsql_parse.specs.Machine.{is_by, is_where, grown, with_table, with_phrase, fresh, wanted, base, of_phrase};
ghost use Rattle.qsql_parse.specs.Machine.{table_wanted, number_wanted, number_read};

use crate::expression_steps::{after_term, before_expression};
use crate::outer_steps::{after_query, expect_mark};
use crate::refusal::Stop;
use crate::state::{Base, Draft, ExpressionState, Outer, QueryState, Stack, State};
use q_values::{NoMemory, Sym};
use qsql_request::{Col, Cols, Expr, Exprs, Query};
use qsql_tokens::{Mark, Token, Word};
use std::alloc::Global;

fn is_from_word(word: Option<Word>) -> bool
    ensures { result ≡ is_from word }
{
    matches!(word, Some(Word::From))
}

fn is_by_word(word: Option<Word>) -> bool
    ensures { result ≡ is_by word }
{
    matches!(word, Some(Word::By))
}

fn is_where_word(word: Option<Word>) -> bool
    ensures { result ≡ is_where word }
{
    matches!(word, Some(Word::Where))
}

// A query without columns yet.
fn fresh_draft(alloc: Global, exec: bool, first: Option<i64>) -> Draft
    ensures { draft_of result ≡ fresh exec first }
{
    Draft {
        exec,
        first,
        columns: Cols::new(alloc),
        by: Cols::new(alloc),
    }
}

// The draft with one more column, after `by` where `grouped` is set.
fn with_column(
    draft: Draft,
    grouped: bool,
    name: Option<Sym>,
    expr: Expr,
) -> Result<Draft, NoMemory>
    ensures { IfOk result (λ d. draft_of d ≡ grown (draft_of draft) grouped name (form expr)) }
{
    let mut draft = draft;
    let column = Col { name, expr };
    if grouped {
        draft.by.push(column)?;
    } else {
        draft.columns.push(column)?;
    }
    Ok(draft)
}

// The query of a draft and its table.
fn query_with(alloc: Global, draft: Draft, table: Sym) -> Query
    ensures { query_of result ≡ with_table (draft_of draft) table }
{
    Query {
        exec: draft.exec,
        first: draft.first,
        columns: draft.columns,
        by: draft.by,
        table,
        phrases: Exprs::new(alloc),
    }
}

/// The query with one more phrase after `where`.
pub fn with_condition(query: Query, expr: Expr) -> Result<Query, NoMemory>
    ensures { IfOk result (λ q. query_of q ≡ with_phrase (query_of query) (form expr)) }
{
    let mut query = query;
    query.phrases.push(expr)?;
    Ok(query)
}

// The state after columns.
fn after_columns(outer: Outer, draft: Draft, grouped: bool, token: &Token) -> Result<State, Stop>
    ensures { Steps result (step_columns (outer_of outer) (draft_of draft) grouped (token_of token.now)) }
{
    let word = token.word();
    if is_from_word(word) {
        Ok(State::InQuery(outer, QueryState::TableWanted(draft)))
    } else if is_by_word(word) && !grouped {
        Ok(State::InQuery(outer, QueryState::ColumnWanted(draft, true)))
    } else {
        Err(Stop::Here)
    }
}

// The state before a phrase.
fn before_phrase(alloc: Global, outer: Outer, query: Query) -> State
    ensures { state_of result ≡ wanted (base (of_phrase (outer_of outer) (query_of query))) }
{
    let stack = Stack::of(alloc, Base::Phrase(outer, query));
    State::InExpression(stack, ExpressionState::Wanted)
}

/// The state after a whole expression of a query.
pub fn after_base(alloc: Global, base: Base, expr: Expr, token: &Token) -> Result<State, Stop>
    ensures { Steps result (step_base (base_of base) (form expr) (token_of token.now)) }
{
    match base {
        Base::Column(outer, draft, grouped, name) => {
            let draft = with_column(draft, grouped, name, expr)?;
            if token.is(Mark::Comma) {
                Ok(State::InQuery(outer, QueryState::ColumnWanted(draft, grouped)))
            } else {
                after_columns(outer, draft, grouped, token)
            }
        }
        Base::Phrase(outer, query) => {
            let query = with_condition(query, expr)?;
            if token.is(Mark::Comma) {
                Ok(before_phrase(alloc, outer, query))
            } else {
                after_query(alloc, outer, query, token)
            }
        }
    }
}

/// The state before a column, given its first token.
pub fn before_column(
    alloc: Global,
    outer: Outer,
    draft: Draft,
    grouped: bool,
    token: Token,
) -> Result<State, Stop>
    ensures { Steps result (step_column (outer_of outer) (draft_of draft) grouped (token_of token)) }
{
    match token.into_name() {
        Ok(name) => Ok(State::InQuery(outer, QueryState::NameRead(draft, grouped, name))),
        Err(other) => {
            let base = Base::Column(outer, draft, grouped, None);
            before_expression(Stack::of(alloc, base), other)
        }
    }
}

/// The state after a name that begins a column: the column's own name, or a term.
pub fn after_name(
    alloc: Global,
    outer: Outer,
    draft: Draft,
    grouped: bool,
    name: Sym,
    token: &Token,
) -> Result<State, Stop>
    ensures { Steps result (step_name (outer_of outer) (draft_of draft) grouped name (token_of token.now)) }
{
    if token.is(Mark::Colon) {
        let base = Base::Column(outer, draft, grouped, Some(name));
        Ok(State::InExpression(Stack::of(alloc, base), ExpressionState::Wanted))
    } else {
        let base = Base::Column(outer, draft, grouped, None);
        after_term(alloc, Expr::Name(name), Stack::of(alloc, base), token)
    }
}

/// The state before the columns, `by` or `from`.
pub fn before_columns(
    alloc: Global,
    outer: Outer,
    draft: Draft,
    token: Token,
) -> Result<State, Stop>
    ensures { Steps result (step_selected (outer_of outer) (draft_of draft) (token_of token)) }
{
    let word = token.word();
    if is_from_word(word) {
        Ok(State::InQuery(outer, QueryState::TableWanted(draft)))
    } else if is_by_word(word) {
        Ok(State::InQuery(outer, QueryState::ColumnWanted(draft, true)))
    } else {
        before_column(alloc, outer, draft, false, token)
    }
}

/// The state after `select` or `exec`.
pub fn after_verb(alloc: Global, outer: Outer, exec: bool, token: Token) -> Result<State, Stop>
    ensures { Steps result (step_verb (outer_of outer) exec (token_of token)) }
{
    if token.is(Mark::Open) {
        Ok(State::InQuery(outer, QueryState::NumberWanted(exec)))
    } else {
        before_columns(alloc, outer, fresh_draft(alloc, exec, None), token)
    }
}

/// The state before the number in brackets.
pub fn before_number(outer: Outer, exec: bool, token: &Token) -> Result<State, Stop>
    ensures { Steps result (step (number_wanted (outer_of outer) exec) (token_of token.now)) }
{
    match token.number() {
        Some(number) => Ok(State::InQuery(outer, QueryState::NumberRead(exec, number))),
        None => Err(Stop::Here),
    }
}

/// The state after the number in brackets.
pub fn after_number(
    alloc: Global,
    outer: Outer,
    exec: bool,
    number: i64,
    token: &Token,
) -> Result<State, Stop>
    ensures { Steps result (step (number_read (outer_of outer) exec number) (token_of token.now)) }
{
    let draft = fresh_draft(alloc, exec, Some(number));
    expect_mark(
        token,
        Mark::Close,
        State::InQuery(outer, QueryState::ColumnsWanted(draft)),
    )
}

/// The state before the table.
pub fn before_table(alloc: Global, outer: Outer, draft: Draft, token: Token) -> Result<State, Stop>
    ensures { Steps result (step (table_wanted (outer_of outer) (draft_of draft)) (token_of token)) }
{
    match token.into_name() {
        Ok(name) => Ok(State::InQuery(
            outer,
            QueryState::TableRead(query_with(alloc, draft, name)),
        )),
        Err(_) => Err(Stop::Here),
    }
}

/// The state after the table.
pub fn after_table(alloc: Global, outer: Outer, query: Query, token: &Token) -> Result<State, Stop>
    ensures { Steps result (step_table (outer_of outer) (query_of query) (token_of token.now)) }
{
    if is_where_word(token.word()) {
        Ok(before_phrase(alloc, outer, query))
    } else {
        after_query(alloc, outer, query, token)
    }
}
