//! The state of the reader: what has been read of a request, and what is expected next.
//!
//! Brackets and pending verbs are kept in a list on the heap, so no text can make the reader recurse, nor the end of what
//! it has read.
ghost use Rattle.std.specs.Prelude.{◌≡◌, IfOk};
ghost use Rattle.qsql_parse.specs.States.{around, base_of, stack_of};
ghost use Rattle.qsql_parse.specs.Machine;

use q_values::{Names, NoMemory, Sym};
use q_verbs::{Verb, Verb1};
use qsql_request::{Cols, Expr, Query, Request, Source, SubRequest};
use std::alloc::Global;
use std::collections::VecDeque;

/// A query before its `from`.
#[derive(Drop)]
pub struct Draft {
    /// Whether it is an `exec`.
    pub exec: bool,
    /// The number in brackets after the verb.
    pub first: Option<i64>,
    /// The columns so far.
    pub columns: Cols,
    /// The columns after `by` so far.
    pub by: Cols,
}

/// A side of an as-of join, with what precedes it.
#[derive(Drop)]
pub enum Side {
    /// The left side, after the keys.
    ToLeft(Names),
    /// The right side, after the keys and the left side.
    ToRight(Names, Source),
}

/// What a query is part of.
#[derive(Drop)]
pub enum Outer {
    /// Nothing: it is the whole text.
    Alone,
    /// An as-of join.
    Bare(Side),
    /// Parentheses in an as-of join.
    Bracketed(Side),
}

/// What a whole expression is part of.
#[derive(Drop)]
pub enum Base {
    /// A column, after `by` where the flag is set, with the name that the text gives it.
    Column(Outer, Draft, bool, Option<Sym>),
    /// A phrase after `where`.
    Phrase(Outer, Query),
}

/// What an expression is within: a verb that awaits it, or brackets.
#[derive(Drop)]
pub enum Frame {
    /// The right side of a verb.
    RightOf(Verb, Expr),
    /// The side of a verb without brackets.
    Under(Verb1),
    /// Parentheses.
    InBrackets,
    /// The brackets of a verb with one side.
    Applied(Verb1),
    /// The brackets of a verb with two sides, before `;`.
    FirstOfTwo(Verb),
    /// The brackets of a verb with two sides, after `;`.
    SecondOfTwo(Verb, Expr),
}

/// What an expression is part of.
#[derive(Drop)]
pub struct Stack {
    /// The column or phrase.
    pub base: Base,
    /// The verbs and brackets around the expression, innermost first.
    pub frames: VecDeque<Frame>,
}

impl Stack {
    /// The stack of an expression that is the whole column or phrase.
    pub fn of(alloc: Global, base: Base) -> Stack
        ensures { stack_of result ≡ Machine.base (base_of base) }
    {
        Stack {
            base,
            frames: VecDeque::new(alloc),
        }
    }

    /// The stack of an expression within the frame, which is within this stack.
    pub fn with(self, frame: Frame) -> Result<Stack, NoMemory>
        ensures { IfOk result (λ stack. stack_of stack ≡ around frame (stack_of self)) }
    {
        let mut stack = self;
        stack.frames.push_front(frame)?;
        Ok(stack)
    }
}

/// The state within a query. A flag `exec` says whether it is an `exec`.
#[derive(Drop)]
pub enum QueryState {
    /// After `select` or `exec`.
    VerbRead(bool),
    /// After `[`, before the number.
    NumberWanted(bool),
    /// After the number, before `]`.
    NumberRead(bool, i64),
    /// After `]`, before the columns, `by` or `from`.
    ColumnsWanted(Draft),
    /// Before a column, which comes after `by` where the flag is set.
    ColumnWanted(Draft, bool),
    /// After a name that begins a column.
    NameRead(Draft, bool, Sym),
    /// After `from`.
    TableWanted(Draft),
    /// After the table.
    TableRead(Query),
}

/// The state within an expression.
#[derive(Drop)]
pub enum ExpressionState {
    /// Before an expression.
    Wanted,
    /// After a verb with one side.
    MonadRead(Verb1),
    /// After a verb with two sides that precedes its brackets.
    DyadRead(Verb),
    /// After a term.
    Got(Expr),
}

/// The state within an as-of join.
#[derive(Drop)]
pub enum JoinState {
    /// After `aj`.
    Begun,
    /// After `[`.
    KeysWanted,
    /// After the keys.
    KeysRead(Names),
    /// Before a side.
    SourceWanted(Side),
    /// Before a query in parentheses.
    QueryWanted(Side),
    /// After a side.
    SourceRead(Side, Source),
}

/// The state within a subscription.
#[derive(Drop)]
pub enum SubState {
    /// After `.u.sub`.
    Begun,
    /// After `[`.
    TablesWanted,
    /// After the tables.
    TablesRead(Names),
    /// After `;`.
    NamesWanted(Names),
    /// After the names.
    NamesRead(SubRequest),
}

/// The state of the reader.
#[derive(Drop)]
pub enum State {
    /// Before the first token.
    Start,
    /// Within a query.
    InQuery(Outer, QueryState),
    /// Within an expression.
    InExpression(Stack, ExpressionState),
    /// Within an as-of join.
    InJoin(JoinState),
    /// Within a subscription.
    InSub(SubState),
    /// After a request that nothing may follow.
    Done(Request),
}
