//! A side of an as-of join, as a query of a table.
ghost use Rattle.std.specs.Prelude.{◌≡◌, ◌&&◌, not, IfOk, IfErr, option_copied, Some};
ghost use Rattle.qsql_request.specs.Unbuilt.{is_empty};
ghost use Rattle.qsql_request.specs.Views.{query_of, source_of};
ghost use Rattle.qsql_eval.specs.Judgement.{table_named};
ghost use Rattle.asof_join.specs.Judged.{found, found_in, has};
ghost use Rattle.asof_join.specs.Sources.{query_of_source, shown_names, shown_kinds};
ghost use Rattle.asof_join.specs.Sides.{IsSelectOf, RefusesSide, IsJudged, NamesOrMemory};

use crate::refusal::AjRefusal;
use crate::shown::{Shown, shown_by};
use day_rows::{Schema, Shape};
use q_values::{NoMemory, Sym};
use qsql_eval::{CheckRefusal, check};
use qsql_request::{Cols, Exprs, Query, Source};
use std::alloc::Global;

/// A side, whose table and columns are there.
#[derive(Drop)]
pub(crate) struct Side<'a> {
    /// The side of the join.
    pub source: &'a Source,
    /// `select` of all of its table.
    pub made: Query,
    /// Its table.
    pub table: &'a Shape,
    /// Whether it is a `select` without `by`, of which each verb takes what it is given.
    pub typed: bool,
    pub ghost made_is: { IsSelectOf (query_of_source (source_of source.now)).table made },
    pub ghost judged: { IsJudged table.now (query_of_source (source_of source.now)) typed },
}

// `select` of all of a table.
fn select_of(alloc: Global, table: &Sym) -> Result<Query, NoMemory>
    ensures { IfOk result (IsSelectOf table.now) }
{
    Ok(Query {
        exec: false,
        first: None,
        columns: Cols::new(alloc),
        by: Cols::new(alloc),
        table: Sym::copied(alloc, table.bytes())?,
        phrases: Exprs::new(alloc),
    })
}

// The name of a side's table.
fn table_name(source: &Source) -> &Sym
    ensures { result.now ≡ (query_of_source (source_of source.now)).table }
{
    match source {
        Source::All(table) => table,
        Source::Of(query) => &query.table,
    }
}

/// The query of a side: its own, or else `select` of all of its table.
pub(crate) fn query_in<'a>(source: &'a Source, made: &'a Query) -> &'a Query
    requires { IsSelectOf (query_of_source (source_of source.now)).table made.now }
    ensures { query_of result.now ≡ query_of_source (source_of source.now) }
{
    match source {
        Source::All(_) => made,
        Source::Of(query) => query,
    }
}

// The table of the schema with this name.
#[tactic(auto, using(crate::proofs::Rules::tables))]
fn table_of<'a>(name: &[u8], schema: &'a Schema) -> Option<&'a Shape>
    ensures { option_copied result ≡ table_named name.now schema.now }
{
    for i in 0..schema.len() {
        let table = schema.at(i);
        if name == table.table.bytes() {
            return Some(table);
        }
    }
    None
}

/// That this name is not there.
pub(crate) fn no_name(alloc: Global, name: &Sym) -> AjRefusal
    ensures { NamesOrMemory name.now result }
{
    match Sym::copied(alloc, name.bytes()) {
        Ok(name) => AjRefusal::NoName(name),
        Err(_) => AjRefusal::NoMemory,
    }
}

// Whether the query is a `select` without `by`.
fn is_plain(query: &Query) -> bool
    ensures { result ≡ (not (query_of query.now).exec && is_empty (query_of query.now).by) }
{
    !query.exec && query.by.is_empty()
}

// Whether a query of this table is a typed side.
fn is_typed_side(
    alloc: Global,
    query: &Query,
    table: &Shape,
    schema: &Schema,
) -> Result<bool, AjRefusal>
    requires { table_named (query_of query.now).table schema.now ≡ Some table.now }
    ensures judged { IfOk result (λ typed. IsJudged table.now (query_of query.now) typed) }
    ensures refused { IfErr result (RefusesSide (found_in (query_of query.now) (Some table.now))) }
{
    match check(alloc, query, schema) {
        Ok(_typed) => Ok(is_plain(query)),
        Err(CheckRefusal::NoName(name)) => Err(AjRefusal::NoName(name)),
        Err(CheckRefusal::WrongType) => Ok(false),
        Err(CheckRefusal::NoMemory) => Err(AjRefusal::NoMemory),
    }
}

/// Judges a side of a join by a schema: whether its table and its columns are there, and whether it is typed.
pub(crate) fn side_of<'a>(
    alloc: Global,
    source: &'a Source,
    schema: &'a Schema,
) -> Result<Side<'a>, AjRefusal>
    ensures found { IfOk result (λ side. found (query_of_source (source_of source.now)) schema.now ≡ has side.table.now) }
    ensures source { IfOk result (λ side. side.source.now ≡ source.now) }
    ensures refused { IfErr result (RefusesSide (found (query_of_source (source_of source.now)) schema.now)) }
{
    let name = table_name(source);
    let Some(table) = table_of(name.bytes(), schema) else {
        return Err(no_name(alloc, name));
    };
    let made = select_of(alloc, name)?;
    let typed = is_typed_side(alloc, query_in(source, &made), table, schema)?;
    Ok(Side {
        source,
        made,
        table,
        typed,
    })
}

impl<'a> Side<'a> {
    /// Its query.
    pub fn query(&self) -> &Query
        ensures { query_of result.now ≡ query_of_source (source_of self.now.source.now) }
    {
        query_in(self.source, &self.made)
    }

    /// The columns that it shows.
    pub fn shown(&self, alloc: Global) -> Result<Shown, NoMemory>
        ensures names { IfOk result (λ s. s.names ≡ shown_names (query_of_source (source_of self.now.source.now)) self.now.table.now) }
        ensures kinds { IfOk result (λ s. s.kinds.items ≡ shown_kinds (query_of_source (source_of self.now.source.now)) self.now.table.now) }
    {
        let shown = shown_by(alloc, self.query(), self.table)?;
        Ok(shown)
    }
}
