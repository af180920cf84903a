//! The answers to requests over a snapshot.
ghost use Rattle.std.specs.Prelude.{◌≡◌, pos, IfOk};
ghost use Rattle.day_rows.specs.Chronicle.{date_of};
ghost use Rattle.plant_memory.specs.Chronicle.{today, update_count};
ghost use Rattle.q_values.specs.Tree.{tree, atom};
ghost use Rattle.q_values.specs.declared.atom.Atom.TheVariants as a;
ghost use Rattle.qsql_request.specs.Views.{query_of, request_of};
ghost use Rattle.qsql_eval.specs.Judgement.{judgement};
ghost use Rattle.gateway.specs.Answer.{query_value, query_answer, request_answer};
ghost use Rattle.gateway.specs.Shaped.{IsShaped};

use crate::joining::answer_join;
use crate::values::{value_of_typed, wrong_value};
use day_rows::Schema;
use plant_memory::Snapshot;
use q_values::{Atom, NoMemory, Value};
use qsql_eval::{CheckRefusal, check};
use qsql_request::{Query, Request};
use std::alloc::Global;

// The answer to a query: its value, or why it has none.
fn answer_query(
    alloc: Global,
    query: &Query,
    snapshot: &Snapshot,
    schema: &Schema,
) -> Result<Value, NoMemory>
    requires same { snapshot.now.frame.schema ≡ schema.now }
    ensures shaped { IfOk result (λ v. IsShaped (tree v)) }
    ensures value { IfOk result (λ v. tree v
        ≡ query_answer (query_value snapshot.now.frame.first schema.now snapshot.now.entries) (query_of query.now)
        (judgement (query_of query.now) schema.now)) }
{
    match check(alloc, query, schema) {
        Ok(typed) => value_of_typed(alloc, &typed, snapshot, schema),
        Err(CheckRefusal::NoName(name)) => wrong_value(alloc, name.bytes()),
        Err(CheckRefusal::WrongType) => wrong_value(alloc, b"type"),
        Err(CheckRefusal::NoMemory) => Err(NoMemory),
    }
}

// The number of updates of the open date.
#[tactic(auto, using(crate::proofs::ShapedLemmas::atom_shaped))]
fn count_value(snapshot: &Snapshot) -> Result<Value, NoMemory>
    ensures shaped { IfOk result (λ v. IsShaped (tree v)) }
    ensures value { IfOk result (λ v. tree v ≡ atom (a.Long (pos (update_count (today snapshot.now.entries))))) }
{
    match i64::try_from(snapshot.updates_today()) {
        Ok(count) => Ok(Value::Atom(Atom::Long(count))),
        // more updates than memory holds
        Err(_) => Err(NoMemory),
    }
}

// The open date, which is the last one.
fn open_date(snapshot: &Snapshot) -> i32
    ensures { result ≡ date_of snapshot.now.frame.first snapshot.now.entries }
{
    let last = snapshot.dates() - 1;
    snapshot.date_at(last)
}

// The open date, as a value.
#[tactic(auto, using(crate::proofs::ShapedLemmas::atom_shaped))]
fn day_value(snapshot: &Snapshot) -> Value
    ensures shaped { IsShaped (tree result) }
    ensures value { tree result ≡ atom (a.Date (date_of snapshot.now.frame.first snapshot.now.entries)) }
{
    Value::Atom(Atom::Date(open_date(snapshot)))
}

/// The answer to a request. A subscription has none here.
pub fn answer_request(
    alloc: Global,
    request: &Request,
    snapshot: &Snapshot,
    schema: &Schema,
) -> Result<Value, NoMemory>
    requires same { snapshot.now.frame.schema ≡ schema.now }
    ensures shaped { IfOk result (λ v. IsShaped (tree v)) }
    ensures value { IfOk result (λ v. tree v
        ≡ request_answer (query_value snapshot.now.frame.first schema.now snapshot.now.entries)
        snapshot.now.frame.first schema.now snapshot.now.entries (request_of request.now)) }
{
    match request {
        Request::Query(query) => answer_query(alloc, query, snapshot, schema),
        Request::Aj(query) => answer_join(alloc, query, snapshot, schema),
        Request::Count => count_value(snapshot),
        Request::Day => Ok(day_value(snapshot)),
        Request::Sub(_) => wrong_value(alloc, b"nyi"),
    }
}
