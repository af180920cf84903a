//! Subscriptions: a filter for each table of a schema.
ghost use Rattle.std.specs.Prelude.{◌≡◌, ◌<◌, true, if◌then◌else◌, length, Some, slice_get, OnOk, OnErr, IfOk, IfErr};
ghost use Rattle.std.specs.List.{list_any};
ghost use Rattle.std.specs.Str.{bytes_eq};
ghost use Rattle.pubsub.specs.Filters.{table_names, nothing_of, is_any, is_asked, is_known, replaced, after_request, Refuses, IsNoTable};

use crate::filter::Filter;
use crate::request::{SubRefusal, SubRequest};
use day_rows::Schema;
use q_values::{Names, NoMemory, Sym};
use std::alloc::Global;
use std::marker::Model;
use std::snapshot::Snapshot;
use std::sync::Arc;

// The tables that a subscription chooses from. Contracts see the schema.
#[derive(Drop)]
struct Tables {
    // their names
    names: Names,
    // the schema, which only contracts see
    schema: Snapshot<Schema>,
}

impl Model for Tables {
    ghost use Rattle.std.specs.Prelude.{◌≡◌, List};
    ghost use Rattle.day_rows.specs.declared.schema.Shape.{Shape};
    ghost use Rattle.pubsub.specs.Filters.{table_names};

    ghost Value = { List Shape };

    ghost view = { λ t. t.schema.value };

    ghost invariant = { λ t. t.names ≡ table_names t.schema.value };
}

impl Tables {
    fn of(alloc: Global, schema: &Schema) -> Result<Tables, NoMemory>
        ensures { IfOk result (λ tables. tables ≡ schema.now) }
    {
        Ok(Tables {
            names: copy_names(alloc, schema)?,
            schema: Snapshot::of(schema),
        })
    }

    fn names(&self) -> &Names
        ensures { result.now ≡ table_names self.now }
    {
        &self.names
    }
}

/// A subscription: which rows of each table of a schema a subscriber is told of. Contracts see the schema and the
/// filters.
#[derive(Drop)]
pub struct Subscription {
    // the schema's tables, shared with the subscriptions that were made of this one
    tables: Arc<Tables>,
    // the filter of each
    filters: Vec<Filter>,
    // the allocator
    alloc: Global,
}

impl Model for Subscription {
    ghost use Rattle.std.specs.Prelude.{◌≡◌, length};
    ghost use Rattle.pubsub.specs.Filters.{Subscribed};

    ghost Value = { Subscribed };

    ghost view = { λ s. record { schema = s.tables.value; filters = s.filters.items } };

    ghost invariant = { λ s. length s.filters.items ≡ length s.tables.value };
}

fn copy_names(alloc: Global, schema: &Schema) -> Result<Names, NoMemory>
    ensures { IfOk result (λ names. names ≡ table_names schema.now) }
{
    let mut names = Names::new(alloc);
    for i in 0..schema.len() {
        names.push(Sym::copied(alloc, schema.at(i).table.bytes())?)?;
    }
    Ok(names)
}

fn nothing_of(alloc: Global, schema: &Schema) -> Result<Vec<Filter>, NoMemory>
    ensures { IfOk result (λ filters. filters.items ≡ nothing_of schema.now) }
{
    let mut filters = Vec::new(alloc);
    for i in 0..schema.len() {
        filters.push(Filter::Nothing)?;
    }
    Ok(filters)
}

fn is_asked(asked: &Sym, table: &Sym) -> bool
    ensures { result ≡ is_asked asked.now table.now }
{
    asked.bytes().is_empty() || asked.bytes() == table.bytes()
}

fn is_among(name: &[u8], tables: &[Sym]) -> bool
    ensures { result ≡ list_any (bytes_eq name.now) tables.now }
{
    tables.iter().any(|table| name == table.bytes())
}

#[tactic(auto, using(crate::proofs::FilterLemmas::known_by_name))]
fn is_known(asked: &Sym, tables: &Names) -> bool
    ensures { result ≡ is_known asked.now tables.now }
{
    let name = asked.bytes();
    if name.is_empty() {
        return true;
    }
    is_among(name, tables.as_slice())
}

// The refusal that names the missing table, or `NoMemory` where its name can't be copied.
fn no_table(alloc: Global, asked: &Sym) -> SubRefusal
    ensures { IsNoTable asked.now result }
{
    match Sym::copied(alloc, asked.bytes()) {
        Ok(name) => SubRefusal::NoTable(name),
        Err(_) => SubRefusal::NoMemory,
    }
}

// The new filter of a table that is asked for, and else its old one.
fn filter_after(is_asked: bool, new: &Filter, old: &Filter) -> Result<Filter, NoMemory>
    ensures { IfOk result (λ filter. filter ≡ (if is_asked then new.now else old.now)) }
{
    if is_asked { new.share() } else { old.share() }
}

fn replaced(
    alloc: Global,
    asked: &Sym,
    new: &Filter,
    tables: &Names,
    filters: &[Filter],
) -> Result<Vec<Filter>, NoMemory>
    requires { length filters.now ≡ length tables.now }
    ensures { IfOk result (λ found. found.items ≡ replaced asked.now new.now tables.now filters.now) }
{
    let mut found = Vec::new(alloc);
    for i in 0..tables.len() {
        found.push(filter_after(is_asked(asked, tables.at(i)), new, &filters[i])?)?;
    }
    Ok(found)
}

fn share(tables: &Arc<Tables>) -> Result<Arc<Tables>, NoMemory>
    ensures { IfOk result (λ shared. shared.value ≡ tables.now.value) }
{
    Ok(tables.clone()?)
}

impl Subscription {
    /// The subscription to no table of this schema.
    pub fn none(alloc: Global, schema: &Schema) -> Result<Subscription, NoMemory>
        ensures { IfOk result (λ s. s ≡ record { schema = schema.now; filters = nothing_of schema.now }) }
    {
        let tables = Arc::new(alloc, Tables::of(alloc, schema)?)?;
        let filters = nothing_of(alloc, schema)?;
        Ok(Subscription {
            tables,
            filters,
            alloc,
        })
    }

    /// The subscription as it is after a request: the filters of the tables that are asked for are replaced. This one stays
    /// as it is.
    pub fn after(&self, request: &SubRequest) -> Result<Subscription, SubRefusal>
        ensures ok { IfOk result (λ s. s ≡ after_request request.now self.now) }
        ensures known { OnOk result (is_known request.now.tables (table_names self.now.schema) ≡ true) }
        ensures refused { IfErr result (Refuses request.now self.now.schema) }
    {
        let names = self.tables.names();
        if !is_known(&request.tables, names) {
            return Err(no_table(self.alloc, &request.tables));
        }
        let new = Filter::of(self.alloc, &request.symbols)?;
        let filters = replaced(self.alloc, &request.tables, &new, names, &self.filters)?;
        Ok(Subscription {
            tables: share(&self.tables)?,
            filters,
            alloc: self.alloc,
        })
    }

    /// Replaces the filters of the tables that are asked for. An error changes nothing.
    pub fn set(&mut self, request: &SubRequest) -> Result<(), SubRefusal>
        ensures ok { OnOk result (self.new ≡ after_request request.now self.old) }
        ensures known { OnOk result (is_known request.now.tables (table_names self.old.schema) ≡ true) }
        ensures err { OnErr result (self.new ≡ self.old) }
        ensures refused { IfErr result (Refuses request.now self.old.schema) }
    {
        *self = self.after(request)?;
        Ok(())
    }

    /// Whether any table is subscribed: one whose filter chooses all rows, or those of a set of symbols, even of none.
    pub fn is_any(&self) -> bool
        ensures { result ≡ is_any self.now.filters }
    {
        self.filters.iter().any(|filter| !filter.is_nothing())
    }

    /// The filter of the table with the index `table`.
    pub fn filter(&self, table: usize) -> &Filter
        requires { table < length self.now.schema }
        ensures { slice_get self.now.filters table ≡ Some result.now }
    {
        &self.filters[table]
    }
}
