//! The answers to subscriptions.
ghost use Rattle.std.specs.Prelude.{◌≡◌, true, [], length, map, find, option_copied, IfOk};
ghost use Rattle.std.specs.Str.{bytes_eq};
ghost use Rattle.day_rows.specs.Schema.{IsShape};
ghost use Rattle.ipc_codec.specs.Written.{IsPlain};
ghost use Rattle.q_values.specs.Tree.{tree, trees};
ghost use Rattle.pubsub.specs.Filters.{is_known, table_names};
ghost use Rattle.publications.specs.Answer.{pair_tree, subscription_tree};

use crate::schema::learn_schema;
use day_rows::{Schema, Shape};
use pubsub::empty_table;
use q_values::{Atom, NoMemory, Sym, Value, Values};
use std::alloc::Global;

// A table's name, and the table without rows.
fn pair_of(alloc: Global, shape: &Shape) -> Result<Value, NoMemory>
    requires { IsShape shape.now }
    ensures { IfOk result (λ value. tree value ≡ pair_tree shape.now) }
{
    let mut items = Values::with_capacity(alloc, 2)?;
    let name = Sym::copied(alloc, shape.table.bytes())?;
    items.push(Value::Atom(Atom::Symbol(name)))?;
    items.push(Value::Table(empty_table(alloc, shape)?))?;
    Ok(Value::List(items))
}

// The pairs of all tables.
fn pairs_of(alloc: Global, schema: &Schema) -> Result<Values, NoMemory>
    ensures { IfOk result (λ values. trees values ≡ map pair_tree schema.now) }
{
    let mut pairs = Values::with_capacity(alloc, schema.len())?;
    for i in 0..schema.len() {
        pairs.push(pair_of(alloc, schema.at(i))?)?;
    }
    Ok(pairs)
}

fn table_named<'a>(schema: &'a Schema, name: &[u8]) -> Option<&'a Shape>
    ensures { option_copied result ≡ find (λ shape. bytes_eq name.now shape.table) schema.now }
{
    schema.iter().find(|shape| name == shape.table.bytes())
}

/// The answer to a subscription: for a table of the schema the list of its name and the table without rows, with its own
/// columns and without `date`; for the null symbol the list of these pairs for all tables, in the schema's order. The only
/// error is that it is out of memory.
pub fn subscription_answer(alloc: Global, schema: &Schema, tables: &Sym) -> Result<Value, NoMemory>
    requires known { is_known tables.now (table_names schema.now) ≡ true }
    ensures value { IfOk result (λ v. tree v ≡ subscription_tree schema.now tables.now) }
    // Its parts are in shape, and its counts are small: it can be written.
    ensures plain { IfOk result (λ v. IsPlain (tree v)) }
{
    learn_schema(schema);
    if tables.bytes().is_empty() {
        return Ok(Value::List(pairs_of(alloc, schema)?));
    }
    match table_named(schema, tables.bytes()) {
        Some(shape) => pair_of(alloc, shape),
        None => unreachable!(),
    }
}
