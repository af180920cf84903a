//! The messages of publications.
ghost use Rattle.std.specs.Prelude.{◌≡◌, ◌≤◌, ◌++◌, length, map, IfOk, OnOk};
ghost use Rattle.ipc_codec.specs.Lengths.{saturated};
ghost use Rattle.ipc_codec.specs.Written.{IsPlain};
ghost use Rattle.q_values.specs.Bytes.{HasNoNul};
ghost use Rattle.q_values.specs.Tree.{tree, trees, atom};
ghost use Rattle.q_values.specs.declared.atom.Atom.TheVariants as a;
ghost use Rattle.pubsub.specs.Told.{publication};
ghost use Rattle.publications.specs.Notice.{notice, publication_tree};

use ipc_codec::{encode, encoded_length};
use outside_api::TapMessage;
use pubsub::TapMessages;
use q_values::{Atom, NoMemory, Sym, Value, Values};
use std::alloc::Global;

// The bytes of a header.
const HEADER: usize = 8;

fn symbol(alloc: Global, bytes: &[u8]) -> Result<Value, NoMemory>
    requires { HasNoNul bytes.now }
    ensures { IfOk result (λ value. tree value ≡ atom (a.Symbol bytes.now)) }
{
    Ok(Value::Atom(Atom::Symbol(Sym::copied(alloc, bytes)?)))
}

// The value of a message. Its rows are moved and not copied.
fn value_of(alloc: Global, message: TapMessage) -> Result<Value, NoMemory>
    ensures { IfOk result (λ value. tree value ≡ publication_tree (publication message)) }
{
    let mut items = Values::with_capacity(alloc, 3)?;
    match message {
        TapMessage::Rows { table, rows } => {
            items.push(symbol(alloc, b"upd")?)?;
            items.push(Value::Atom(Atom::Symbol(table)))?;
            items.push(Value::Table(rows))?;
        }
        TapMessage::End { date } => {
            items.push(symbol(alloc, b".u.end")?)?;
            items.push(Value::Atom(Atom::Date(date)))?;
        }
    }
    Ok(Value::List(items))
}

/// The values of messages, in order.
pub fn values_of(alloc: Global, messages: TapMessages) -> Result<Values, NoMemory>
    ensures { IfOk result (λ values. trees values ≡ map publication_tree (map publication messages)) }
{
    let mut values = Values::with_capacity(alloc, messages.len())?;
    for message in messages.into_vec() {
        values.push(value_of(alloc, message)?)?;
    }
    Ok(values)
}

/// The number of bytes of the message with a value, and `usize::MAX` where it is more. It takes no memory.
pub fn notice_length(value: &Value) -> usize
    ensures { result ≡ saturated (length (notice (tree value.now))) }
{
    encoded_length(value).saturating_add(HEADER)
}

/// Appends the message with a value.
pub fn put_notice(out: &mut Vec<u8>, value: &Value) -> Result<(), NoMemory>
    requires plain { IsPlain (tree value.now) }
    requires fits { length (notice (tree value.now)) ≤ 4294967295 }
    ensures { OnOk result (out.new.items ≡ out.old.items ++ notice (tree value.now)) }
{
    let length = notice_length(value) as u32;
    out.extend_from_slice(&[1, 0, 0, 0])?;
    out.extend_from_slice(&length.to_le_bytes())?;
    encode(out, value)
}
