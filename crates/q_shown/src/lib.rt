//! Values as short text, for tests.
//!
//! A vector is the letter of its kind and its items in brackets, an atom the letter and its value; a table is its columns, each
//! with its name. Numbers, dates and times are written as the numbers that they are stored as, so that a null shows as the
//! least number of its width. A dictionary is its keys, `!` and its values; a keyed table is its keys, `|` and its other
//! columns.
//!
//! ```text
//! j[5 100 7]                  a vector of longs
//! s:b                         a symbol
//! sym=s[b a] size=j[100 9]    a table
//! s[a b]!j[20 30]             a dictionary
//! sym=s[a b]|price=j[21 11]   a keyed table
//! ```
//!
//! [`push_value`] puts a value at the end of a text, and [`letter`] says which letter a kind has. It reads no text, and
//! shows no value within a list of lists.
#![tactic(auto)]

use q_values::{Atom, Kind, NoMemory, TableValue, Value, Vector};
use std::alloc::{AllocError, Global};

/// The letter of a kind (KX, Datatypes).
pub fn letter(kind: Kind) -> &'static [u8] {
    match kind {
        Kind::Boolean => b"b",
        Kind::Byte => b"x",
        Kind::Short => b"h",
        Kind::Integer => b"i",
        Kind::Long => b"j",
        Kind::Character => b"c",
        Kind::Symbol => b"s",
        Kind::Timestamp => b"p",
        Kind::Month => b"m",
        Kind::Date => b"d",
        Kind::Timespan => b"n",
        Kind::Minute => b"u",
        Kind::Second => b"v",
        Kind::Time => b"t",
    }
}

fn push_number(alloc: Global, out: &mut Vec<u8>, number: i64) -> Result<(), AllocError> {
    let text = format!(in alloc; "{number}")?;
    out.extend_from_slice(text.as_bytes())?;
    Ok(())
}

fn push_item(alloc: Global, out: &mut Vec<u8>, atom: &Atom) -> Result<(), AllocError> {
    match atom {
        Atom::Boolean(value) => push_number(alloc, out, i64::from(*value)),
        Atom::Byte(value) => push_number(alloc, out, i64::from(*value)),
        Atom::Short(value) => push_number(alloc, out, i64::from(*value)),
        Atom::Integer(value) => push_number(alloc, out, i64::from(*value)),
        Atom::Long(value) => push_number(alloc, out, *value),
        Atom::Character(value) => push_number(alloc, out, i64::from(*value)),
        Atom::Symbol(name) => out.extend_from_slice(name.bytes()),
        Atom::Timestamp(value) => push_number(alloc, out, *value),
        Atom::Month(value) => push_number(alloc, out, i64::from(*value)),
        Atom::Date(value) => push_number(alloc, out, i64::from(*value)),
        Atom::Timespan(value) => push_number(alloc, out, *value),
        Atom::Minute(value) => push_number(alloc, out, i64::from(*value)),
        Atom::Second(value) => push_number(alloc, out, i64::from(*value)),
        Atom::Time(value) => push_number(alloc, out, i64::from(*value)),
    }
}

fn push_vector(alloc: Global, out: &mut Vec<u8>, vector: &Vector) -> Result<(), AllocError> {
    out.extend_from_slice(letter(vector.kind()))?;
    out.extend_from_slice(b"[")?;
    for index in 0..vector.len() {
        if index > 0 {
            out.extend_from_slice(b" ")?;
        }
        match vector.at(alloc, index) {
            Ok(atom) => push_item(alloc, out, &atom)?,
            Err(NoMemory) => out.extend_from_slice(b"?")?,
        }
    }
    out.extend_from_slice(b"]")
}

fn push_atom(alloc: Global, out: &mut Vec<u8>, atom: &Atom) -> Result<(), AllocError> {
    out.extend_from_slice(letter(atom.kind()))?;
    out.extend_from_slice(b":")?;
    push_item(alloc, out, atom)
}

fn push_table(alloc: Global, out: &mut Vec<u8>, table: &TableValue) -> Result<(), AllocError> {
    for index in 0..table.names.len() {
        if index > 0 {
            out.extend_from_slice(b" ")?;
        }
        out.extend_from_slice(table.names.at(index).bytes())?;
        out.extend_from_slice(b"=")?;
        if let Some(column) = table.columns.get(index) {
            push_vector(alloc, out, column)?;
        }
    }
    Ok(())
}

// A value within a dictionary.
fn push_side(alloc: Global, out: &mut Vec<u8>, value: &Value) -> Result<(), AllocError> {
    match value {
        Value::Atom(atom) => push_atom(alloc, out, atom),
        Value::Vector(vector) => push_vector(alloc, out, vector),
        _ => out.extend_from_slice(b"other"),
    }
}

fn push_sides(alloc: Global, out: &mut Vec<u8>, values: &[Value]) -> Result<(), AllocError> {
    for value in values {
        push_side(alloc, out, value)?;
        out.extend_from_slice(b";")?;
    }
    Ok(())
}

/// Puts a value as text at the end.
pub fn push_value(alloc: Global, out: &mut Vec<u8>, value: &Value) -> Result<(), AllocError> {
    match value {
        Value::Table(table) => push_table(alloc, out, table),
        Value::Keyed(keyed) => {
            push_table(alloc, out, &keyed.keys)?;
            out.extend_from_slice(b"|")?;
            push_table(alloc, out, &keyed.values)
        }
        Value::Dict(pair) => {
            push_side(alloc, out, &pair.keys)?;
            out.extend_from_slice(b"!")?;
            match &pair.values {
                Value::List(values) => push_sides(alloc, out, values.as_slice()),
                other => push_side(alloc, out, other),
            }
        }
        other => push_side(alloc, out, other),
    }
}
