//! Reading values. Each reader takes the bytes from the current one on, and returns what it read and the bytes after it.
//! `room` is the number of levels that may still be opened; `left` the number of bytes from the type byte of the
//! current object on, from which the offset of a fault follows. A list is made with the room that its count asks for, and
//! with no more than the bytes that are left can fill: an object has two bytes at least, a column six, a text one.
ghost use Rattle.std.specs.Prelude.{◌≡◌, ◌<◌, ◌^◌, ◌≤◌, ◌-◌, ◌+◌, ◌*◌, ℕ, length, take, map, nat_eq, Ok, IfOk, IfErr};
ghost use Rattle.q_values.specs.Bytes.{HasNoNul};
ghost use Rattle.q_values.specs.Column.{contents};
ghost use Rattle.q_values.specs.Table.{rows_of};
ghost use Rattle.q_values.specs.Tree.{Tree, tree, trees, items_of, keyed, identity};
ghost use Rattle.ipc_codec.specs.Reading.{Gives, Finds, RefusesObject, texts_at, elements_at, vector_at, atom_at, column_at, columns_at};
ghost use Rattle.ipc_codec.specs.Reading.{have_equal_lengths, names_at, list_of_columns_at, grid_at, shaped, extent, checked, joined, identity_at};
ghost use Rattle.ipc_codec.specs.Reading.{items_at, list_at, dictionary_at, object_by, object_at, object_of};
ghost use Rattle.ipc_codec.specs.Front.{with_front};
ghost use Rattle.ipc_codec.specs.Memory.{values_within, values_among, memory_for};
ghost use Rattle.ipc_codec.specs.Spells.{Spells};
ghost use Rattle.ipc_codec.specs.Decoded.{Reads};
ghost use Rattle.ipc_codec.specs.Written.{IsPlain, AtomsFit};

use crate::budget::{Budget, HEADER, SIDES, VALUE, memory_beside};
use crate::elements::{column_of, element_of};
use crate::fault::{Fault, Stop};
use crate::form::{Form, form_of_byte};
use crate::heads::{count_of, part_of, short_text_of, text_of};
use crate::order::Order;
use crate::refusal::DecodeRefusal;
use q_values::{
    Atom, Column, KeyedValue, Kind, NoMemory, Pair, Sequence, ShortSymbol, Sym, Symbols,
    TableValue, Text, Value, Values, Vector,
};
use std::alloc::Global;

// A box of the item.
fn boxed<T: Drop>(alloc: Global, item: T) -> Result<Box<T>, NoMemory>
    ensures { IfOk result (λ b. b.value ≡ item) }
{
    Ok(Box::new(alloc, item)?)
}

// A copy of the text.
fn text_copied(alloc: Global, text: &[u8]) -> Result<Text, NoMemory>
    ensures { IfOk result (λ t. t ≡ text.now) }
{
    Text::from_vec(alloc, Vec::from_slice(alloc, text)?)
}

// The texts of at most eight bytes that come first, and the bytes after them.
fn short_symbols_of(
    alloc: Global,
    bytes: &[u8],
    count: usize,
) -> Result<(Vec<ShortSymbol>, &[u8]), NoMemory>
    ensures within { IfOk result (λ x. length x.0.items ≤ count) }
    ensures others { IfOk result (λ x.
        with_front x.0.items (texts_at (count - length x.0.items) x.1.now) ≡ texts_at count bytes.now) }
{
    let mut found = Vec::with_capacity(alloc, count.min(bytes.len()))?;
    let mut rest = bytes;
    for _ in 0..count {
        let Some(read) = short_text_of(rest) else {
            break;
        };
        found.push_reserved(read.0);
        rest = read.1;
    }
    Ok((found, rest))
}

// Texts of any length: from the first on that has more than eight bytes, or near the end of the bytes, they are read
// one by one.
fn symbols_of(alloc: Global, bytes: &[u8], count: usize) -> Result<(Symbols, &[u8]), Stop>
    ensures { Gives (λ x. (x.0, x.1.now)) result (texts_at count bytes.now) }
{
    let (short, after) = short_symbols_of(alloc, bytes, count)?;
    let left = count - short.len();
    let mut symbols = Symbols::from_short(alloc, short)?;
    let mut rest = after;
    for _ in 0..left {
        let (text, after) = text_of(rest)?;
        symbols.push(text)?;
        rest = after;
    }
    Ok((symbols, rest))
}

#[tactic(auto, unfolding(crate::specs::Reading::elements_at, crate::specs::Reading::cells_at, crate::specs::Reading::symbols_at))]
fn elements_of(
    alloc: Global,
    bytes: &[u8],
    order: Order,
    kind: Kind,
    count: usize,
) -> Result<(Column, &[u8]), Stop>
    requires { count < 2 ^ 31 }
    ensures found { Gives (λ x. ((contents x.0).atoms, x.1.now)) result (elements_at order kind count bytes.now) }
    ensures kind { IfOk result (λ x. (contents x.0).kind ≡ kind) }
{
    if kind == Kind::Symbol {
        let (symbols, rest) = symbols_of(alloc, bytes, count)?;
        return Ok((Column::Symbols(symbols), rest));
    }
    let size = count * kind.width();
    if bytes.len() < size {
        return Err(Stop::At(Fault::Truncated));
    }
    Ok((column_of(alloc, bytes, order, kind, count)?, &bytes[size..]))
}

#[tactic(auto, unfolding(crate::specs::Reading::vector_at))]
/// Reads a vector, after its type byte.
pub fn vector_of(
    alloc: Global,
    bytes: &[u8],
    order: Order,
    kind: Kind,
) -> Result<(Vector, &[u8]), Stop>
    ensures { Gives (λ x. (x.0, x.1.now)) result (vector_at order kind bytes.now) }
{
    let (count, rest) = count_of(bytes, order)?;
    let (column, rest) = elements_of(alloc, rest, order, kind, count)?;
    Ok((Vector::from_column(column), rest))
}

#[tactic(auto, unfolding(crate::specs::Reading::atom_at))]
fn atom_of(alloc: Global, bytes: &[u8], order: Order, kind: Kind) -> Result<(Atom, &[u8]), Stop>
    ensures { Gives (λ x. (x.0, x.1.now)) result (atom_at order kind bytes.now) }
{
    if kind == Kind::Symbol {
        let (text, rest) = text_of(bytes)?;
        return Ok((Atom::Symbol(Sym::copied(alloc, text)?), rest));
    }
    let size = kind.width();
    if bytes.len() < size {
        return Err(Stop::At(Fault::Truncated));
    }
    Ok((element_of(bytes, order, kind), &bytes[size..]))
}

#[tactic(auto, unfolding(crate::specs::Reading::column_at))]
fn column_in_table(
    alloc: Global,
    bytes: &[u8],
    order: Order,
    room: u32,
) -> Result<(Vector, &[u8]), Stop>
    ensures { Gives (λ x. (x.0, x.1.now)) result (column_at room order bytes.now) }
{
    match bytes {
        [] => Err(Stop::At(Fault::Truncated)),
        [first, rest @ ..] => {
            if room == 0 {
                return Err(Stop::At(Fault::TooDeep(bytes.len())));
            }
            match Kind::from_type_number(u16::from(*first)) {
                None => Err(Stop::At(Fault::NotBuilt(bytes.len()))),
                Some(kind) => vector_of(alloc, rest, order, kind),
            }
        }
    }
}

fn columns_of(
    alloc: Global,
    bytes: &[u8],
    order: Order,
    room: u32,
    count: usize,
) -> Result<(Sequence<Vector>, &[u8]), Stop>
    ensures { Gives (λ x. (x.0, x.1.now)) result (columns_at room order count bytes.now) }
{
    let mut columns = Sequence::with_capacity(alloc, count.min(bytes.len() / 6))?;
    let mut rest = bytes;
    for _ in 0..count {
        let (column, after) = column_in_table(alloc, rest, order, room)?;
        columns.push(column)?;
        rest = after;
    }
    Ok((columns, rest))
}

fn syms_of(alloc: Global, bytes: &[u8], count: usize) -> Result<(Sequence<Sym>, &[u8]), Stop>
    ensures { Gives (λ x. (x.0, x.1.now)) result (texts_at count bytes.now) }
{
    let mut names = Sequence::with_capacity(alloc, count.min(bytes.len()))?;
    let mut rest = bytes;
    for _ in 0..count {
        let (text, after) = text_of(rest)?;
        let name = Sym::copied(alloc, text)?;
        names.push(name)?;
        rest = after;
    }
    Ok((names, rest))
}

#[tactic(auto, unfolding(crate::specs::Reading::names_at))]
fn names_of(
    alloc: Global,
    bytes: &[u8],
    order: Order,
    room: u32,
) -> Result<(Sequence<Sym>, &[u8]), Stop>
    ensures { Gives (λ x. (x.0, x.1.now)) result (names_at room order bytes.now) }
{
    let symbols = Kind::Symbol.type_number();
    let inner = part_of(bytes, room, symbols, symbols)?;
    let (count, rest) = count_of(inner, order)?;
    syms_of(alloc, rest, count)
}

#[tactic(auto, unfolding(crate::specs::Reading::list_of_columns_at))]
fn list_of_columns_of(
    alloc: Global,
    bytes: &[u8],
    order: Order,
    room: u32,
) -> Result<(Sequence<Vector>, &[u8]), Stop>
    ensures { Gives (λ x. (x.0, x.1.now)) result (list_of_columns_at room order bytes.now) }
{
    let inner = part_of(bytes, room, 0, 0)?;
    let (count, rest) = count_of(inner, order)?;
    columns_of(alloc, rest, order, room.saturating_sub(1), count)
}

// The number of rows of the first column, 0 without columns.
fn rows_in(columns: &[Vector]) -> usize
    ensures { result ≡ rows_of columns.now }
{
    match columns {
        [] => 0,
        [first, ..] => first.len(),
    }
}

// Whether all columns have this number of rows.
fn have_equal_lengths(columns: &[Vector], rows: usize) -> bool
    ensures { result ≡ have_equal_lengths rows columns.now }
{
    columns.iter().all(|column| column.len() == rows)
}

// A table, after its type byte.
#[tactic(auto, unfolding(crate::specs::Reading::grid_at))]
fn table_of(
    alloc: Global,
    bytes: &[u8],
    order: Order,
    room: u32,
    left: usize,
) -> Result<(TableValue, &[u8]), Stop>
    ensures { Gives (λ x. (record { names = x.0.names; columns = x.0.columns }, x.1.now)) result
        (grid_at left room order bytes.now) }
{
    match bytes {
        [] => Err(Stop::At(Fault::Truncated)),
        [_, rest @ ..] => {
            let inner = part_of(rest, room, 99, 127)?;
            let room = room.saturating_sub(1);
            let (names, rest) = names_of(alloc, inner, order, room)?;
            let (columns, rest) = list_of_columns_of(alloc, rest, order, room)?;
            Ok((table_from(names, columns, left)?, rest))
        }
    }
}

// A table of these names and columns, where they have the same number and all columns the same length.
fn table_from(
    names: Sequence<Sym>,
    columns: Sequence<Vector>,
    left: usize,
) -> Result<TableValue, Fault>
    ensures { Finds (λ x. record { names = x.names; columns = x.columns }) result
        (shaped left names columns) }
{
    let rows = rows_in(columns.as_slice());
    if columns.is_empty()
        || names.len() != columns.len()
        || !have_equal_lengths(columns.as_slice(), rows)
    {
        return Err(Fault::BadShape(left));
    }
    Ok(TableValue { names, columns })
}

// The number of items that a value has as one side of a dictionary: 1 for an atom, the rows of a table.
fn extent_of(value: &Value) -> usize
    ensures { result ≡ extent (tree value.now) }
{
    match value {
        Value::Atom(_) => 1,
        Value::Vector(vector) => vector.len(),
        Value::List(items) => items.len(),
        Value::Dict(pair) => extent_of(&pair.keys),
        Value::Table(table) => rows_in(table.columns.as_slice()),
        Value::Keyed(pair) => rows_in(pair.keys.columns.as_slice()),
        Value::Identity => 1,
        Value::Wrong(_) => 1,
    }
}

// A dictionary of two sides; a keyed table, where both are tables.
fn dictionary_from(alloc: Global, keys: Value, values: Value, left: usize) -> Result<Value, Stop>
    ensures found { Gives tree result (joined left (tree keys) (tree values)) }
    ensures few { IfOk result (λ x. values_within (tree x) ≤ 2 + values_within (tree keys) + values_within (tree values)) }
{
    match (keys, values) {
        (Value::Table(keys), Value::Table(values)) => keyed_from(alloc, keys, values, left),
        (keys, values) => {
            if extent_of(&keys) != extent_of(&values) {
                return Err(Stop::At(Fault::BadShape(left)));
            }
            Ok(Value::Dict(boxed(alloc, Pair { keys, values })?))
        }
    }
}

fn keyed_from(
    alloc: Global,
    keys: TableValue,
    values: TableValue,
    left: usize,
) -> Result<Value, Stop>
    ensures { Gives tree result (checked (nat_eq (rows_of keys.columns) (rows_of values.columns)) left
        (keyed (record { names = keys.names; columns = keys.columns }) (record { names = values.names; columns = values.columns }))) }
{
    if rows_in(keys.columns.as_slice()) != rows_in(values.columns.as_slice()) {
        return Err(Stop::At(Fault::BadShape(left)));
    }
    Ok(Value::Keyed(boxed(alloc, KeyedValue { keys, values })?))
}

// The generic null, after its type byte.
#[tactic(auto, unfolding(crate::specs::Reading::identity_at))]
fn identity_of(bytes: &[u8], left: usize) -> Result<&[u8], Fault>
    ensures { Finds (λ x. (identity, x.now)) result (identity_at left bytes.now) }
{
    match bytes {
        [] => Err(Fault::Truncated),
        [0, rest @ ..] => Ok(rest),
        [_, ..] => Err(Fault::NotBuilt(left)),
    }
}

#[cycle(objects)]
fn items_in<'a>(
    alloc: Global,
    bytes: &'a [u8],
    order: Order,
    room: u32,
    count: usize,
    budget: &mut Budget,
) -> Result<(Values, &'a [u8]), Stop>
    requires { count < 2 ^ 31 }
    ensures found { Gives (λ x. (items_of (trees x.0), x.1.now)) result (items_at (object_at room order) count bytes.now) }
    ensures few { IfOk result (λ x. budget.new.left + 40 * values_among (items_of (trees x.0)) ≤ budget.old.left) }
{
    let places = count.min(bytes.len() / 2);
    budget.take(places * VALUE + HEADER)?;
    let mut items = Values::with_capacity(alloc, places)?;
    let mut rest = bytes;
    for i in 0..count {
        let (item, after) = object_in(alloc, rest, order, room, budget)?;
        // An item that the list has no room for yet. There is none, as an object has two bytes.
        if i >= places {
            budget.take(VALUE)?;
        }
        items.push(item)?;
        rest = after;
    }
    Ok((items, rest))
}

#[cycle(objects)]
#[tactic(auto, unfolding(crate::specs::Reading::list_at))]
fn list_in<'a>(
    alloc: Global,
    bytes: &'a [u8],
    order: Order,
    room: u32,
    budget: &mut Budget,
) -> Result<(Value, &'a [u8]), Stop>
    ensures found { Gives (λ x. (tree x.0, x.1.now)) result (list_at (object_at room order) order bytes.now) }
    ensures few { IfOk result (λ x. budget.new.left + 40 * values_within (tree x.0) ≤ budget.old.left) }
{
    let (count, rest) = count_of(bytes, order)?;
    let (items, rest) = items_in(alloc, rest, order, room, count, budget)?;
    Ok((Value::List(items), rest))
}

#[cycle(objects)]
#[tactic(auto, unfolding(crate::specs::Reading::dictionary_at))]
fn dictionary_in<'a>(
    alloc: Global,
    bytes: &'a [u8],
    order: Order,
    room: u32,
    left: usize,
    budget: &mut Budget,
) -> Result<(Value, &'a [u8]), Stop>
    ensures found { Gives (λ x. (tree x.0, x.1.now)) result (dictionary_at (object_at room order) left bytes.now) }
    ensures few { IfOk result (λ x. budget.new.left + 40 * values_within (tree x.0) ≤ budget.old.left) }
{
    budget.take(SIDES)?;
    let (keys, rest) = object_in(alloc, bytes, order, room, budget)?;
    let (values, rest) = object_in(alloc, rest, order, room, budget)?;
    Ok((dictionary_from(alloc, keys, values, left)?, rest))
}

// An object, after its type byte.
#[cycle(objects)]
#[tactic(auto, unfolding(crate::specs::Reading::object_by))]
fn form_in<'a>(
    alloc: Global,
    bytes: &'a [u8],
    order: Order,
    room: u32,
    form: Form,
    left: usize,
    budget: &mut Budget,
) -> Result<(Value, &'a [u8]), Stop>
    ensures found { Gives (λ x. (tree x.0, x.1.now)) result
        (object_by (object_at room order) room order form left bytes.now) }
    ensures few { IfOk result (λ x. budget.new.left + 40 * values_within (tree x.0) ≤ budget.old.left) }
{
    match form {
        Form::Atom(kind) => {
            let (x, rest) = atom_of(alloc, bytes, order, kind)?;
            Ok((Value::Atom(x), rest))
        }
        Form::Vector(kind) => {
            let (x, rest) = vector_of(alloc, bytes, order, kind)?;
            Ok((Value::Vector(x), rest))
        }
        Form::List => list_in(alloc, bytes, order, room, budget),
        Form::Dictionary => dictionary_in(alloc, bytes, order, room, left, budget),
        Form::Table => {
            let (x, rest) = table_of(alloc, bytes, order, room, left)?;
            Ok((Value::Table(x), rest))
        }
        Form::Identity => Ok((Value::Identity, identity_of(bytes, left)?)),
        Form::Wrong => {
            let (text, rest) = text_of(bytes)?;
            Ok((Value::Wrong(text_copied(alloc, text)?), rest))
        }
        Form::Unbuilt => Err(Stop::At(Fault::NotBuilt(left))),
        Form::Unknown => Err(Stop::At(Fault::BadType(left))),
    }
}

#[cycle(objects)]
#[tactic(auto, unfolding(crate::specs::Reading::object_at))]
fn object_in<'a>(
    alloc: Global,
    bytes: &'a [u8],
    order: Order,
    room: u32,
    budget: &mut Budget,
) -> Result<(Value, &'a [u8]), Stop>
    ensures found { Gives (λ x. (tree x.0, x.1.now)) result (object_at room order bytes.now) }
    ensures few { IfOk result (λ x. budget.new.left + 40 * values_within (tree x.0) ≤ budget.old.left) }
{
    match bytes {
        [] => Err(Stop::At(Fault::Truncated)),
        [first, rest @ ..] => {
            if room == 0 {
                return Err(Stop::At(Fault::TooDeep(bytes.len())));
            }
            let (value, after) = form_in(
                alloc,
                rest,
                order,
                room - 1,
                form_of_byte(*first),
                bytes.len(),
                budget,
            )?;
            budget.take(memory_beside(&value, rest.len().saturating_sub(after.len())))?;
            Ok((value, after))
        }
    }
}

/// Reads the object at the front of the bytes; returns its value and its length in bytes (KX, IPC reference). Bytes after
/// the object aren't read. Where the bytes don't begin with an object, the refusal is the first one from left to right.
/// A value that would take more than 20 bytes of memory for each of the bytes, and for each of the eight of a message's
/// header, is refused as one that there is no memory for.
pub fn decode(alloc: Global, bytes: &[u8], order: Order) -> Result<(Value, usize), DecodeRefusal>
    ensures found { IfOk result (λ x. object_of order bytes.now ≡ Ok (tree x.0, x.1)) }
    ensures refused { IfErr result (RefusesObject (object_of order bytes.now)) }
    // The bytes that were read are an encoding of the value.
    ensures spelled { IfOk result (λ x. Spells order (take x.1 bytes.now) (tree x.0)) }
    // A value that was read can be written.
    ensures plain { IfOk result (λ x. IsPlain (tree x.0)) }
    ensures fit { IfOk result (λ x. AtomsFit (tree x.0)) }
    // The values within it have 40 bytes each.
    ensures few { IfOk result (λ x. 40 * values_within (tree x.0) ≤ memory_for (length bytes.now)) }
    // Each encoding of a value at the front of the bytes is read as that value, unless memory runs out.
    ensures only { (t : Tree) (n : ℕ) → n ≤ length bytes.now → Spells order (take n bytes.now) t
        → Reads t n result }
{
    let mut budget = Budget::of_object(bytes.len());
    match object_in(alloc, bytes, order, 64, &mut budget) {
        Ok((value, rest)) => Ok((value, bytes.len().saturating_sub(rest.len()))),
        Err(Stop::At(fault)) => Err(fault.placed_in(bytes.len())),
        Err(Stop::Memory) => Err(DecodeRefusal::NoMemory),
    }
}
