//! How long an object is. These functions go through the bytes as those of `reading` do, and keep no value.
ghost use Rattle.std.specs.Prelude.{◌≡◌, ◌*◌, ◌^◌, ◌<◌};
ghost use Rattle.ipc_codec.specs.Reading.{Finds, object_of, measured, is_symbol};
ghost use Rattle.ipc_codec.specs.Extent.{after_texts, after_elements, after_vector, after_atom, after_column_by, after_column};
ghost use Rattle.ipc_codec.specs.Extent.{after_columns, after_block, after_list_of_columns, after_names, after_grid, after_identity};
ghost use Rattle.ipc_codec.specs.Extent.{after_items, after_dictionary, after_form, after_object};

use crate::fault::Fault;
use crate::form::{Form, form_of_byte};
use crate::heads::{count_of, part_of, text_of};
use crate::order::Order;
use crate::refusal::DecodeRefusal;
use q_values::Kind;

/// What is kept of a value: whether it is a table, and how many items it has as one side of a dictionary.
#[derive(Clone, Copy)]
pub struct Outline {
    /// Whether it is a table.
    pub is_table: bool,
    /// Its number of items: 1 for an atom, the rows of a table.
    pub count: usize,
}

/// What is kept of a table's columns.
#[derive(Clone, Copy)]
pub struct Block {
    /// Their number.
    pub columns: usize,
    /// The rows of the first column, 0 without columns.
    pub rows: usize,
    /// Whether all columns have this number of rows.
    pub have_equal_lengths: bool,
}

fn after_texts_of(bytes: &[u8], count: usize) -> Result<&[u8], Fault>
    ensures { Finds (λ x. x.now) result (after_texts count bytes.now) }
{
    let mut rest = bytes;
    for _ in 0..count {
        let (_, after) = text_of(rest)?;
        rest = after;
    }
    Ok(rest)
}

#[tactic(auto, unfolding(crate::specs::Extent::after_elements))]
fn after_elements_of(bytes: &[u8], kind: Kind, count: usize) -> Result<&[u8], Fault>
    requires { count < 2 ^ 31 }
    ensures { Finds (λ x. x.now) result (after_elements kind count bytes.now) }
{
    if kind == Kind::Symbol {
        return after_texts_of(bytes, count);
    }
    let size = count * kind.width();
    if bytes.len() < size {
        return Err(Fault::Truncated);
    }
    Ok(&bytes[size..])
}

#[tactic(auto, unfolding(crate::specs::Extent::after_vector))]
fn after_vector_of(bytes: &[u8], order: Order, kind: Kind) -> Result<(usize, &[u8]), Fault>
    ensures { Finds (λ x. (x.0, x.1.now)) result (after_vector order kind bytes.now) }
{
    let (count, rest) = count_of(bytes, order)?;
    let rest = after_elements_of(rest, kind, count)?;
    Ok((count, rest))
}

#[tactic(auto, unfolding(crate::specs::Extent::after_atom))]
fn after_atom_of(bytes: &[u8], kind: Kind) -> Result<&[u8], Fault>
    ensures { Finds (λ x. x.now) result (after_atom kind bytes.now) }
{
    if kind == Kind::Symbol {
        let (_, rest) = text_of(bytes)?;
        return Ok(rest);
    }
    let size = kind.width();
    if bytes.len() < size {
        return Err(Fault::Truncated);
    }
    Ok(&bytes[size..])
}

#[tactic(auto, unfolding(crate::specs::Extent::after_column))]
fn after_column_of(bytes: &[u8], order: Order, room: u32) -> Result<(usize, &[u8]), Fault>
    ensures { Finds (λ x. (x.0, x.1.now)) result (after_column room order bytes.now) }
{
    match bytes {
        [] => Err(Fault::Truncated),
        [first, rest @ ..] => {
            if room == 0 {
                return Err(Fault::TooDeep(bytes.len()));
            }
            match Kind::from_type_number(u16::from(*first)) {
                None => Err(Fault::NotBuilt(bytes.len())),
                Some(kind) => after_vector_of(rest, order, kind),
            }
        }
    }
}

// Whether all of these columns have this number of rows.
fn after_columns_of(
    bytes: &[u8],
    order: Order,
    room: u32,
    rows: usize,
    count: usize,
) -> Result<(bool, &[u8]), Fault>
    ensures { Finds (λ x. (x.0, x.1.now)) result (after_columns room order rows count bytes.now) }
{
    let mut rest = bytes;
    let mut have_equal_lengths = true;
    for _ in 0..count {
        let (here, after) = after_column_of(rest, order, room)?;
        have_equal_lengths = have_equal_lengths && here == rows;
        rest = after;
    }
    Ok((have_equal_lengths, rest))
}

#[tactic(auto, unfolding(crate::specs::Extent::after_block))]
fn after_block_of(
    bytes: &[u8],
    order: Order,
    room: u32,
    count: usize,
) -> Result<(Block, &[u8]), Fault>
    ensures { Finds (λ x. (x.0, x.1.now)) result (after_block room order count bytes.now) }
{
    if count == 0 {
        let none = Block {
            columns: 0,
            rows: 0,
            have_equal_lengths: true,
        };
        return Ok((none, bytes));
    }
    let (rows, rest) = after_column_of(bytes, order, room)?;
    let (have_equal_lengths, rest) = after_columns_of(rest, order, room, rows, count - 1)?;
    let block = Block {
        columns: count,
        rows,
        have_equal_lengths,
    };
    Ok((block, rest))
}

#[tactic(auto, unfolding(crate::specs::Extent::after_list_of_columns))]
fn after_list_of_columns_of(bytes: &[u8], order: Order, room: u32) -> Result<(Block, &[u8]), Fault>
    ensures { Finds (λ x. (x.0, x.1.now)) result (after_list_of_columns room order bytes.now) }
{
    let inner = part_of(bytes, room, 0, 0)?;
    let (count, rest) = count_of(inner, order)?;
    after_block_of(rest, order, room.saturating_sub(1), count)
}

#[tactic(auto, unfolding(crate::specs::Extent::after_names))]
fn after_names_of(bytes: &[u8], order: Order, room: u32) -> Result<(usize, &[u8]), Fault>
    ensures { Finds (λ x. (x.0, x.1.now)) result (after_names room order bytes.now) }
{
    let symbols = Kind::Symbol.type_number();
    let inner = part_of(bytes, room, symbols, symbols)?;
    let (count, rest) = count_of(inner, order)?;
    let rest = after_texts_of(rest, count)?;
    Ok((count, rest))
}

// A table's number of rows. From its type byte on, `left` bytes are left.
#[tactic(auto, unfolding(crate::specs::Extent::after_grid))]
fn after_grid_of(
    bytes: &[u8],
    order: Order,
    room: u32,
    left: usize,
) -> Result<(usize, &[u8]), Fault>
    ensures { Finds (λ x. (x.0, x.1.now)) result (after_grid left room order bytes.now) }
{
    match bytes {
        [] => Err(Fault::Truncated),
        [_, rest @ ..] => {
            let inner = part_of(rest, room, 99, 127)?;
            let room = room.saturating_sub(1);
            let (names, rest) = after_names_of(inner, order, room)?;
            let (block, rest) = after_list_of_columns_of(rest, order, room)?;
            if block.columns > 0 && names == block.columns && block.have_equal_lengths {
                Ok((block.rows, rest))
            } else {
                Err(Fault::BadShape(left))
            }
        }
    }
}

#[tactic(auto, unfolding(crate::specs::Extent::after_identity))]
fn after_identity_of(bytes: &[u8], left: usize) -> Result<&[u8], Fault>
    ensures { Finds (λ x. x.now) result (after_identity left bytes.now) }
{
    match bytes {
        [] => Err(Fault::Truncated),
        [0, rest @ ..] => Ok(rest),
        [_, ..] => Err(Fault::NotBuilt(left)),
    }
}

#[cycle(reach)]
fn after_items_of(bytes: &[u8], order: Order, room: u32, count: usize) -> Result<&[u8], Fault>
    ensures { Finds (λ x. x.now) result (after_items (after_object room order) count bytes.now) }
{
    let mut rest = bytes;
    for _ in 0..count {
        let (_, after) = after_object_of(rest, order, room)?;
        rest = after;
    }
    Ok(rest)
}

#[cycle(reach)]
#[tactic(auto, unfolding(crate::specs::Extent::after_dictionary))]
fn after_dictionary_of(
    bytes: &[u8],
    order: Order,
    room: u32,
    left: usize,
) -> Result<(Outline, &[u8]), Fault>
    ensures { Finds (λ x. (x.0, x.1.now)) result (after_dictionary (after_object room order) left bytes.now) }
{
    let (keys, rest) = after_object_of(bytes, order, room)?;
    let (values, rest) = after_object_of(rest, order, room)?;
    if keys.count != values.count {
        return Err(Fault::BadShape(left));
    }
    let outline = Outline {
        is_table: false,
        count: keys.count,
    };
    Ok((outline, rest))
}

// An object, after its type byte, from which on `left` bytes are left.
#[cycle(reach)]
#[tactic(auto, unfolding(crate::specs::Extent::after_form, crate::specs::Extent::after_list))]
fn after_form_of(
    bytes: &[u8],
    order: Order,
    room: u32,
    form: Form,
    left: usize,
) -> Result<(Outline, &[u8]), Fault>
    ensures { Finds (λ x. (x.0, x.1.now)) result
        (after_form (after_object room order) room order form left bytes.now) }
{
    let (is_table, count, rest) = match form {
        Form::Atom(kind) => (false, 1, after_atom_of(bytes, kind)?),
        Form::Vector(kind) => {
            let (count, rest) = after_vector_of(bytes, order, kind)?;
            (false, count, rest)
        }
        Form::List => {
            let (count, rest) = count_of(bytes, order)?;
            (false, count, after_items_of(rest, order, room, count)?)
        }
        Form::Dictionary => return after_dictionary_of(bytes, order, room, left),
        Form::Table => {
            let (rows, rest) = after_grid_of(bytes, order, room, left)?;
            (true, rows, rest)
        }
        Form::Identity => (false, 1, after_identity_of(bytes, left)?),
        Form::Wrong => {
            let (_, rest) = text_of(bytes)?;
            (false, 1, rest)
        }
        Form::Unbuilt => return Err(Fault::NotBuilt(left)),
        Form::Unknown => return Err(Fault::BadType(left)),
    };
    Ok((Outline { is_table, count }, rest))
}

#[cycle(reach)]
#[tactic(auto, unfolding(crate::specs::Extent::after_object))]
fn after_object_of(bytes: &[u8], order: Order, room: u32) -> Result<(Outline, &[u8]), Fault>
    ensures { Finds (λ x. (x.0, x.1.now)) result (after_object room order bytes.now) }
{
    match bytes {
        [] => Err(Fault::Truncated),
        [first, rest @ ..] => {
            if room == 0 {
                return Err(Fault::TooDeep(bytes.len()));
            }
            after_form_of(rest, order, room - 1, form_of_byte(*first), bytes.len())
        }
    }
}

/// The length in bytes of the object at the front of the bytes, or the refusal that `decode` would return (KX, IPC
/// reference). It allocates nothing, and its calls nest 64 levels deep at most.
pub fn measure(bytes: &[u8], order: Order) -> Result<usize, DecodeRefusal>
    ensures { result ≡ measured (object_of order bytes.now) }
{
    match after_object_of(bytes, order, 64) {
        Ok((_, rest)) => Ok(bytes.len().saturating_sub(rest.len())),
        Err(fault) => Err(fault.placed_in(bytes.len())),
    }
}
