//! What the type byte of an object says.
ghost use Rattle.std.specs.Prelude.{◌≡◌};
ghost use Rattle.ipc_codec.specs.Types.{form_of, other_form, is_unbuilt};

use q_values::Kind;

/// How an object goes on after its type byte.
#[derive(Clone, Copy, Debug, PartialEq, Eq)]
pub enum Form {
    /// An atom: one element of the kind.
    Atom(Kind),
    /// A vector: an attribute byte, a count and elements of the kind.
    Vector(Kind),
    /// A general list: an attribute byte, a count and objects.
    List,
    /// A dictionary or keyed table: two objects.
    Dictionary,
    /// A table: an attribute byte and a dictionary of names and columns.
    Table,
    /// The generic null `(::)`: a 0.
    Identity,
    /// An error: a text that ends with a 0.
    Wrong,
    /// A type of kdb+ that is not supported.
    Unbuilt,
    /// No type of kdb+.
    Unknown,
}

// Whether vectors of this type number are known to kdb+ and not supported here.
fn is_outside(code: u16) -> bool
    ensures { result ≡ is_unbuilt code }
{
    code == 2 || code == 8 || code == 9 || code == 15 || (code >= 20 && code <= 97)
}

// The form of a type byte that is neither an atom's nor a vector's.
#[tactic(auto, unfolding(crate::specs::Types::other_form))]
fn other_form_of(byte: u8) -> Form
    ensures { result ≡ other_form byte }
{
    let code = u16::from(byte);
    if byte == 0 {
        Form::List
    } else if byte == 98 {
        Form::Table
    } else if byte == 99 || byte == 127 {
        Form::Dictionary
    } else if byte == 101 {
        Form::Identity
    } else if byte == 128 {
        Form::Wrong
    } else if is_outside(code) || is_outside(256 - code) || (byte >= 100 && byte <= 112) {
        Form::Unbuilt
    } else {
        Form::Unknown
    }
}

/// The form of an object with this type byte.
#[tactic(auto, unfolding(crate::specs::Types::form_of))]
pub fn form_of_byte(byte: u8) -> Form
    ensures { result ≡ form_of byte }
{
    let code = u16::from(byte);
    if let Some(kind) = Kind::from_type_number(code) {
        return Form::Vector(kind);
    }
    if let Some(kind) = Kind::from_type_number(256 - code) {
        return Form::Atom(kind);
    }
    other_form_of(byte)
}
