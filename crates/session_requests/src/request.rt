//! Reading what a message asks for (KX, tick.q: `.u.upd`; u.q: `.u.sub`).
ghost use Rattle.std.specs.Prelude.{◌≡◌, [], ◌∷◌, if◌then◌else◌, IfOk, map, option_map, Option, Some};
ghost use Rattle.q_values.specs.Bytes.{HasNoNul};
ghost use Rattle.q_values.specs.Tree.{tree, trees, atom};
ghost use Rattle.session_requests.specs.Asked.{Asks, AreCharacters, AreParts};
ghost use Rattle.session_requests.specs.Request.{parts_request, vector_request, atom_request, request_of, character_of};
ghost use Rattle.session_requests.specs.Request.{call_of, update_of, subscription_of, function_of, symbol_of, items_in, is_named};
ghost use Rattle.session_requests.specs.Request.{wanted_of, wanted_in, wanted_among, subscription_in};
ghost use Rattle.qsql_request.specs.Views.{sub_of};

use plant_memory::UpdRequest;
use pubsub::{SubRequest, Wanted};
use q_values::{
    Atom, ByteKind, Column, Names, NoMemory, Sym, Symbols, Text, Value, Values, Vector,
};
use qsql_request as forms;
use std::alloc::Global;

/// What a message asks for.
#[derive(Drop)]
pub enum Asked {
    /// An update: a call of `.u.upd` with a symbol and a list or vector.
    Update(UpdRequest),
    /// A subscription: a call of `.u.sub` with a symbol and a symbol or a vector of symbols.
    Subscription(SubRequest),
    /// A call of either function whose arguments are of the wrong kinds.
    Mistyped,
    /// A text to be evaluated.
    Text(Text),
    /// Something that isn't served.
    Other,
}

/// The function that an update calls.
const UPD: [u8; 6] = *b".u.upd";

/// The function that a subscription calls.
const SUB: [u8; 6] = *b".u.sub";

/// The bytes of a vector, if it is one of characters.
fn characters_of(vector: &Vector) -> Option<&[u8]>
    ensures { AreCharacters vector.now.kind vector.now.atoms result }
{
    match vector.column() {
        Column::Bytes(kind, bytes) => match kind {
            ByteKind::Character => Some(bytes.as_slice()),
            ByteKind::Byte => None,
        },
        _ => None,
    }
}

/// Whether a value names this function: as a symbol or as characters.
fn is_named(name: &[u8], value: &Value) -> bool
    ensures { result ≡ is_named name.now (function_of (tree value.now)) }
{
    match value {
        Value::Atom(Atom::Symbol(symbol)) => symbol.bytes() == name,
        Value::Vector(vector) => match characters_of(vector) {
            Some(bytes) => bytes == name,
            None => false,
        },
        _ => false,
    }
}

/// The symbol that a value is, if it is one.
fn symbol_in(value: Value) -> Option<Sym>
    ensures { option_map (λ s. s) result ≡ symbol_of (tree value) }
{
    match value {
        Value::Atom(Atom::Symbol(symbol)) => Some(symbol),
        _ => None,
    }
}

/// The atoms of a vector, each as a value.
fn atoms_in(alloc: Global, vector: &Vector) -> Result<Values, NoMemory>
    ensures { IfOk result (λ values. trees values ≡ map atom vector.now.atoms) }
{
    let mut atoms = Vec::new(alloc);
    for i in 0..vector.len() {
        atoms.push(Value::Atom(vector.at(alloc, i)?))?;
    }
    Ok(Values::from_vec(atoms))
}

/// The items of a list or the atoms of a vector; another value has none.
fn items_in(alloc: Global, value: Value) -> Result<Option<Values>, NoMemory>
    ensures { IfOk result (λ found. option_map (λ v. trees v) found ≡ items_in (tree value)) }
{
    match value {
        Value::List(items) => Ok(Some(items)),
        Value::Vector(vector) => Ok(Some(atoms_in(alloc, &vector)?)),
        _ => Ok(None),
    }
}

/// The three items of a list that has exactly three.
fn parts_of(items: Values) -> Option<(Value, Value, Value)>
    ensures { AreParts (trees items) result }
{
    let mut parts = items.into_vec();
    if parts.len() != 3 {
        return None;
    }
    let third = parts.pop()?;
    let second = parts.pop()?;
    let first = parts.pop()?;
    Some((first, second, third))
}

/// The update of a table with these items, where the call has both.
fn update_of(table: Option<Sym>, items: Option<Values>) -> Asked
    ensures { Asks (update_of table (option_map (λ v. trees v) items)) result }
{
    let Some(table) = table else {
        return Asked::Mistyped;
    };
    let Some(items) = items else {
        return Asked::Mistyped;
    };
    Asked::Update(UpdRequest { table, items })
}

/// The rows that a symbol asks for: the null symbol asks for all, another one for its own.
fn wanted_of(alloc: Global, name: &[u8]) -> Result<Wanted, NoMemory>
    requires { HasNoNul name.now }
    ensures { IfOk result (λ wanted. wanted ≡ wanted_of name.now) }
{
    if name.is_empty() {
        return Ok(Wanted::Everything);
    }
    let mut symbols = Symbols::new(alloc);
    symbols.push(name)?;
    Ok(Wanted::Symbols(symbols))
}

/// The rows that a vector asks for, if it is one of symbols.
fn wanted_among(alloc: Global, vector: &Vector) -> Result<Option<Wanted>, NoMemory>
    ensures { IfOk result (λ wanted. wanted ≡ wanted_among vector.now.kind vector.now.atoms) }
{
    match vector.column() {
        Column::Symbols(symbols) => {
            let copied = symbols.take(alloc, 0, symbols.len())?;
            Ok(Some(Wanted::Symbols(copied)))
        }
        _ => Ok(None),
    }
}

/// The rows that a value asks for, if it is a symbol or a vector of symbols.
fn wanted_in(alloc: Global, value: Value) -> Result<Option<Wanted>, NoMemory>
    ensures { IfOk result (λ wanted. wanted ≡ wanted_in (tree value)) }
{
    match value {
        Value::Atom(Atom::Symbol(symbol)) => Ok(Some(wanted_of(alloc, symbol.bytes())?)),
        Value::Vector(vector) => wanted_among(alloc, &vector),
        _ => Ok(None),
    }
}

/// The subscription to these rows of a table, where the call has both.
fn subscription_of(tables: Option<Sym>, symbols: Option<Wanted>) -> Asked
    ensures { Asks (subscription_of tables symbols) result }
{
    let Some(tables) = tables else {
        return Asked::Mistyped;
    };
    let Some(symbols) = symbols else {
        return Asked::Mistyped;
    };
    Asked::Subscription(SubRequest { tables, symbols })
}

/// What a call of the function `first` with two arguments asks for.
fn call_in(alloc: Global, first: &Value, second: Value, third: Value) -> Result<Asked, NoMemory>
    ensures { IfOk result (Asks (call_of (function_of (tree first.now)) (tree second) (tree third))) }
{
    if is_named(&UPD, first) {
        let items = items_in(alloc, third)?;
        return Ok(update_of(symbol_in(second), items));
    }
    if is_named(&SUB, first) {
        let symbols = wanted_in(alloc, third)?;
        return Ok(subscription_of(symbol_in(second), symbols));
    }
    Ok(Asked::Other)
}

/// What a list asks for.
fn call_of_list(alloc: Global, items: Values) -> Result<Asked, NoMemory>
    ensures { IfOk result (Asks (parts_request (trees items))) }
{
    match parts_of(items) {
        Some((first, second, third)) => call_in(alloc, &first, second, third),
        None => Ok(Asked::Other),
    }
}

/// The subscription to the rows of one symbol.
fn subscription_to(alloc: Global, tables: &[u8], symbol: &[u8]) -> Result<Asked, NoMemory>
    requires tables { HasNoNul tables.now }
    requires symbol { HasNoNul symbol.now }
    ensures { IfOk result (Asks (subscription_of (Some tables.now) (Some (wanted_of symbol.now)))) }
{
    let tables = Sym::copied(alloc, tables)?;
    let symbols = wanted_of(alloc, symbol)?;
    Ok(Asked::Subscription(SubRequest { tables, symbols }))
}

/// What a vector of symbols asks for: three of them are a call whose last argument is a symbol.
fn call_of_symbols(alloc: Global, symbols: &Symbols) -> Result<Asked, NoMemory>
    ensures { IfOk result (Asks (parts_request (map atom (map (λ s. Atom.Symbol s) symbols.now)))) }
{
    if symbols.len() != 3 {
        return Ok(Asked::Other);
    }
    let function = symbols.at(0);
    if function == UPD.as_slice() {
        return Ok(Asked::Mistyped);
    }
    if function == SUB.as_slice() {
        return subscription_to(alloc, symbols.at(1), symbols.at(2));
    }
    Ok(Asked::Other)
}

/// What a vector asks for.
fn vector_asked(alloc: Global, vector: &Vector) -> Result<Asked, NoMemory>
    ensures { IfOk result (Asks (vector_request vector.now.kind vector.now.atoms)) }
{
    match vector.column() {
        Column::Bytes(kind, bytes) => match kind {
            ByteKind::Character => {
                let text = Text::from_vec(alloc, Vec::from_slice(alloc, bytes)?)?;
                Ok(Asked::Text(text))
            }
            ByteKind::Byte => Ok(Asked::Other),
        },
        Column::Symbols(symbols) => call_of_symbols(alloc, symbols),
        _ => Ok(Asked::Other),
    }
}

/// The byte of an atom, if it is a character.
fn character_in(atom: &Atom) -> Option<u8>
    ensures { result ≡ character_of atom.now }
{
    match atom {
        Atom::Character(byte) => Some(*byte),
        _ => None,
    }
}

/// What an atom asks for.
fn atom_asked(alloc: Global, atom: &Atom) -> Result<Asked, NoMemory>
    ensures { IfOk result (Asks (atom_request (character_of atom.now))) }
{
    match character_in(atom) {
        Some(byte) => Ok(Asked::Text(Text::from_vec(alloc, vec![in alloc; byte]?)?)),
        None => Ok(Asked::Other),
    }
}

/// What a message with this value asks for. Fails with `NoMemory` where the request can't be copied out of it.
pub fn asked_by(alloc: Global, value: Value) -> Result<Asked, NoMemory>
    ensures { IfOk result (Asks (request_of (tree value))) }
{
    match value {
        Value::Atom(atom) => atom_asked(alloc, &atom),
        Value::Vector(vector) => vector_asked(alloc, &vector),
        Value::List(items) => call_of_list(alloc, items),
        Value::Dict(_) | Value::Table(_) | Value::Keyed(_) | Value::Identity | Value::Wrong(_) =>
            Ok(Asked::Other),
    }
}

/// The symbols of some names.
fn symbols_of(alloc: Global, names: &Names) -> Result<Symbols, NoMemory>
    ensures { IfOk result (λ symbols. symbols ≡ names.now) }
{
    let mut symbols = Symbols::new(alloc);
    for i in 0..names.len() {
        symbols.push(names.at(i).bytes())?;
    }
    Ok(symbols)
}

/// The rows that a text asks for: all, or those of its symbols.
fn wanted_by(alloc: Global, form: &forms::SubRequest) -> Result<Wanted, NoMemory>
    ensures { IfOk result (λ wanted. wanted ≡ (if form.now.all then Wanted.Everything else Wanted.Symbols form.now.names)) }
{
    if form.all {
        return Ok(Wanted::Everything);
    }
    Ok(Wanted::Symbols(symbols_of(alloc, &form.names)?))
}

/// What a text that subscribes asks for, if it names exactly one table.
pub fn subscription_in(
    alloc: Global,
    form: &forms::SubRequest,
) -> Result<Option<SubRequest>, NoMemory>
    ensures { IfOk result (λ found. found ≡ subscription_in (sub_of form.now)) }
{
    if form.tables.len() != 1 {
        return Ok(None);
    }
    let tables = Sym::copied(alloc, form.tables.at(0).bytes())?;
    let symbols = wanted_by(alloc, form)?;
    Ok(Some(SubRequest { tables, symbols }))
}
