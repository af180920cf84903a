//! The names of tables, columns and kinds in a schema text.
ghost use Rattle.std.specs.Prelude.{◌≡◌, ◌≢◌, ◌<◌, ◌≤◌, length, map, IfOk, IfErr, IfSome, true, false};
ghost use Rattle.std.specs.List.{list_any};
ghost use Rattle.std.specs.Str.{bytes_eq};
ghost use Rattle.q_values.specs.declared.kind.Kind.TheVariants as k;
ghost use Rattle.day_rows.specs.Schema.{IsName, IsWord};
ghost use Rattle.schema_text.specs.Kinds.{kind_named};
ghost use Rattle.schema_text.specs.Reading.{Gives, judged_by, name_at};
ghost use Rattle.schema_text.specs.declared.refusal.SchemaRefusal.TheVariants as r;

use crate::refusal::SchemaRefusal;
use crate::tokens::read_word;
use day_rows::Shape;
use q_values::{Kind, Sym};
use q_words::{is_reserved_name, look_up};
use std::alloc::Global;

/// Whether the texts are equal, byte by byte.
pub fn is_same(some: &[u8], other: &[u8]) -> bool
    ensures { result ≡ bytes_eq some.now other.now }
{
    some == other
}

fn has_name(names: &[Sym], name: &[u8]) -> bool
    ensures { result ≡ list_any (bytes_eq name.now) names.now }
{
    for known in names {
        if is_same(name, known.bytes()) {
            return true;
        }
    }
    false
}

fn is_table(shape: &Shape, name: &[u8]) -> bool
    ensures { result ≡ bytes_eq name.now shape.now.table }
{
    is_same(name, shape.table.bytes())
}

fn any_table(tables: &[Shape], name: &[u8]) -> bool
    ensures { result ≡ list_any (λ table. bytes_eq name.now table.table) tables.now }
{
    for known in tables {
        if is_table(known, name) {
            return true;
        }
    }
    false
}

fn has_table(tables: &[Shape], name: &[u8]) -> bool
    ensures { result ≡ list_any (bytes_eq name.now) (map (λ table. table.table) tables.now) }
{
    any_table(tables, name)
}

fn sym_of(alloc: Global, bytes: &[u8]) -> Result<Sym, SchemaRefusal>
    ensures ok { IfOk result (λ name. name ≡ bytes.now) }
    ensures err { IfErr result (λ e. e ≡ r.NoMemory) }
{
    match Sym::of(alloc, bytes) {
        Ok(name) => Ok(name),
        Err(_) => Err(SchemaRefusal::NoMemory),
    }
}

// A new name. `known` says whether there is one like it already, `count` how many names there are, and `most` how many
// there may be. The errors are, in this order, `Twice`, `Reserved` and `Limit`.
#[tactic(auto, unfolding(crate::specs::Reading::name_at))]
fn judge(
    alloc: Global,
    known: bool,
    count: usize,
    most: usize,
    word: &[u8],
) -> Result<Sym, SchemaRefusal>
    requires { IsWord word.now }
    ensures value { Gives (λ name. name) result (judged_by known count most word.now) }
    ensures lawful { IfOk result IsName }
    ensures fresh { IfOk result (λ _. known ≡ false) }
    ensures few { IfOk result (λ _. count < most) }
{
    let name = sym_of(alloc, word)?;
    if known {
        return Err(SchemaRefusal::Twice(name));
    }
    if is_reserved_name(word) {
        return Err(SchemaRefusal::Reserved(name));
    }
    if count >= most || word.len() > 64 {
        return Err(SchemaRefusal::Limit);
    }
    Ok(name)
}

/// The name of a column, which must differ from the earlier ones, and the offset after it.
#[tactic(auto, unfolding(crate::specs::Reading::name_at))]
pub fn column_name(
    alloc: Global,
    names: &[Sym],
    text: &[u8],
    at: usize,
) -> Result<(Sym, usize), SchemaRefusal>
    requires { at ≤ length text.now }
    ensures value { Gives (λ name. name) result (name_at names.now 48 text.now at) }
    ensures within { IfOk result (λ name. name.1 ≤ length text.now) }
    ensures lawful { IfOk result (λ name. IsName name.0) }
    ensures fresh { IfOk result (λ name. list_any (bytes_eq name.0) names.now ≡ false) }
    ensures few { IfOk result (λ _. length names.now < 48) }
{
    let word = read_word(text, at)?;
    let known = has_name(names, word.bytes);
    let name = judge(alloc, known, names.len(), 48, word.bytes)?;
    Ok((name, word.end))
}

/// The name of a table, which must differ from the earlier ones, and the offset after it.
#[tactic(auto, unfolding(crate::specs::Reading::name_at))]
pub fn table_name(
    alloc: Global,
    tables: &[Shape],
    text: &[u8],
    at: usize,
) -> Result<(Sym, usize), SchemaRefusal>
    requires { at ≤ length text.now }
    ensures value { Gives (λ name. name) result (name_at (map (λ table. table.table) tables.now) 64 text.now at) }
    ensures within { IfOk result (λ name. name.1 ≤ length text.now) }
    ensures lawful { IfOk result (λ name. IsName name.0) }
    ensures fresh { IfOk result (λ name. list_any (bytes_eq name.0) (map (λ table. table.table) tables.now) ≡ false) }
    ensures few { IfOk result (λ _. length tables.now < 64) }
{
    let word = read_word(text, at)?;
    let known = has_table(tables, word.bytes);
    let name = judge(alloc, known, tables.len(), 64, word.bytes)?;
    Ok((name, word.end))
}

// The kinds that a column may have, each with its name.
const KIND_NAMES: [(&[u8], Kind); 13] = [
    (b"boolean", Kind::Boolean),
    (b"byte", Kind::Byte),
    (b"short", Kind::Short),
    (b"int", Kind::Integer),
    (b"long", Kind::Long),
    (b"symbol", Kind::Symbol),
    (b"timestamp", Kind::Timestamp),
    (b"month", Kind::Month),
    (b"date", Kind::Date),
    (b"timespan", Kind::Timespan),
    (b"minute", Kind::Minute),
    (b"second", Kind::Second),
    (b"time", Kind::Time),
];

/// The kind with this name, or `None` where no column may have such a kind.
#[tactic(auto, unfolding(crate::specs::Kinds::kind_named))]
pub fn kind_of_name(name: &[u8]) -> Option<Kind>
    ensures value { result ≡ kind_named name.now }
    ensures lawful { IfSome result (λ kind. kind ≢ k.Character) }
{
    look_up(&KIND_NAMES, name)
}
