//! The tables of a run.
ghost use Rattle.std.specs.Prelude.{◌≡◌, MatchResult};
ghost use Rattle.std.specs.Option.{option_map};
ghost use Rattle.program_outside.specs.Outside.{read_of};
ghost use Rattle.plant_run.specs.Tables.{FindsTables, FindsIn};

use crate::causes::StartRefusal;
use crate::ends::{cannot_start, short};
use day_rows::Schema;
use program_outside::{FileRefusal, Outside};
use schema_text::{SchemaRefusal, built_in_schema, read_schema};
use std::alloc::Global;

/// The tables of the schema in this file, or the built-in ones; or the exit status of a program that ends without them,
/// with its lines printed.
pub fn find_tables<O: Outside>(
    alloc: Global,
    path: Option<&str>,
    outside: &mut O,
) -> Result<Schema, u8>
    ensures { FindsTables (option_map (λ s. s.now) path.entry) (O.seen outside.old) (O.seen outside.new) result }
{
    match path {
        None => match built_in_schema(alloc) {
            Ok(schema) => Ok(schema),
            Err(_) => Err(short(outside)),
        },
        Some(path) => match outside.read_file(alloc, path) {
            Ok(text) => tables_in(alloc, path, &text, outside),
            Err(FileRefusal::MakeFault(cause)) => {
                Err(cannot_start(alloc, path, &StartRefusal::Device(cause), outside))
            }
            Err(FileRefusal::NoMemory) => Err(short(outside)),
        },
    }
}

/// The tables of the schema that this text of a file spells, or the exit status.
fn tables_in<O: Outside>(
    alloc: Global,
    path: &str,
    text: &[u8],
    outside: &mut O,
) -> Result<Schema, u8>
    ensures { FindsIn path.now text.now (O.seen outside.old) (O.seen outside.new) result }
{
    match read_schema(alloc, text) {
        Ok(schema) => Ok(schema),
        Err(SchemaRefusal::NoMemory) => Err(short(outside)),
        Err(why) => Err(cannot_start(alloc, path, &StartRefusal::Schema(why), outside)),
    }
}
