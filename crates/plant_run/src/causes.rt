//! Why the program can't start, in plain words.
ghost use Rattle.std.specs.Prelude.{◌≡◌, ◌++◌, OnOk};
ghost use Rattle.std.specs.Fmt.{decimal};
ghost use Rattle.plant_run.specs.Causes.{Appends, NamesDate, Says, SaysDamagedLog, SaysDated, SaysLoad, format_words, schema_words};

use date_loading::LoadRefusal;
use date_logs::FormatRefusal;
use itoa::Buffer;
use program_outside::Cause;
use q_text::write_date;
use q_values::NoMemory;
use schema_text::SchemaRefusal;

/// The least and greatest dates that a plant may have, in days since 2000.01.01.
const FIRST_DATE: i32 = -106_752;

const LAST_DATE: i32 = 106_751;

/// Why the program can't start.
#[derive(Drop)]
pub enum StartRefusal {
    /// A device couldn't be made, or a file not read.
    Device(Cause),
    /// The bytes of the file are no schema.
    Schema(SchemaRefusal),
    /// The folder isn't formatted.
    Format(FormatRefusal),
    /// The folder's plant isn't loaded.
    Load(LoadRefusal),
}

impl StartRefusal {
    /// Appends why, in plain words. Out of memory, some of them may have been appended.
    pub fn push_words(&self, line: &mut Vec<u8>) -> Result<(), NoMemory>
        ensures { OnOk result (Appends (Says self.now) line.old.items line.new.items) }
    {
        match self {
            StartRefusal::Device(cause) => push(line, cause.words().as_bytes()),
            StartRefusal::Schema(why) => push_schema_words(line, why),
            StartRefusal::Format(why) => push(line, format_words(why)),
            StartRefusal::Load(why) => push_load_words(line, why),
        }
    }
}

/// Appends why a text is no schema.
fn push_schema_words(line: &mut Vec<u8>, why: &SchemaRefusal) -> Result<(), NoMemory>
    ensures { OnOk result (line.new.items ≡ line.old.items ++ schema_words why.now) }
{
    match why {
        SchemaRefusal::Parse(at) => push_numbered(
            line,
            b"it is no schema: the token can't follow at byte ",
            *at as u64,
        ),
        SchemaRefusal::BadKind(at) => push_numbered(
            line,
            b"it is no schema: an unknown kind of column at byte ",
            *at as u64,
        ),
        SchemaRefusal::Twice(name) => push_named(
            line,
            b"it is no schema: a second table or column has the name ",
            name.bytes(),
        ),
        SchemaRefusal::TimeSym(table) => {
            push_named(
                line,
                b"it is no schema: time, a timespan, and sym, a symbol, don't come first in the table ",
                table.bytes(),
            )
        }
        SchemaRefusal::Reserved(name) => push_named(
            line,
            b"it is no schema: a reserved name: ",
            name.bytes(),
        ),
        SchemaRefusal::Limit => push(
            line,
            b"it is no schema: more than 64 tables, 48 columns of a table or 64 bytes of a name",
        ),
        SchemaRefusal::NoMemory => push(line, b"out of memory"),
    }
}

/// Why a folder isn't formatted.
fn format_words(why: &FormatRefusal) -> &'static [u8]
    ensures { result.now ≡ format_words why.now }
{
    match why {
        FormatRefusal::AlreadyMade => b"it is formatted already",
        FormatRefusal::DiskFault => b"the disk failed as it was formatted",
        FormatRefusal::NoMemory => b"out of memory",
    }
}

/// Appends why a plant isn't loaded.
fn push_load_words(line: &mut Vec<u8>, why: &LoadRefusal) -> Result<(), NoMemory>
    ensures { OnOk result (Appends (SaysLoad why.now) line.old.items line.new.items) }
{
    match why {
        LoadRefusal::BadManifest { bytes: 0 } => push(
            line,
            b"it is not formatted, or its manifest f0 is damaged at byte 0",
        ),
        LoadRefusal::BadManifest { bytes } => push_numbered(
            line,
            b"its manifest f0 is damaged at byte ",
            *bytes,
        ),
        LoadRefusal::SchemaDiffers {
            table,
            kept: _,
            given: _,
        } => {
            push_named(
                line,
                b"it was formatted with another schema, which differs in the table ",
                table.bytes(),
            )
        }
        LoadRefusal::EarlierDate { kept } => push_dated(
            line,
            b"it has opened a date that is later than the clock's: ",
            kept,
        ),
        LoadRefusal::CorruptLog {
            date,
            chunks,
            bytes,
        } => push_damaged_log(line, date, *chunks, *bytes),
        LoadRefusal::DiskFault => push(line, b"the disk failed as its plant was loaded"),
        LoadRefusal::NumbersSpent => push(line, b"the numbers of its sessions are used up"),
        LoadRefusal::NoMemory => push(line, b"out of memory"),
    }
}

/// Appends which log is damaged, and where.
fn push_damaged_log(line: &mut Vec<u8>, date: &i32, chunks: u64, bytes: u64) -> Result<(), NoMemory>
    ensures { OnOk result (Appends (SaysDamagedLog date.now chunks bytes) line.old.items line.new.items) }
{
    push_dated(line, b"its log of ", date)?;
    push_numbered(line, b" is damaged at byte ", bytes)?;
    push_numbered(line, b", after ", chunks)?;
    push(line, b" updates")
}

/// Appends words.
fn push(line: &mut Vec<u8>, words: &[u8]) -> Result<(), NoMemory>
    ensures { OnOk result (line.new.items ≡ line.old.items ++ words.now) }
{
    Ok(line.extend_from_slice(words)?)
}

/// Appends words, and then a name.
fn push_named(line: &mut Vec<u8>, words: &[u8], name: &[u8]) -> Result<(), NoMemory>
    ensures { OnOk result (line.new.items ≡ line.old.items ++ (words.now ++ name.now)) }
{
    line.extend_from_slice(words)?;
    push(line, name)
}

/// Appends words, and then a number.
fn push_numbered(line: &mut Vec<u8>, words: &[u8], number: u64) -> Result<(), NoMemory>
    ensures { OnOk result (line.new.items ≡ line.old.items ++ (words.now ++ decimal number)) }
{
    push_named(line, words, Buffer::new().format(number).as_bytes())
}

/// Appends words, and then a date.
fn push_dated(line: &mut Vec<u8>, words: &[u8], date: &i32) -> Result<(), NoMemory>
    ensures { OnOk result (Appends (SaysDated words.now date.now) line.old.items line.new.items) }
{
    line.extend_from_slice(words)?;
    push_date(line, date)
}

/// Appends a date.
fn push_date(line: &mut Vec<u8>, date: &i32) -> Result<(), NoMemory>
    ensures { OnOk result (Appends (NamesDate date.now) line.old.items line.new.items) }
{
    if *date >= FIRST_DATE && *date <= LAST_DATE {
        write_date(line, *date)
    } else {
        push(line, Buffer::new().format(*date).as_bytes())
    }
}
