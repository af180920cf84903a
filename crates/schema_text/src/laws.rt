//! Laws of the grammar. Each is the contract of a function with an empty body.
ghost use Rattle.schema_text.specs.Laws.{OneReading, BuiltInIsRead, WrittenIsRead};

/// A text has one reading: it is one schema and has no fault, or it has one fault and is no schema.
pub fn texts_have_one_reading()
    ensures { OneReading }
{}

/// The text that is built in is the schema that is built in: the tables `quote` and `trade`.
pub fn built_in_text_is_read()
    ensures { BuiltInIsRead }
{}

/// What is written of a schema, with a table or more, is read back as that schema.
pub fn written_schema_is_read()
    ensures { WrittenIsRead }
{}
