//! What is known of every schema.
ghost use Rattle.day_rows.specs.Schema.{IsSchema};

use day_rows::Schema;

/// Whoever calls it knows that the tables are such as a plant may have. It does nothing else.
pub fn learn_schema(schema: &Schema)
    ensures { IsSchema schema.now }
{
    let _first = schema.get(0);
}
