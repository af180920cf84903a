//! A run of `init`.
ghost use Rattle.std.specs.Prelude.{◌≡◌};
ghost use Rattle.plant_run.specs.Init.{FormatsIn, EndsFormat};

use crate::causes::StartRefusal;
use crate::ends::{cannot_start, short};
use date_logs::FormatRefusal;
use day_rows::Schema;
use plant_core::Plant;
use program_outside::{MakeFault, Outside};
use std::alloc::Global;

/// Formats the folder of this path, which is made where it isn't there, for a plant of these tables; gives the exit status.
pub fn format_folder<O: Outside>(alloc: Global, path: &str, schema: &Schema, outside: &mut O) -> u8
    ensures { FormatsIn schema.now path.now (O.seen outside.old) (O.seen outside.new) result }
{
    let mut disk = match outside.make_folder(alloc, path) {
        Ok(disk) => disk,
        Err(MakeFault { cause }) => {
            return cannot_start(alloc, path, &StartRefusal::Device(cause), outside);
        }
    };
    let formatted = Plant::<O::Disk>::format(alloc, &mut disk, schema);
    outside.keep(disk);
    end_format(alloc, path, formatted, outside)
}

/// Prints the lines of a formatting that was refused, and gives the exit status.
fn end_format<O: Outside>(
    alloc: Global,
    path: &str,
    formatted: Result<(), FormatRefusal>,
    outside: &mut O,
) -> u8
    ensures { EndsFormat path.now (O.seen outside.old) (O.seen outside.new) result formatted }
{
    match formatted {
        Ok(()) => 0,
        Err(FormatRefusal::NoMemory) => short(outside),
        Err(why) => cannot_start(alloc, path, &StartRefusal::Format(why), outside),
    }
}
