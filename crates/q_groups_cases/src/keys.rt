//! Key columns, and their groups.
ghost use Rattle.std.specs.Prelude.{◌≡◌, ◌<◌, true, length, All};
ghost use Rattle.q_values.specs.Table.{rows_of};

mod many;
mod tables;

use q_keys::KeyGroups;
use q_values::Vector;
use std::alloc::Global;
use std::process::Abort;

// Whether there are columns, of one length.
fn are_keys(columns: &[Vector]) -> bool
    ensures some { result ≡ true → 0 < length columns.now }
    ensures even { result ≡ true → All (λ c. length c.atoms ≡ rows_of columns.now) columns.now }
{
    let rows = match columns {
        [first, ..] => first.len(),
        _ => return false,
    };
    for column in columns {
        if column.len() != rows {
            return false;
        }
    }
    true
}

/// The groups of these key columns.
pub(crate) fn grouped(rt: &impl Abort, alloc: Global, columns: &[Vector]) -> KeyGroups {
    if are_keys(columns) {
        return KeyGroups::of(alloc, columns).expect(rt, "memory");
    }
    panic!(rt; "no columns of one length")
}
