//! A tap: what takes a plant's publications within its process.

use q_values::{Sym, TableValue};
use thiserror::Error;

/// One publication of a plant (KX, u.q).
#[derive(Drop)]
pub enum TapMessage {
    /// Rows of a table, in the order of arrival.
    Rows {
        /// The table's name.
        table: Sym,
        /// The rows, with the table's own columns: it has no column `date`.
        rows: TableValue,
    },
    /// The end of a date.
    End {
        /// The date that ended, in days since 2000.01.01.
        date: i32,
    },
}

/// A tap failed to take a message.
#[derive(Clone, Copy, Debug, PartialEq, Eq, Error)]
#[error("the tap failed")]
pub struct TapFault;

/// Takes publications one after the other, within the process of the plant.
pub trait Tap {
    ghost use Rattle.outside_api.specs.Tap.{TapView, Takes};

    /// What it shows: the messages taken, where it reports them, and its count of faults.
    ghost shown: { Self → TapView };

    /// Takes one message. After a fault it has taken nothing of it, and the fault is counted. A tap may stop reporting.
    fn take(&mut self, message: &TapMessage) -> Result<(), TapFault>
        ensures { Takes (shown self.old) (shown self.new) message.now result };
}
