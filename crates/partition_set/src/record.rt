//! The records of a manifest.

use day_rows::Shape;

/// One record of a manifest.
#[derive(Drop)]
pub enum ManifestRecord {
    /// A table of the plant's schema.
    Shape(Shape),
    /// A date whose log was opened.
    Opened {
        /// The number of the pass that opened it.
        by: u64,
        /// The date, in days since 2000.01.01.
        date: i32,
    },
}
