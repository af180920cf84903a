//! The manifest of a plant's disk: which tables the plant has, and which dates it has opened.
//!
//! A [`Manifest`] is seen as a list of records, which stand in a journal of their own, file 0 of the disk: a
//! [`ManifestRecord::Shape`] for each table of the schema, ascending by name, and then a [`ManifestRecord::Opened`] for each
//! date, ascending. A record is in the file whole or not at all, whenever the machine crashes.
//!
//! - [`Manifest::make`] begins a manifest with a schema's tables, and [`Manifest::load`] reads one, or says at which offset
//!   it is damaged ([`ManifestRefusal`]).
//! - [`Manifest::reserve`] makes room for a record, and [`Manifest::opened`] then adds an opened date: four calls of the
//!   disk, and no memory.
//! - [`Manifest::mend`] repairs a manifest whose last record failed.
//!
//! ```text
//! let mut manifest = Manifest::load(alloc, &mut disk)?;
//! manifest.reserve()?;
//! manifest.opened(&mut disk, 7, 8767)?;     // pass 7 opens 2024.01.02
//! ```
//!
//! The payload of a table is the byte 1 and the canonical kdb+ encoding of a list: the table's name, the names of its columns,
//! their type numbers. That of an opened date is the byte 2, the pass number in eight bytes and the date in four, both
//! little-endian.
//!
//! `shapes` and `order` judge records, `tables` and `encoding` turn them into bytes and back, `reading` reads a whole list;
//! [`manifest_is_not_damaged`] says that no file is both a manifest and damaged. The crate knows nothing of logs or of dates that are saved.
#![tactic(auto)]

mod encoding;
mod laws;
mod manifest;
mod order;
mod reading;
mod record;
mod refusal;
mod shapes;
mod tables;

pub use laws::manifest_is_not_damaged;
pub use manifest::{MANIFEST_FILE, Manifest};
pub use record::ManifestRecord;
pub use refusal::ManifestRefusal;
