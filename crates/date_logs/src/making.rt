//! Making the files of a plant.
ghost use Rattle.std.specs.Prelude.{◌≡◌, ◌≢◌, [], None, List, ℕ, ℤ, IsTrue, length, map, OnOk};
ghost use Rattle.outside_api.specs.Disk.{IsImage};
ghost use Rattle.gated_journal.specs.Format.{Reads};
ghost use Rattle.date_logs.specs.Format.{IsMadeFrom, IfMade, FormatCounts};
ghost use Rattle.partition_set.specs.Records.{payloads_of};
ghost use Rattle.partition_set.specs.declared.record.ManifestRecord.TheVariants as m;
ghost use Rattle.date_logs.specs.Moments.{RestartsFrom};

use crate::refusal::FormatRefusal;
use day_rows::Schema;
use gated_journal::Journal;
use outside_api::Disk;
use partition_set::{MANIFEST_FILE, Manifest, ManifestRefusal};
use std::alloc::Global;

/// The number of the file of the names.
pub const NAMES_FILE: u64 = 1;

/// Makes the files of a plant with these tables and no date yet: file 1, the names, an empty journal, and then file 0,
/// the manifest.
///
/// The answer is `AlreadyMade` exactly where the manifest's file isn't empty, and then nothing was changed. A crash
/// within this call may leave any bytes in both files.
pub fn format<D: Disk>(alloc: Global, disk: &mut D, schema: &Schema) -> Result<(), FormatRefusal>
    ensures made { IsTrue (D.shown disk.old).tells → IsMadeFrom (length ((D.shown disk.old).now 0).bytes) result }
    ensures unchanged { IfMade result (IsTrue (D.shown disk.old).tells
        → (D.shown disk.new).now ≡ (D.shown disk.old).now) }
    ensures restarts { OnOk result (IsTrue (D.shown disk.old).tells → (first : ℤ)
        → RestartsFrom schema.now first [] None (D.shown disk.new).now) }
    ensures manifest { OnOk result (IsTrue (D.shown disk.old).tells
        → Reads ((D.shown disk.new).now 0).bytes (payloads_of (map m.Shape schema.now))) }
    ensures names { OnOk result (IsTrue (D.shown disk.old).tells → (image : List ℕ)
        → IsImage ((D.shown disk.new).now 1) image → Reads image []) }
    ensures others { IsTrue (D.shown disk.old).tells → (k : ℕ) → k ≢ 0 → k ≢ 1
        → (D.shown disk.new).now k ≡ (D.shown disk.old).now k }
    ensures counts { FormatCounts (D.shown disk.old) (D.shown disk.new) result }
{
    if disk.size(MANIFEST_FILE)? > 0 {
        return Err(FormatRefusal::AlreadyMade);
    }
    Journal::fresh(disk, NAMES_FILE)?;
    match Manifest::make(alloc, disk, schema) {
        Ok(manifest) => {
            let _allowed = manifest.records(); // a restart reads them again
            Ok(())
        }
        Err(ManifestRefusal::BadManifest { bytes: _bytes }) => unreachable!(),
        Err(ManifestRefusal::DiskFault) => Err(FormatRefusal::DiskFault),
        Err(ManifestRefusal::NoMemory) => Err(FormatRefusal::NoMemory),
    }
}
