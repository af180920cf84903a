//! What holds of a manifest's file, whatever its bytes. The law is the contract of a function with an empty body.
ghost use Rattle.partition_set.specs.Laws.{NeverBoth};

/// A file that holds the records of a manifest is damaged at no offset. So `Manifest::load` answers `BadManifest` exactly
/// where the file holds no manifest, unless the disk fails or memory runs out.
pub fn manifest_is_not_damaged()
    ensures { NeverBoth }
{
    ipc_codec::laws::written_spells();
    gated_journal::reads_in_one_way();
}
