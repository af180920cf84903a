//! What the definitions of a load say of each other.
ghost use Rattle.date_loading.specs.Laws.{OneManifest, OneDifference, NoDifference, NeverDamaged};

/// A load goes in one way. A file is the manifest of one list of records at most; two lists of tables differ first
/// in one table at most, and in none where they are equal; a log that holds updates is damaged nowhere. So each
/// refusal of [`Loading`](crate::Loading) comes exactly where its cause holds and none before it, unless the disk
/// fails or memory runs out.
pub fn a_load_goes_in_one_way()
    ensures manifest { OneManifest }
    ensures difference { OneDifference }
    ensures none { NoDifference }
    ensures log { NeverDamaged }
{
    ipc_codec::laws::written_spells();
    gated_journal::reads_in_one_way();
    tick_log::a_log_is_read_in_one_way();
}
