//! What the definitions of a disk's entries say of each other.
ghost use Rattle.date_logs.specs.Laws.{RestartsOnce, StoredRestarts};

/// A disk's files restart as one list of entries at most.
pub fn files_restart_once()
    ensures { RestartsOnce }
{
    gated_journal::reads_in_one_way();
    tick_log::a_log_is_read_in_one_way();
}

/// From whatever is found of a disk that stores entries, after a crash or without one, a plant restarts as these entries, or
/// as these and the late one.
pub fn stored_entries_restart()
    ensures { StoredRestarts }
{}
