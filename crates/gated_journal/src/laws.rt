//! What the definitions of a journal's bytes say of each other.
ghost use Rattle.gated_journal.specs.Laws.{ReadsOnce, NeverBoth, CorruptOnce};

/// A file is read in one way: it holds one list of records, or it is corrupt at one offset after one number of records,
/// and never both. So a load with ample memory over a disk that doesn't fail answers `Corrupt` exactly where the file is
/// corrupt.
pub fn reads_in_one_way()
    ensures once { ReadsOnce }
    ensures not_both { NeverBoth }
    ensures corrupt_once { CorruptOnce }
{}
