//! What holds of a plant that was closed and is loaded again.
//!
//! The calls are `plant_core`'s, and each of them says by itself what it leaves on the disk or finds there. The functions of
//! this crate have empty bodies; their contracts join what those calls say:
//!
//! - [`found_again`]: a plant that is loaded after it was closed has its former log. One entry more may stand at its end,
//!   that of a commit which failed, where no commit succeeded after it.
//! - [`a_load_ends_in_one_way`]: a load that is refused has one cause, and one that isn't refused has none.
//!
//! ```text
//! let disk = plant.close();                                     // `IsSound`: what a restart finds of the disk
//! let plant = Plant::load(alloc, disk, schema, date, &limits)?;    // `IsLoaded`: what the load makes of it
//! found_again();                                                // so this is the former log
//! ```
//!
//! Both speak of a disk that reports what was done with it, and `found_again` of one no sync of which had failed when the
//! former plant was loaded. Neither says that a load succeeds: the disk may fail, and memory may run out.
#![tactic(auto)]

ghost use Rattle.plant_laws.specs.Laws.{FoundAgain, NoCause, OneCause};

/// A plant that was closed and is loaded again has the log of its former chronicle, or, only where a commit failed and
/// isn't repaired, that with the one entry of this commit at its end; and then one roll by pass 0 where the new date is
/// later.
pub fn found_again()
    ensures { FoundAgain }
{
    date_logs::files_restart_once();
}

/// A load ends in one way: what it gives in place of a refusal shows that no cause of one holds, and at most one cause holds.
/// So each refusal but out of memory and a fault of the disk comes exactly where its cause holds and none
/// before it, unless the disk fails or memory runs out.
pub fn a_load_ends_in_one_way()
    ensures none { NoCause }
    ensures one { OneCause }
{
    date_logs::files_restart_once();
    date_loading::a_load_goes_in_one_way();
    partition_set::manifest_is_not_damaged();
}
