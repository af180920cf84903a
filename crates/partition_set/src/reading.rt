//! Reading the payloads of a manifest's journal.
ghost use Rattle.std.specs.Prelude.{◌≡◌, ◌≢◌, ◌<◌, ◌∷◌, ◌++◌, [], take, drop, length, IfOk, OnOk, IfErr, IfSome, IfNone, Err, List, ℕ};
ghost use Rattle.gated_journal.specs.Format.{before_gate};
ghost use Rattle.partition_set.specs.Records.{payload_of, payloads_of, IsManifest};
ghost use Rattle.partition_set.specs.Manifest.{IfBad, BadAmong};
ghost use Rattle.partition_set.specs.declared.record.ManifestRecord.{ManifestRecord};
ghost use Rattle.partition_set.specs.declared.refusal.ManifestRefusal.TheVariants as r;

use crate::encoding::record_in;
use crate::order::may_come;
use crate::record::ManifestRecord;
use crate::refusal::ManifestRefusal;
use gated_journal::Records;
use q_values::NoMemory;
use std::alloc::Global;

// The record with this payload, where it may come after these.
fn next_record(
    alloc: Global,
    records: &[ManifestRecord],
    payload: &[u8],
) -> Result<Option<ManifestRecord>, NoMemory>
    requires { IsManifest records.now }
    ensures some { IfOk result (λ found. IfSome found (λ next. (payload.now ≡ payload_of next) × IsManifest (records.now ++ next ∷ []))) }
    ensures none { IfOk result (λ found. IfNone found ((next : ManifestRecord) → payload.now ≡ payload_of next
        → IsManifest (records.now ++ next ∷ []) → ⊥)) }
{
    ipc_codec::laws::written_spells();
    let Some(next) = record_in(alloc, payload)? else {
        return Ok(None);
    };
    if may_come(records, &next) {
        Ok(Some(next))
    } else {
        Ok(None)
    }
}

// Puts a record at the end.
fn push(records: &mut Vec<ManifestRecord>, next: ManifestRecord) -> Result<(), NoMemory>
    ensures { OnOk result (records.new.items ≡ records.old.items ++ next ∷ []) }
{
    records.push(next)?;
    Ok(())
}

/// The records with these payloads.
pub fn read_records(
    alloc: Global,
    payloads: &Records,
) -> Result<Vec<ManifestRecord>, ManifestRefusal>
    ensures records { IfOk result (λ v. payloads_of v.items ≡ payloads.now) }
    ensures lawful { IfOk result (λ v. IsManifest v.items) }
    ensures bad { IfBad result (BadAmong payloads.now) }
    ensures no_fault { result ≢ Err r.DiskFault }
{
    let mut records = Vec::new(alloc);
    for i in 0..payloads.len() {
        match next_record(alloc, records.as_slice(), payloads.at(i))? {
            Some(next) => push(&mut records, next)?,
            None => {
                return Err(ManifestRefusal::BadManifest {
                    bytes: payloads.gate_of(i),
                });
            }
        }
    }
    Ok(records)
}
