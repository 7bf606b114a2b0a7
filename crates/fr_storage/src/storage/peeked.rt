//! Records of a log are heard: the server applies what is new.
ghost use Rattle.std.specs.Prelude.{◌≡◌, ◌≢◌, ◌↔◌, ◌||◌, false, [], Err, None, OnOk, OnErr, IfErr, IfSome, IsOk, IsTrue, map, min, nat_lt, ◌&&◌};
ghost use Rattle.fr_undo.specs.Calls.{IsTrouble};
ghost use Rattle.fr_log.specs.Peeked.{PeekedContent, is_rising_from};
ghost use Rattle.fr_storage.specs.declared.fault.StorageFault.{StorageFault};
ghost use Rattle.fr_storage.specs.Storage.{StorageState, is_within, cut_at, records_between, reached, apply_of, advance_calls, forget_calls, after_calls, new_records, peeked_fault, peeked_calls, after_peeked};
ghost use Rattle.fr_storage.specs.Server.{storage_of, kept_of, met_store, refusal_of, store_fault, IsCallTrouble, IsWhole, LeavesStages};
ghost use Rattle.fr_storage.specs.Pull.{pull_calls};

mod broken;

use super::Storage;
use crate::fault::StorageFault;
use fr_base::{Epoch, Version};
use fr_log::{Peeked, PeekedRecord};
use fr_undo::{ShardStore, StoreFault};
use std::alloc::Global;

impl<S: ShardStore> Storage<S> {
    /// Hears what a log of an epoch gives of the server's tag. The epoch must be the source of the version
    /// after the one applied. The records above that one are applied, up to the end of their generation. The
    /// version applied becomes the smaller of what the answer is complete through and that end, if this is
    /// above it. Then the undo rows through the smaller of the version told to be known and the one applied
    /// are forgotten, if this is above the floor.
    pub fn hear_peeked(
        &mut self,
        alloc: Global,
        epoch: Epoch,
        peeked: &Peeked,
    ) -> Result<(), StorageFault>
        ensures ok { OnOk result (storage_of S.state self.new ≡ after_peeked (storage_of S.state self.old) epoch peeked.now) }
        ensures position { OnOk result (self.new.applied ≡ (after_peeked (storage_of S.state self.old) epoch peeked.now).store.applied) }
        ensures floor { OnOk result (self.new.floor ≡ (after_peeked (storage_of S.state self.old) epoch peeked.now).store.floor) }
        ensures failed { (result ≡ Err (StorageFault.Store StoreFault.Failed)) ↔ IsTrue self.old.failed }
        ensures refused { self.old.failed ≡ false → refusal_of result ≡ peeked_fault (storage_of S.state self.old) epoch peeked.now }
        ensures same { met_store result ≡ false → OnErr result (self.new ≡ self.old) }
        ensures trouble { IfSome (store_fault result) (λ fault. fault ≢ StoreFault.Failed → IsCallTrouble S.CanMeet S.CanMeetInPlace fault) }
        ensures in_place { new_records (storage_of S.state self.old) epoch peeked.now ≡ []
            → IfSome (store_fault result) (λ fault. fault ≢ StoreFault.Failed → IsTrouble S.CanMeetInPlace fault) }
        ensures idle { self.old.failed ≡ false → peeked_fault (storage_of S.state self.old) epoch peeked.now ≡ None
            → peeked_calls (storage_of S.state self.old) epoch peeked.now ≡ [] → IsOk result }
        ensures err { OnErr result (kept_of self.new ≡ kept_of self.old) }
        ensures fails { self.new.failed ≡ (self.old.failed || met_store result) }
        ensures leaves { self.old.failed ≡ false
            → LeavesStages (S.MayLeave self.new.store) (S.state self.old.store)
            (peeked_calls (storage_of S.state self.old) epoch peeked.now) }
        ensures still { IsTrue self.old.failed → self.new ≡ self.old }
    {
        if self.failed {
            return Err(StorageFault::Store(StoreFault::Failed));
        }
        // Before the first call of the store (invariant 9).
        if let Some(refusal) = self.peeked_refusal(epoch, peeked) {
            return Err(refusal);
        }
        // Fixed before the first record: the version applied rises meanwhile, but an answer is judged by where it
        // found the server.
        let reach = Reach {
            applied: self.applied,
            end: self.state.end_of(epoch),
        };
        match pull(alloc, &mut self.store, &reach, peeked) {
            Ok(()) => {
                // Taken from the store, so that the two cannot differ (invariant 1).
                self.applied = self.store.applied();
                self.floor = self.store.floor();
                Ok(())
            }
            Err(fault) => {
                self.failed = true;
                Err(StorageFault::Store(fault))
            }
        }
    }

    /// Why an answer of a log of an epoch is refused, by what the server keeps.
    fn peeked_refusal(&self, epoch: Epoch, peeked: &Peeked) -> Option<StorageFault>
        requires { self.now.failed ≡ false }
        ensures { result ≡ peeked_fault (storage_of S.state self.now) epoch peeked.now }
    {
        // The version after the one applied decides, because records of the generation that ended there add nothing
        // (invariants 2 and 3).
        match self.state.source_for(self.applied.get() + 1) {
            Some(source) if source.epoch() == epoch => {
                // `<`: an answer may begin below the version applied, since late answers do, and what is held is
                // passed over. One that begins above would leave a hole (invariant 3).
                if self.applied < peeked.after() {
                    Some(StorageFault::Hole)
                } else {
                    None
                }
            }
            _ => Some(StorageFault::NotMyGeneration),
        }
    }
}

/// The versions that an answer may bring: those above the one applied, up to the end of their generation if it
/// has one.
#[derive(Drop)]
struct Reach {
    applied: Version,
    end: Option<Version>,
}

impl Reach {
    fn takes(&self, version: Version) -> bool
        ensures { result ≡ (nat_lt self.now.applied version && is_within self.now.end version) }
    {
        match self.end {
            // `<=` at the end, which is the last version of the generation, and `<` at the version applied, which is
            // held (invariant 3).
            Some(end) => self.applied < version && version <= end,
            None => self.applied < version,
        }
    }

    fn cut(&self, version: Version) -> Version
        ensures { result ≡ cut_at self.now.end version }
    {
        match self.end {
            // A log of an old generation is complete past its end. Versions there are numbered anew by the next one
            // (invariant 3).
            Some(end) => version.min(end),
            None => version,
        }
    }
}

/// Makes the calls of a store at an answer that is not refused. It applies what is new, advances to the end
/// of the answer or of the generation, and forgets the undo rows of what is known to be committed.
fn pull<S: ShardStore>(
    alloc: Global,
    store: &mut S,
    reach: &Reach,
    peeked: &Peeked,
) -> Result<(), StoreFault>
    requires whole { IsWhole S.state S.is_failed S.MayLeave store.old }
    requires applied { reach.now.applied ≡ (S.state store.old).applied }
    ensures ok { OnOk result (S.state store.new ≡ after_calls (S.state store.old) (pull_calls (S.state store.old) reach.now.end peeked.now)) }
    ensures whole { OnOk result (IsWhole S.state S.is_failed S.MayLeave store.new) }
    ensures trouble { IfErr result (IsCallTrouble S.CanMeet S.CanMeetInPlace) }
    ensures in_place { records_between (S.state store.old).applied reach.now.end peeked.now.records ≡ [] → IfErr result (IsTrouble S.CanMeetInPlace) }
    ensures idle { pull_calls (S.state store.old) reach.now.end peeked.now ≡ [] → IsOk result }
    ensures leaves { OnErr result (LeavesStages (S.MayLeave store.new) (S.state store.old) (pull_calls (S.state store.old) reach.now.end peeked.now)) }
{
    // In this order, since each next step needs the one before: to advance first would refuse the records, and to
    // forget first could not yet reach the versions that they bring.
    apply_new(alloc, store, reach, peeked.records())?;
    advance_to(store, reach.cut(peeked.upto()))?;
    forget_known(alloc, store, peeked.known())?;
    Ok(())
}

/// Applies the records of the versions that an answer may bring.
fn apply_new<S: ShardStore>(
    alloc: Global,
    store: &mut S,
    reach: &Reach,
    records: &[PeekedRecord],
) -> Result<(), StoreFault>
    requires whole { IsWhole S.state S.is_failed S.MayLeave store.old }
    requires applied { reach.now.applied ≡ (S.state store.old).applied }
    requires rise { IsTrue (is_rising_from 0 records.now) }
    ensures ok { OnOk result (S.state store.new
        ≡ after_calls (S.state store.old)
        (map apply_of (records_between reach.now.applied reach.now.end records.now))) }
    ensures whole { OnOk result (IsWhole S.state S.is_failed S.MayLeave store.new) }
    ensures trouble { IfErr result (IsTrouble S.CanMeet) }
    ensures idle { records_between reach.now.applied reach.now.end records.now ≡ [] → IsOk result }
    ensures leaves { OnErr result (LeavesStages (S.MayLeave store.new) (S.state store.old)
        (map apply_of (records_between reach.now.applied reach.now.end records.now))) }
{
    for record in records {
        // Passed over and not refused: an answer overlaps what is held whenever the one before it was late.
        if reach.takes(record.version) {
            store.apply(alloc, record.version, &record.batch)?;
        }
    }
    Ok(())
}

/// Advances a store to a version, if that is above the one applied.
fn advance_to<S: ShardStore>(store: &mut S, target: Version) -> Result<(), StoreFault>
    requires whole { IsWhole S.state S.is_failed S.MayLeave store.old }
    ensures ok { OnOk result (S.state store.new ≡ after_calls (S.state store.old) (advance_calls (S.state store.old).applied target)) }
    ensures whole { OnOk result (IsWhole S.state S.is_failed S.MayLeave store.new) }
    ensures trouble { IfErr result (IsTrouble S.CanMeetInPlace) }
    ensures idle { advance_calls (S.state store.old).applied target ≡ [] → IsOk result }
    ensures leaves { OnErr result (LeavesStages (S.MayLeave store.new) (S.state store.old) (advance_calls (S.state store.old).applied target)) }
{
    // `<`: the last record may stand at the target, and a store refuses to advance to where it is.
    if store.applied() < target {
        store.advance(target)?;
    }
    Ok(())
}

/// Forgets the undo rows of a store through the smaller of a version that is known to be committed and the one
/// applied, if that is above the floor.
fn forget_known<S: ShardStore>(
    alloc: Global,
    store: &mut S,
    known: Version,
) -> Result<(), StoreFault>
    requires whole { IsWhole S.state S.is_failed S.MayLeave store.old }
    ensures ok { OnOk result (S.state store.new
        ≡ after_calls (S.state store.old) (forget_calls (S.state store.old).floor
        (min known (S.state store.old).applied))) }
    ensures whole { OnOk result (IsWhole S.state S.is_failed S.MayLeave store.new) }
    ensures trouble { IfErr result (IsTrouble S.CanMeetInPlace) }
    ensures idle { forget_calls (S.state store.old).floor (min known (S.state store.old).applied) ≡ [] → IsOk result }
    ensures leaves { OnErr result (LeavesStages (S.MayLeave store.new) (S.state store.old)
        (forget_calls (S.state store.old).floor (min known (S.state store.old).applied))) }
{
    // `known` may be ahead of what this server has pulled. It can forget only rows that it has written (invariant 6).
    let through = known.min(store.applied());
    // Tested here, so that an answer that brings nothing makes no call of the store (the clause `idle`).
    if store.floor() < through {
        store.forget_through(alloc, through)?;
    }
    Ok(())
}
