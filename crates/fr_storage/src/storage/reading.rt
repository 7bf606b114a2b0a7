//! Reads at a version.
ghost use Rattle.std.specs.Prelude.{◌≡◌, ◌≢◌, ◌↔◌, ◌||◌, false, [], Err, None, IfOk, IfSome, IsTrue};
ghost use Rattle.fr_undo.specs.Undo.{value_undone};
ghost use Rattle.fr_undo.specs.Calls.{IsTrouble, StaysUnlessFailed, LeavesNoMore};
ghost use Rattle.fr_storage.specs.Reads.{read_fault, read_refusal, read_trouble, met_in_read};
ghost use Rattle.fr_storage.specs.Server.{IsServer, kept_of};
ghost use Rattle.fr_storage.specs.Standing.{StaysStanding};

use super::Storage;
use crate::fault::ReadFault;
use crate::laws::store_laws;
use fr_base::{Bytes, Version};
use fr_mutation::Shard;
use fr_undo::{ShardStore, StoreFault};
use std::alloc::Global;

impl<S: ShardStore> Storage<S> {
    /// The value that a key had at a version from the floor through the version applied: what it has once the
    /// versions above are undone. The caller gives the shard of the server's tag, which the server does not keep.
    /// Whether the version is committed the server alone does not know, so a later recovery may take the answer
    /// back. What is committed, and not above the cut of the server's own epoch, stays.
    ///
    /// # Errors
    ///
    /// Of several reasons the first in this order: `Store(Failed)`, `NotMine`, `TooOld`, `FutureVersion`, another
    /// fault of the store. Only `Store(Device)` leaves the server failed: out of memory it is as before.
    pub fn read(
        &mut self,
        alloc: Global,
        shard: &Shard,
        key: &Bytes,
        version: Version,
    ) -> Result<Option<Bytes>, ReadFault>
        ensures value { IfOk result (λ value. value ≡ value_undone (S.state self.old.store) version key.now) }
        ensures failed { (result ≡ Err (ReadFault.Store StoreFault.Failed)) ↔ IsTrue self.old.failed }
        ensures refused { self.old.failed ≡ false
            → read_refusal result ≡ read_fault shard.now self.old.floor self.old.applied key.now version }
        ensures trouble { IfSome (read_trouble result) (λ fault. fault ≢ StoreFault.Failed → IsTrouble S.CanMeet fault) }
        ensures state { StaysUnlessFailed self.new.failed (S.state self.old.store) (S.state self.new.store) }
        ensures kept { kept_of self.new ≡ kept_of self.old }
        ensures fails { self.new.failed ≡ (self.old.failed || met_in_read result) }
        ensures leaves { LeavesNoMore (S.MayLeave self.old.store) (S.MayLeave self.new.store) }
        ensures stands { StaysStanding S.state S.MayLeave [] self.old self.new None }
        ensures sound { IsServer S.state S.is_failed S.MayLeave self.old }
    {
        store_laws();
        if self.failed {
            return Err(ReadFault::Store(StoreFault::Failed));
        }
        // First of the refusals, because it does not depend on the version: a caller with the wrong server is told so
        // whatever it asked for.
        if !shard.contains(key) {
            return Err(ReadFault::NotMine);
        }
        // `<` and not `<=`: at the floor itself every row above is still there (invariant 6).
        if version < self.floor {
            return Err(ReadFault::TooOld);
        }
        // Answering the value of now would promise that no later version up to this one changes it.
        if version > self.applied {
            return Err(ReadFault::FutureVersion);
        }
        match self.store.get_at(alloc, key, version) {
            Ok(value) => Ok(value),
            Err(StoreFault::Device) => {
                // Only a failed device: a read changes nothing, so after `Memory` server and store still agree
                // (invariant 1).
                self.failed = true;
                Err(ReadFault::Store(StoreFault::Device))
            }
            Err(fault) => Err(ReadFault::Store(fault)),
        }
    }
}
