//! Stores in memory.
ghost use Rattle.std.specs.Prelude.{◌≡◌, ◌≢◌, ◌↔◌, ◌<◌, ◌≤◌, false, Err, IfOk, IfErr, OnOk, OnErr};
ghost use Rattle.std.specs.Option.{option_map};
ghost use Rattle.std.specs.FinMap as map;
ghost use Rattle.fr_undo.specs.Undo.{extended, undone, forgotten};
ghost use Rattle.fr_part.specs.Store.{is_store, IfStore, BecomesStore};
ghost use Rattle.fr_part.specs.declared.fault.PartFault.TheVariants.{Kind, Part as PartOnly, Refused};

use crate::fault::{PartFault, of_store};
use crate::part::Part;
use fr_base::{Bytes, Version};
use fr_mutation::Batch;
use fr_undo::ShardStore;
use std::alloc::Global;

impl Part {
    /// Has a store apply a batch at a version after the one applied, with undo rows. A refusal and out of memory change
    /// nothing.
    pub fn apply(&mut self, alloc: Global, version: Version, batch: &Batch) -> Result<(), PartFault>
        ensures ok { OnOk result (BecomesStore self.old self.new (λ s. extended s version batch.now)) }
        ensures err { OnErr result (self.new ≡ self.old) }
        ensures kind { result ≡ Err Kind ↔ is_store self.old ≡ false }
        ensures refused { result ≡ Err Refused ↔ IfStore self.old (λ s. version ≤ s.applied) }
        ensures whole { result ≢ Err PartOnly }
    {
        match self {
            Part::Store(store) => match store.apply(alloc, version, batch) {
                Ok(()) => Ok(()),
                Err(fault) => Err(of_store(fault)),
            },
            _ => Err(PartFault::Kind),
        }
    }

    /// Has a store undo all versions above one that is not below the floor. A refusal and out of memory change nothing.
    pub fn undo_to(&mut self, alloc: Global, version: Version) -> Result<(), PartFault>
        ensures ok { OnOk result (BecomesStore self.old self.new (λ s. undone s version)) }
        ensures err { OnErr result (self.new ≡ self.old) }
        ensures kind { result ≡ Err Kind ↔ is_store self.old ≡ false }
        ensures refused { result ≡ Err Refused ↔ IfStore self.old (λ s. version < s.floor) }
        ensures whole { result ≢ Err PartOnly }
    {
        match self {
            Part::Store(store) => match store.undo_to(alloc, version) {
                Ok(()) => Ok(()),
                Err(fault) => Err(of_store(fault)),
            },
            _ => Err(PartFault::Kind),
        }
    }

    /// Has a store forget how to undo below a version that is at most the one applied. A refusal and out of memory
    /// change nothing.
    pub fn forget_through(&mut self, alloc: Global, version: Version) -> Result<(), PartFault>
        ensures ok { OnOk result (BecomesStore self.old self.new (λ s. forgotten s version)) }
        ensures err { OnErr result (self.new ≡ self.old) }
        ensures kind { result ≡ Err Kind ↔ is_store self.old ≡ false }
        ensures refused { result ≡ Err Refused ↔ IfStore self.old (λ s. s.applied < version) }
        ensures whole { result ≢ Err PartOnly }
    {
        match self {
            Part::Store(store) => match store.forget_through(alloc, version) {
                Ok(()) => Ok(()),
                Err(fault) => Err(of_store(fault)),
            },
            _ => Err(PartFault::Kind),
        }
    }

    /// The value of a key of a store, lent, if the key has one.
    pub fn value_at(&self, key: &Bytes) -> Result<Option<&Bytes>, PartFault>
        ensures value { IfOk result (λ value. IfStore self.now (λ s. option_map (λ bytes. bytes.now) value ≡ map.get s.contents key.now)) }
        ensures kind { result ≡ Err Kind ↔ is_store self.now ≡ false }
        ensures faults { IfErr result (λ fault. fault ≡ Kind) }
    {
        match self {
            Part::Store(store) => Ok(store.value_at(key)),
            _ => Err(PartFault::Kind),
        }
    }
}
