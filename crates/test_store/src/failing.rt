//! A store in memory whose device fails in one call, for tests of what is built on a store.
ghost use Rattle.std.specs.Prelude.{◌≡◌, ◌⊎◌, ◌↔◌, ◌||◌, false, Err, IfErr, IsTrue};
ghost use Rattle.fr_undo.specs.State.{fresh, IsStoreState};
ghost use Rattle.fr_undo.specs.Calls.{met_device};
ghost use Rattle.fr_undo.specs.declared.fault.StoreFault.TheVariants.{Device, Memory as OutOfMemory};

use fr_base::{Bytes, Version};
use fr_mutation::{Batch, Shard};
use fr_undo::{MapStore, ShardStore, StoreFault};
use std::alloc::Global;

/// A store in memory whose device fails in one call that reads, writes or opens it again. It is then failed, and as it
/// was before that call or is after it, as was chosen: a call that writes has done nothing, or all that it was to do.
#[derive(Drop)]
pub struct FailsOnce {
    store: MapStore,
    calls: Option<u32>,
    is_failed: bool,
    is_done: bool,
    ghost sound: { IsStoreState store },
}

impl FailsOnce {
    /// An empty store whose device fails in the call after `calls` others that were not refused. A call that writes is
    /// done then if `is_done` is true, and else it is not.
    pub fn new(alloc: Global, calls: u32, is_done: bool) -> Self
        ensures empty { ⟦<FailsOnce as ShardStore>⟧.state result ≡ fresh }
        ensures works { ⟦<FailsOnce as ShardStore>⟧.is_failed result ≡ false }
    {
        FailsOnce {
            store: MapStore::new(alloc),
            calls: Some(calls),
            is_failed: false,
            is_done,
        }
    }

    /// Whether the device works in this call, which is counted.
    fn works(&mut self) -> bool
        ensures store { self.new.store ≡ self.old.store }
        ensures failed { self.new.is_failed ≡ self.old.is_failed }
    {
        match self.calls {
            Some(0) => false,
            Some(calls) => {
                self.calls = Some(calls - 1);
                true
            }
            None => true,
        }
    }

    /// The device fails, in this call and in no other.
    fn fail(&mut self) -> StoreFault
        ensures store { self.new.store ≡ self.old.store }
        ensures failed { IsTrue self.new.is_failed }
        ensures fault { result ≡ StoreFault.Device }
    {
        self.calls = None;
        self.is_failed = true;
        StoreFault::Device
    }

    /// Counts a call that reads.
    fn read(&mut self) -> Result<(), StoreFault>
        ensures store { self.new.store ≡ self.old.store }
        ensures failed { (result ≡ Err StoreFault.Failed) ↔ IsTrue self.old.is_failed }
        ensures fault { IfErr result (λ fault. (fault ≡ StoreFault.Failed) ⊎ (fault ≡ StoreFault.Device)) }
        ensures fails { self.new.is_failed ≡ (self.old.is_failed || met_device result) }
    {
        if self.is_failed {
            return Err(StoreFault::Failed);
        }
        if self.works() {
            return Ok(());
        }
        Err(self.fail())
    }
}

impl ShardStore for FailsOnce {
    ghost state = { λ s. s.store };

    ghost is_failed = { λ s. s.is_failed };

    ghost MayLeave = { λ s x. x ≡ s.store };

    ghost CanMeet = { λ fault. (fault ≡ Device) ⊎ (fault ≡ OutOfMemory) };

    ghost CanMeetInPlace = { λ fault. fault ≡ Device };

    fn is_failed(&self) -> bool {
        self.is_failed
    }

    fn get(&mut self, alloc: Global, key: &Bytes) -> Result<Option<Bytes>, StoreFault> {
        self.read()?;
        self.store.get(alloc, key)
    }

    fn get_at(
        &mut self,
        alloc: Global,
        key: &Bytes,
        version: Version,
    ) -> Result<Option<Bytes>, StoreFault> {
        if self.is_failed {
            return Err(StoreFault::Failed);
        }
        if self.store.floor() > version {
            return Err(StoreFault::BelowFloor);
        }
        if self.store.applied() < version {
            return Err(StoreFault::AboveApplied);
        }
        self.read()?;
        self.store.get_at(alloc, key, version)
    }

    fn range(&mut self, alloc: Global, shard: &Shard) -> Result<Vec<(Bytes, Bytes)>, StoreFault> {
        self.read()?;
        self.store.range(alloc, shard)
    }

    fn dump(&mut self, alloc: Global) -> Result<Vec<(Bytes, Bytes)>, StoreFault> {
        self.read()?;
        self.store.dump(alloc)
    }

    fn state_bytes(&mut self, alloc: Global) -> Result<Bytes, StoreFault> {
        self.read()?;
        self.store.state_bytes(alloc)
    }

    fn applied(&self) -> Version {
        self.store.applied()
    }

    fn floor(&self) -> Version {
        self.store.floor()
    }

    fn undo_rows(&self) -> usize {
        self.store.undo_rows()
    }

    fn apply(&mut self, alloc: Global, version: Version, batch: &Batch) -> Result<(), StoreFault> {
        if self.is_failed {
            return Err(StoreFault::Failed);
        }
        if version <= self.store.applied() {
            return Err(StoreFault::NotAfter);
        }
        if self.works() {
            return self.store.apply(alloc, version, batch);
        }
        if self.is_done {
            self.store.apply(alloc, version, batch)?;
        }
        Err(self.fail())
    }

    fn undo_to(&mut self, alloc: Global, version: Version) -> Result<(), StoreFault> {
        if self.is_failed {
            return Err(StoreFault::Failed);
        }
        if version < self.store.floor() {
            return Err(StoreFault::BelowFloor);
        }
        if self.works() {
            return self.store.undo_to(alloc, version);
        }
        if self.is_done {
            self.store.undo_to(alloc, version)?;
        }
        Err(self.fail())
    }

    fn advance(&mut self, version: Version) -> Result<(), StoreFault> {
        if self.is_failed {
            return Err(StoreFault::Failed);
        }
        if version <= self.store.applied() {
            return Err(StoreFault::NotAfter);
        }
        if self.works() {
            return self.store.advance(version);
        }
        if self.is_done {
            self.store.advance(version)?;
        }
        Err(self.fail())
    }

    fn forget_through(&mut self, alloc: Global, version: Version) -> Result<(), StoreFault> {
        if self.is_failed {
            return Err(StoreFault::Failed);
        }
        if version > self.store.applied() {
            return Err(StoreFault::AboveApplied);
        }
        if self.works() {
            return self.store.forget_through(alloc, version);
        }
        if self.is_done {
            self.store.forget_through(alloc, version)?;
        }
        Err(self.fail())
    }

    fn set_state(&mut self, alloc: Global, bytes: Bytes) -> Result<(), StoreFault> {
        if self.is_failed {
            return Err(StoreFault::Failed);
        }
        if self.works() {
            return self.store.set_state(alloc, bytes);
        }
        if self.is_done {
            self.store.set_state(alloc, bytes)?;
        }
        Err(self.fail())
    }

    fn reopen(&mut self, alloc: Global) -> Result<(), StoreFault> {
        if self.works() {
            self.is_failed = false;
            return Ok(());
        }
        Err(self.fail())
    }
}
