//! Reads at a version, of storage servers.
ghost use Rattle.std.specs.Prelude.{◌≡◌, false, IfOk};
ghost use Rattle.fr_undo.specs.Undo.{value_undone};
ghost use Rattle.fr_storage.specs.Reads.{read_fault, read_refusal};
ghost use Rattle.fr_part.specs.Reads.{IfStorage, unread_in, unread_of, unread_by};

use crate::fault::ReadRefusal;
use crate::part::Part;
use fr_base::{Bytes, Version};
use fr_mutation::Shard;
use fr_storage::{ReadFault, Storage};
use fr_undo::MapStore;
use std::alloc::Global;

impl Part {
    /// The value that a key of a shard had at a version, from the floor through the version applied, of the storage
    /// server of that shard. Nothing changes.
    pub fn read(
        &mut self,
        alloc: Global,
        shard: &Shard,
        key: &Bytes,
        version: Version,
    ) -> Result<Option<Bytes>, ReadRefusal>
        ensures value { IfOk result (λ value. IfStorage self.old (λ s. value ≡ value_undone s.store version key.now)) }
        ensures refused { unread_in result ≡ unread_of self.old shard.now key.now version }
        ensures same { self.new ≡ self.old }
    {
        match self {
            Part::Storage(storage) => read_storage(alloc, storage, shard, key, version),
            _ => Err(ReadRefusal::Kind),
        }
    }
}

fn read_storage(
    alloc: Global,
    storage: &mut Storage<MapStore>,
    shard: &Shard,
    key: &Bytes,
    version: Version,
) -> Result<Option<Bytes>, ReadRefusal>
    ensures value { IfOk result (λ value. value ≡ value_undone storage.old.store version key.now) }
    ensures refused { unread_in result ≡ unread_by storage.old shard.now key.now version }
    ensures same { storage.new ≡ storage.old }
{
    if storage.is_failed() {
        return Err(ReadRefusal::Part);
    }
    match read_working(alloc, storage, shard, key, version) {
        Ok(value) => Ok(value),
        Err(ReadFault::NotMine) => Err(ReadRefusal::NotMine),
        Err(ReadFault::TooOld) => Err(ReadRefusal::TooOld),
        Err(ReadFault::FutureVersion) => Err(ReadRefusal::FutureVersion),
        Err(ReadFault::Store(_)) => Err(ReadRefusal::Memory),
    }
}

/// As [`Storage::read`], of a server that is not amid an answer: it stays as it is, also out of memory.
fn read_working(
    alloc: Global,
    storage: &mut Storage<MapStore>,
    shard: &Shard,
    key: &Bytes,
    version: Version,
) -> Result<Option<Bytes>, ReadFault>
    requires works { storage.old.failed ≡ false }
    ensures value { IfOk result (λ value. value ≡ value_undone storage.old.store version key.now) }
    ensures refused { read_refusal result ≡ read_fault shard.now storage.old.floor storage.old.applied key.now version }
    ensures same { storage.new ≡ storage.old }
{
    storage.read(alloc, shard, key, version)
}
