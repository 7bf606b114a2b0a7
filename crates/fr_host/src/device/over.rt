//! A device over a disk that is read whole, and what a crash may leave of both.
ghost use Rattle.std.specs.Prelude.{◌≡◌, ◌≤◌, max, ℕ, List, length, IsTrue, IfOk};
ghost use Rattle.std.specs.Vec.{vec_capacity};
ghost use Rattle.fr_record.specs.Disk.{IsDurable};
ghost use Rattle.fr_host.specs.Device.{Left};
ghost use Rattle.fr_host.specs.Below.{below_of};

use crate::device::DiskDevice;
use crate::marks::all_kept;
use fr_record::Device;
use sqlite_disk::Disk;
use std::alloc::Global;
use std::io;

/// So many bytes of a disk, in a list that has room for `capacity`.
fn read_whole<K: Disk>(
    alloc: Global,
    below: &mut K,
    len: usize,
    capacity: usize,
) -> io::Result<Vec<u8>>
    requires usable { IsTrue (K.Disk.is_usable below.old) }
    requires within { len ≤ capacity }
    ensures len { IfOk result (λ bytes. length bytes.items ≡ len) }
    ensures room { IfOk result (λ bytes. capacity ≤ vec_capacity bytes) }
    ensures same { IfOk result (λ bytes. IsTrue (K.Disk.is_clean below.new) → len ≡ length (K.Disk.seen below.old) → bytes.items ≡ K.Disk.seen below.old) }
    ensures seen { K.Disk.seen below.new ≡ K.Disk.seen below.old }
    ensures clean { IsTrue (K.Disk.is_clean below.new) → IsTrue (K.Disk.is_clean below.old) }
    ensures usable { IsTrue (K.Disk.is_usable below.new) }
    ensures crash { (left : List ℕ) → K.Disk.may_leave below.new left → K.Disk.may_leave below.old left }
{
    // Room for all that may ever be written, and not only for what is there (invariant 5).
    let Ok(mut bytes) = Vec::with_capacity(alloc, capacity) else {
        return Err(io::ErrorKind::OutOfMemory.into());
    };
    if bytes.resize(len, 0).is_err() {
        return Err(io::ErrorKind::OutOfMemory.into());
    }
    below.read_at(0, &mut bytes)?;
    Ok(bytes)
}

impl<K: Disk + Drop> DiskDevice<K> {
    /// A device over a disk, which is synced and read whole. It has the room that is asked for, or that of the bytes
    /// that are there if they are more.
    ///
    /// # Errors
    ///
    /// Those of the disk, or out of memory.
    pub fn over(alloc: Global, below: K, room: usize) -> io::Result<Self>
        requires { IsTrue (K.Disk.is_usable below) }
        ensures content { IfOk result (λ d. IsTrue (K.Disk.is_clean (below_of d)) → (⟦<DiskDevice<K> as Device>⟧.disk d).content ≡ K.Disk.seen below) }
        ensures durable { IfOk result (λ d. IsDurable (⟦<DiskDevice<K> as Device>⟧.disk d)) }
        ensures capacity { IfOk result (λ d. ⟦<DiskDevice<K> as Device>⟧.capacity_of d ≡ max room (length (⟦<DiskDevice<K> as Device>⟧.disk d).content)) }
        ensures failures { IfOk result (λ d. ⟦<DiskDevice<K> as Device>⟧.failures_of d ≡ 0) }
    {
        let mut below = below;
        // Before it is read, since a crash must leave what the copy holds from the start (invariant 3).
        below.sync()?;
        let len = below.len()?;
        // A file that is longer than the room asked for is not cut: its records are read, and it takes no more.
        let capacity = room.max(len);
        let bytes = read_whole(alloc, &mut below, len, capacity)?;
        // All set, because the disk was synced above.
        let Ok(marks) = all_kept(alloc, len, capacity) else {
            return Err(io::ErrorKind::OutOfMemory.into());
        };
        Ok(DiskDevice {
            bytes,
            marks,
            from: len,
            kept_len: len,
            capacity,
            below,
            is_shut: false,
            failures: 0,
        })
    }

    /// What a crash may leave of the disk below, it may leave of the device, if the disk answered truly: a byte that
    /// the device says is kept, is.
    pub fn leaves(&self)
        ensures { IsTrue (K.Disk.is_clean (below_of self.now)) → Left (K.Disk.may_leave (below_of self.now)) (⟦<DiskDevice<K> as Device>⟧.disk self.now) }
    {
        // Nothing runs: the clause is the type's own, read here.
        let _leaves = self.failures;
    }

    /// The disk below as it stands, shut or not.
    pub fn into_below(self) -> K
        ensures { result ≡ below_of self }
    {
        self.below
    }
}
