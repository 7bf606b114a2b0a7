//! The copy of a file, and what it has in common with the disk below.
ghost use Rattle.std.specs.Prelude.{◌≡◌, ◌+◌, ◌-◌, ◌≤◌, ◌<◌, ℕ, List, false, IfOk, OnOk, OnErr, IsTrue, length, slice_index};
ghost use Rattle.std.specs.Str.{bytes_eq};
ghost use Rattle.sqlite_disk.specs.Disk.{Holds, Torn};
ghost use Rattle.sqlite_disk.specs.Refusal.{finds_no_room};

use sqlite_disk::Disk;
use std::alloc::Global;
use std::io;

pub(crate) fn grow(bytes: &mut Vec<u8>, end: usize) -> io::Result<()>
    ensures torn { Torn (length bytes.old.items) (end - length bytes.old.items) bytes.old.items bytes.new.items }
    ensures err { OnErr result (bytes.new.items ≡ bytes.old.items) }
    ensures room { OnOk result (end ≤ length bytes.new.items) }
    ensures kind { finds_no_room result ≡ false }
{
    // A write inside the file needs no memory, so it cannot fail here.
    if end <= bytes.len() {
        return Ok(());
    }
    match bytes.resize(end, 0) {
        Ok(()) => Ok(()),
        Err(_) => Err(io::ErrorKind::OutOfMemory.into()),
    }
}

pub(crate) fn put(file: &mut Vec<u8>, at: usize, bytes: &[u8])
    requires { at + length bytes.now ≤ length file.old.items }
    ensures holds { Holds file.new.items at bytes.now }
    ensures others { Torn at (length bytes.now) file.old.items file.new.items }
{
    file[at..at + bytes.len()].copy_from_slice(bytes);
}

/// Reads a part of a file from the disk below, whatever that says of bytes that no call wrote.
pub(crate) fn fill<D: Disk>(
    below: &mut D,
    file: &mut Vec<u8>,
    from: usize,
    to: usize,
) -> io::Result<()>
    requires usable { IsTrue (D.Disk.is_usable below.old) }
    requires some { from < to }
    requires within { to ≤ length file.old.items }
    ensures holds { OnOk result (IsTrue (D.Disk.is_clean below.new) → (i : ℕ) → from ≤ i → i < to
        → slice_index (D.Disk.seen below.new) i ≡ slice_index file.new.items i) }
    ensures others { Torn from (to - from) file.old.items file.new.items }
    ensures len { length file.new.items ≡ length file.old.items }
    ensures seen { D.Disk.seen below.new ≡ D.Disk.seen below.old }
    ensures clean { IsTrue (D.Disk.is_clean below.new) → IsTrue (D.Disk.is_clean below.old) }
    ensures key { D.Disk.key_of below.new ≡ D.Disk.key_of below.old }
    ensures crash { (c : List ℕ) → D.Disk.may_leave below.new c → D.Disk.may_leave below.old c }
{
    below.read_at(from, &mut file[from..to])
}

fn read_part<D: Disk>(alloc: Global, below: &mut D, from: usize, n: usize) -> io::Result<Vec<u8>>
    requires usable { IsTrue (D.Disk.is_usable below.old) }
    requires some { 0 < n }
    ensures usable { IsTrue (D.Disk.is_usable below.new) }
    ensures len { IfOk result (λ found. length found.items ≡ n) }
    ensures holds { IfOk result (λ found. IsTrue (D.Disk.is_clean below.new) → Holds (D.Disk.seen below.new) from found.items) }
    ensures seen { D.Disk.seen below.new ≡ D.Disk.seen below.old }
    ensures clean { IsTrue (D.Disk.is_clean below.new) → IsTrue (D.Disk.is_clean below.old) }
    ensures key { D.Disk.key_of below.new ≡ D.Disk.key_of below.old }
    ensures crash { (c : List ℕ) → D.Disk.may_leave below.new c → D.Disk.may_leave below.old c }
{
    // In pieces of its own, because the copy must not change where the two differ.
    let Ok(mut found) = vec![in alloc; 0; n] else {
        return Err(io::ErrorKind::OutOfMemory.into());
    };
    below.read_at(from, &mut found)?;
    Ok(found)
}

fn is_same(a: &[u8], b: &[u8]) -> bool
    ensures { result ≡ bytes_eq a.now b.now }
{
    a == b
}

/// Sees that a part of the disk below is that of the copy: bytes that no call wrote are zero in both.
pub(crate) fn compare<D: Disk>(
    below: &mut D,
    file: &Vec<u8>,
    from: usize,
    to: usize,
) -> io::Result<()>
    requires usable { IsTrue (D.Disk.is_usable below.old) }
    requires within { to ≤ length file.now.items }
    ensures same { OnOk result (IsTrue (D.Disk.is_clean below.new) → (i : ℕ) → from ≤ i → i < to
        → slice_index (D.Disk.seen below.new) i ≡ slice_index file.now.items i) }
    ensures usable { IsTrue (D.Disk.is_usable below.new) }
    ensures seen { D.Disk.seen below.new ≡ D.Disk.seen below.old }
    ensures clean { IsTrue (D.Disk.is_clean below.new) → IsTrue (D.Disk.is_clean below.old) }
    ensures key { D.Disk.key_of below.new ≡ D.Disk.key_of below.old }
    ensures crash { (c : List ℕ) → D.Disk.may_leave below.new c → D.Disk.may_leave below.old c }
{
    // Only a write that begins past the old end leaves a gap.
    if from >= to {
        return Ok(());
    }
    let found = read_part(*file.allocator(), below, from, to - from)?;
    // What no call wrote has to read as zero below, as it does in the copy: else a later opening would find other
    // bytes (invariant 2).
    if !is_same(&found, &file[from..to]) {
        return Err(io::Error::other("a gap of the file has bytes"));
    }
    Ok(())
}
