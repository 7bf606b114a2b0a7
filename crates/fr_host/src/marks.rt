//! Bytes, and of each whether it is kept, in lists that have room.
ghost use Rattle.std.specs.Prelude.{◌≡◌, ◌⊎◌, ◌+◌, ◌-◌, ◌<◌, ◌≤◌, ◌++◌, max, false, true, length, get_or, replicate, IfOk};
ghost use Rattle.std.specs.Vec.{vec_capacity};
ghost use Rattle.sqlite_disk.specs.Disk.{Holds};
ghost use Rattle.fr_record.specs.Disk.{written};

use std::alloc::{AllocError, Global};

/// Marks of so many bytes, each of which is kept, in a list that has room for `capacity`.
pub(crate) fn all_kept(alloc: Global, len: usize, capacity: usize) -> Result<Vec<bool>, AllocError>
    requires { len ≤ capacity }
    ensures len { IfOk result (λ marks. length marks.items ≡ len) }
    ensures kept { IfOk result (λ marks. (i : _) → i < len → get_or marks.items i false ≡ true) }
    ensures none_past { IfOk result (λ marks. (i : _) → len ≤ i → get_or marks.items i false ≡ false) }
    ensures room { IfOk result (λ marks. capacity ≤ vec_capacity marks) }
{
    let mut marks = Vec::with_capacity(alloc, capacity)?;
    marks.resize(len, true)?;
    Ok(marks)
}

/// Sees that a list that has room for them has so many items.
fn lengthen<T: Copy>(list: &mut Vec<T>, len: usize, value: T)
    requires { len ≤ vec_capacity list.old }
    ensures len { length list.new.items ≡ max (length list.old.items) len }
    ensures items { list.new.items ≡ list.old.items ++ replicate (len - length list.old.items) value }
    ensures capacity { vec_capacity list.old ≤ vec_capacity list.new }
{
    if list.len() < len {
        match list.resize(len, value) {
            Ok(()) => {}
            // The room was reserved when the device was made (invariant 5).
            Err(_) => unreachable!(),
        }
    }
}

/// Writes bytes over those from a place on, and past the end.
pub(crate) fn overwrite(bytes: &mut Vec<u8>, at: usize, new: &[u8])
    requires within { at ≤ length bytes.old.items }
    requires room { at + length new.now ≤ vec_capacity bytes.old }
    ensures items { bytes.new.items ≡ written bytes.old.items at new.now }
    ensures len { length bytes.new.items ≡ max (length bytes.old.items) (at + length new.now) }
    ensures holds { Holds bytes.new.items at new.now }
    ensures outside { (i : _) → i < length bytes.old.items → (i < at) ⊎ (at + length new.now ≤ i)
        → get_or bytes.new.items i 0 ≡ get_or bytes.old.items i 0 }
    ensures capacity { vec_capacity bytes.old ≤ vec_capacity bytes.new }
{
    let end = at + new.len();
    // Lengthened first, so that one copy does for a write inside, over the end and behind it.
    lengthen(bytes, end, 0);
    bytes[at..end].copy_from_slice(new);
}

/// Marks `n` places from one on, and past the end, as not kept.
pub(crate) fn mark(marks: &mut Vec<bool>, at: usize, n: usize)
    requires within { at ≤ length marks.old.items }
    requires room { at + n ≤ vec_capacity marks.old }
    ensures len { length marks.new.items ≡ max (length marks.old.items) (at + n) }
    ensures inside { (i : _) → at ≤ i → i < at + n → get_or marks.new.items i false ≡ false }
    ensures outside { (i : _) → (i < at) ⊎ (at + n ≤ i) → get_or marks.new.items i false ≡ get_or marks.old.items i false }
    ensures capacity { vec_capacity marks.old ≤ vec_capacity marks.new }
{
    // New bytes begin as not kept: only a sync can change that (invariant 3).
    lengthen(marks, at + n, false);
    marks[at..at + n].fill(false);
}

pub(crate) fn keep(marks: &mut Vec<bool>, from: usize)
    requires within { from ≤ length marks.old.items }
    requires below { (i : _) → i < from → get_or marks.old.items i false ≡ true }
    ensures len { length marks.new.items ≡ length marks.old.items }
    ensures kept { (i : _) → i < length marks.old.items → get_or marks.new.items i false ≡ true }
    ensures capacity { vec_capacity marks.old ≤ vec_capacity marks.new }
{
    marks[from..].fill(true);
}
