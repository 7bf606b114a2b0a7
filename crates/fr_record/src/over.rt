//! Writes over parts of a list that has room.
ghost use Rattle.std.specs.Prelude.{◌≡◌, ◌⊎◌, ◌+◌, ◌<◌, ◌≤◌, ◌++◌, max, Bool, false, true, length, get_or, take, drop};
ghost use Rattle.std.specs.Vec.{vec_capacity};
ghost use Rattle.fr_record.specs.Disk.{written};

/// Writes bytes over those from a place on, and past the end.
pub(crate) fn overwrite(bytes: &mut Vec<u8>, at: usize, new: &[u8])
    requires within { at ≤ length bytes.old.items }
    requires room { at + length new.now ≤ vec_capacity bytes.old }
    ensures items { bytes.new.items ≡ written bytes.old.items at new.now }
    ensures capacity { vec_capacity bytes.old ≤ vec_capacity bytes.new }
{
    let kept = bytes.len() - at;
    if kept < new.len() {
        // Cut and extended in the room that is reserved: `at` bytes stay, so nothing is moved and nothing can fail.
        bytes.truncate(at);
        match bytes.extend_from_slice(new) {
            Ok(()) => {}
            // Its room was reserved when the device was made.
            Err(_) => unreachable!(),
        }
    } else {
        bytes[at..at + new.len()].copy_from_slice(new);
    }
}

/// Marks `n` places from one on, and past the end, as not synced.
pub(crate) fn mark(synced: &mut Vec<bool>, at: usize, n: usize)
    requires within { at ≤ length synced.old.items }
    requires room { at + n ≤ vec_capacity synced.old }
    ensures len { length synced.new.items ≡ max (length synced.old.items) (at + n) }
    ensures inside { (i : _) → at ≤ i → i < at + n → get_or synced.new.items i false ≡ false }
    ensures outside { (i : _) → i < length synced.old.items → (i < at) ⊎ (at + n ≤ i)
        → get_or synced.new.items i false ≡ get_or synced.old.items i false }
    ensures capacity { vec_capacity synced.old ≤ vec_capacity synced.new }
{
    let kept = synced.len() - at;
    if kept < n {
        synced.truncate(at);
        match synced.resize(at + n, false) {
            Ok(()) => {}
            Err(_) => unreachable!(),
        }
    } else {
        synced[at..at + n].fill(false);
    }
}

pub(crate) fn mark_synced(synced: &mut Vec<bool>, from: usize)
    requires within { from ≤ length synced.old.items }
    ensures len { length synced.new.items ≡ length synced.old.items }
    ensures from { (i : _) → from ≤ i → i < length synced.old.items → get_or synced.new.items i false ≡ true }
    ensures below { (i : _) → i < from → get_or synced.new.items i false ≡ get_or synced.old.items i false }
    ensures capacity { vec_capacity synced.old ≤ vec_capacity synced.new }
{
    synced[from..].fill(true);
}

/// Puts a byte at each place that is not synced.
pub(crate) fn fill_unsynced(bytes: &mut Vec<u8>, synced: &[bool], fill: u8)
    requires { length synced.now ≡ length bytes.old.items }
    ensures len { length bytes.new.items ≡ length bytes.old.items }
    ensures synced { (i : _) → get_or synced.now i false ≡ true → get_or bytes.new.items i 0 ≡ get_or bytes.old.items i 0 }
    ensures unsynced { (i : _) → i < length synced.now → get_or synced.now i true ≡ false → get_or bytes.new.items i 0 ≡ fill }
    ensures capacity { vec_capacity bytes.old ≤ vec_capacity bytes.new }
{
    for i in 0..synced.len() {
        if !synced[i] {
            bytes[i] = fill;
        }
    }
}
