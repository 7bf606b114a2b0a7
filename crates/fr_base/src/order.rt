//! The order of byte strings. `<[u8]>::cmp` gives the same answer, but searches of trees spent much of their time in it.
ghost use Rattle.std.specs.Prelude.{◌≡◌, ◌+◌, ◌≤◌, min, take, drop, length};
ghost use Rattle.std.specs.Slice.Scan.{big_endian};
ghost use Rattle.fr_base.specs.Bytes.{bytes_cmp};

use std::cmp::Ordering;

/// How two byte strings compare: by the first byte in which they differ, else by their lengths. It reads eight bytes at a time.
pub(crate) fn order(a: &[u8], b: &[u8]) -> Ordering
    ensures { result ≡ bytes_cmp a.now b.now }
{
    let (a_len, b_len) = (a.len(), b.len());
    let both = a_len.min(b_len);
    if both < 8 {
        return order_by_bytes(a, b, both);
    }
    let last = both - 8;
    let mut at = 0;
    while at < last {
        let (x, y) = (word(a, at), word(b, at));
        if x != y {
            return x.cmp(&y);
        }
        at += 8;
    }
    // The last word ends where the shorter string does. It may begin among bytes already found equal.
    let (x, y) = (word(a, last), word(b, last));
    if x != y {
        return x.cmp(&y);
    }
    a_len.cmp(&b_len)
}

/// The same answer, a byte at a time. The shorter of the two has `both` bytes.
fn order_by_bytes(a: &[u8], b: &[u8], both: usize) -> Ordering
    requires { both ≡ min (length a.now) (length b.now) }
    ensures { result ≡ bytes_cmp a.now b.now }
{
    for at in 0..both {
        let (x, y) = (a[at], b[at]);
        if x != y {
            return x.cmp(&y);
        }
    }
    a.len().cmp(&b.len())
}

/// The eight bytes from a place on as a number, the first byte the greatest: such numbers compare as the bytes do.
fn word(bytes: &[u8], at: usize) -> u64
    requires { at + 8 ≤ length bytes.now }
    ensures { result ≡ big_endian 0 (take 8 (drop at bytes.now)) }
{
    u64::from_be_bytes([
        bytes[at],
        bytes[at + 1],
        bytes[at + 2],
        bytes[at + 3],
        bytes[at + 4],
        bytes[at + 5],
        bytes[at + 6],
        bytes[at + 7],
    ])
}
