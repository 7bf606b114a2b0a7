//! Numbers that a caller gives. C has 64 bits for each, so that it cuts none; here each is within its limit, or refused.
ghost use Rattle.std.specs.Prelude.{◌≡◌, ◌<◌, ◌≤◌, ◌↔◌, IsSome, IfSome};

use fr_base::{Shape, Tag};
use fr_log::Most;

/// A number as a byte, if it is one.
pub fn byte(number: u64) -> Option<u8>
    ensures within { IsSome result ↔ (number < 256) }
    ensures value { IfSome result (λ byte. byte ≡ number) }
{
    match u8::try_from(number) {
        Ok(byte) => Some(byte),
        Err(_) => None,
    }
}

/// The tag of this number, if it is below 32.
pub fn tag(number: u64) -> Option<Tag>
    ensures within { IsSome result ↔ (number < 32) }
    ensures value { IfSome result (λ tag. tag ≡ number) }
{
    match byte(number) {
        Some(number) => Tag::new(number),
        None => None,
    }
}

/// How many records a peek asks for at most, if it is 1 to 100.
pub fn most(number: u64) -> Option<Most>
    ensures within { IsSome result ↔ ((1 ≤ number) × (number ≤ 100)) }
    ensures value { IfSome result (λ most. most ≡ number) }
{
    match byte(number) {
        Some(number) => Most::new(number),
        None => None,
    }
}

/// The shape of `m` logs on `k` of which each tag is, if 1 <= k <= m <= 16.
pub fn shape(m: u64, k: u64) -> Option<Shape>
    ensures within { IsSome result ↔ ((1 ≤ k) × ((k ≤ m) × (m ≤ 16))) }
    ensures value { IfSome result (λ shape. (shape.m ≡ m) × (shape.k ≡ k)) }
{
    match byte(m) {
        Some(m) => match byte(k) {
            Some(k) => Shape::new(m, k),
            None => None,
        },
        None => None,
    }
}
