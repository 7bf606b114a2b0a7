//! Ranges of keys, merged where they meet.
ghost use Rattle.std.specs.Prelude.{◌≡◌, ◌&&◌, ◌||◌, List, ℕ, IfOk, OnOk, cond};
ghost use Rattle.std.specs.Ordering.{is_le};
ghost use Rattle.fr_base.specs.Bytes.{bytes_cmp};
ghost use Rattle.fr_mutation.specs.Mutation.{is_between};
ghost use Rattle.fr_undo.specs.Changes.{covers};

use fr_base::{Bytes, Memory};
use std::alloc::Global;

pub(crate) fn is_covered(ranges: &[(Bytes, Bytes)], key: &Bytes) -> bool
    ensures { result ≡ covers ranges.now key.now }
{
    for range in ranges {
        // Walked one by one, since a batch has at most 1,000 clears, and merged they are fewer.
        if range.0 <= *key && *key < range.1 {
            return true;
        }
    }
    false
}

/// Whether two ranges have a key in common, or one begins where the other ends.
fn meet(a: &(Bytes, Bytes), b: &(Bytes, Bytes)) -> bool
    ensures { result ≡ (is_le (bytes_cmp a.now.0 b.now.1) && is_le (bytes_cmp b.now.0 a.now.1)) }
{
    // `<=` on both sides: ranges that touch are one, since the end is not part of a range.
    a.0 <= b.1 && b.0 <= a.1
}

fn lesser(a: Bytes, b: Bytes) -> Bytes
    ensures { result ≡ cond (is_le (bytes_cmp a b)) a b }
{
    if a <= b { a } else { b }
}

fn greater(a: Bytes, b: Bytes) -> Bytes
    ensures { result ≡ cond (is_le (bytes_cmp a b)) b a }
{
    if a <= b { b } else { a }
}

fn hull(a: (Bytes, Bytes), b: (Bytes, Bytes)) -> (Bytes, Bytes)
    ensures begin { result.0 ≡ cond (is_le (bytes_cmp a.0 b.0)) a.0 b.0 }
    ensures end { result.1 ≡ cond (is_le (bytes_cmp a.1 b.1)) b.1 a.1 }
{
    let ((begin, end), (other_begin, other_end)) = (a, b);
    (lesser(begin, other_begin), greater(end, other_end))
}

/// Adds a range to those that are apart from another, or merges the two.
fn add(
    apart: &mut Vec<(Bytes, Bytes)>,
    merged: (Bytes, Bytes),
    range: (Bytes, Bytes),
) -> Result<(Bytes, Bytes), Memory>
    ensures { IfOk result (λ next. (q : List ℕ) → (covers apart.new.items q || is_between next.0 next.1 q)
        ≡ ((covers apart.old.items q || is_between merged.0 merged.1 q) || is_between range.0 range.1 q)) }
{
    if meet(&merged, &range) {
        return Ok(hull(merged, range));
    }
    apart.push(range)?;
    Ok(merged)
}

/// The ranges with one more, merged with those that it meets: ranges that did not meet do not meet then. Otherwise
/// clears over the same keys would cost the square of their number.
pub(crate) fn with_range(
    alloc: Global,
    ranges: Vec<(Bytes, Bytes)>,
    begin: &Bytes,
    end: &Bytes,
) -> Result<Vec<(Bytes, Bytes)>, Memory>
    ensures { IfOk result (λ merged. (q : List ℕ) → covers merged.items q ≡ (covers ranges.items q || is_between begin.now end.now q)) }
{
    let mut merged = (begin.copy()?, end.copy()?);
    let mut apart = Vec::new(alloc);
    for range in ranges {
        // The merged range grows, but meets none of those passed: they met neither of the parts that it is made of.
        merged = add(&mut apart, merged, range)?;
    }
    apart.push(merged)?;
    Ok(apart)
}
