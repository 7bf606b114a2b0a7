//! Copies of what a store keeps.
ghost use Rattle.std.specs.Prelude.{◌≡◌, ℕ, List, IfOk};
ghost use Rattle.std.specs.Option.{option_copied};
ghost use Rattle.std.specs.FinMap as map;
ghost use Rattle.std.specs.BTreeMap as tree;
ghost use Rattle.std.specs.BTreeMap.Range.{entries_between, IsLeBy, IsLtBy};
ghost use Rattle.std.specs.Range.Bound.{bound_map, IsForward};
ghost use Rattle.std.specs.declared.ops.Bound.TheVariants.{Included};
ghost use Rattle.fr_base.specs.Map.{map_of};
ghost use Rattle.fr_mutation.specs.Shard.{part};
ghost use Rattle.fr_base.specs.Bytes.{bytes_cmp};

use crate::rows::Row;
use fr_base::{Bytes, Memory};
use fr_mutation::Shard;
use std::alloc::Global;
use std::collections::{BTreeMap, VecDeque};
use std::ops::Bound;

pub(crate) fn copy_of(value: &Option<Bytes>) -> Result<Option<Bytes>, Memory>
    ensures { IfOk result (λ copy. copy ≡ value.now) }
{
    match value {
        Some(value) => Ok(Some(value.copy()?)),
        None => Ok(None),
    }
}

/// A copy of a value that is lent, or none.
pub(crate) fn copied(value: Option<&Bytes>) -> Result<Option<Bytes>, Memory>
    ensures { IfOk result (λ copy. copy ≡ option_copied value.entry) }
{
    match value {
        Some(value) => Ok(Some(value.copy()?)),
        None => Ok(None),
    }
}

/// A copy of the value of a key, if it has one.
pub(crate) fn value_copy(
    contents: &BTreeMap<Bytes, Bytes>,
    key: &Bytes,
) -> Result<Option<Bytes>, Memory>
    ensures { IfOk result (λ copy. copy ≡ tree.get bytes_cmp contents.now key.now) }
{
    copied(contents.get(key))
}

/// Copies of the keys from `begin` up to an end, with their values, in the order of the keys.
fn between_copy(
    alloc: Global,
    contents: &BTreeMap<Bytes, Bytes>,
    begin: &Bytes,
    end: Bound<&Bytes>,
) -> Result<Vec<(Bytes, Bytes)>, Memory>
    requires { IsForward (IsLeBy bytes_cmp) (IsLtBy bytes_cmp) (Included begin.now) (bound_map (λ x. x.now) end) }
    ensures { IfOk result (λ entries. entries.items ≡ entries_between bytes_cmp (Included begin.now)
        (bound_map (λ x. x.now) end.entry) (map.entries {R = bytes_cmp} (map_of contents.now))) }
{
    let mut entries = Vec::new(alloc);
    for (key, value) in contents.range((Bound::Included(begin), end)) {
        entries.push((key.copy()?, value.copy()?))?;
    }
    Ok(entries)
}

/// Copies of the keys of a shard with their values, in the order of the keys.
pub(crate) fn range_copy(
    alloc: Global,
    contents: &BTreeMap<Bytes, Bytes>,
    shard: &Shard,
) -> Result<Vec<(Bytes, Bytes)>, Memory>
    ensures { IfOk result (λ entries. entries.items ≡ map.entries (part (map_of contents.now) shard.now)) }
{
    match &shard.end {
        None => between_copy(alloc, contents, &shard.begin, Bound::Unbounded),
        // A tree refuses a range that ends before it begins, and a shard may be empty in that way.
        Some(end) if shard.begin <= *end => {
            between_copy(alloc, contents, &shard.begin, Bound::Excluded(end))
        }
        Some(_) => Ok(Vec::new(alloc)),
    }
}

/// Copies of all keys with their values, in the order of the keys.
pub(crate) fn entries_copy(
    alloc: Global,
    contents: &BTreeMap<Bytes, Bytes>,
) -> Result<Vec<(Bytes, Bytes)>, Memory>
    ensures { IfOk result (λ entries. entries.items ≡ map.entries {R = bytes_cmp} (map_of contents.now)) }
{
    let mut entries = Vec::new(alloc);
    for (key, value) in contents.iter() {
        entries.push((key.copy()?, value.copy()?))?;
    }
    Ok(entries)
}

pub(crate) fn contents_copy(
    alloc: Global,
    contents: &BTreeMap<Bytes, Bytes>,
) -> Result<BTreeMap<Bytes, Bytes>, Memory>
    ensures { IfOk result (λ copy. (q : List ℕ) → tree.get bytes_cmp copy q ≡ tree.get bytes_cmp contents.now q) }
{
    let mut copy = BTreeMap::new(alloc);
    for (key, value) in contents.iter() {
        copy.insert(key.copy()?, value.copy()?)?;
    }
    Ok(copy)
}

pub(crate) fn rows_copy(alloc: Global, rows: &VecDeque<Row>) -> Result<VecDeque<Row>, Memory>
    ensures { IfOk result (λ copy. copy.items ≡ rows.now.items) }
{
    // In their order (invariant 4), with room for exactly these, so that it grows once.
    let mut copy = VecDeque::with_capacity(alloc, rows.len())?;
    for row in rows.iter() {
        copy.push_back(((row.0.0, row.0.1.copy()?), copy_of(&row.1)?))?;
    }
    Ok(copy)
}
