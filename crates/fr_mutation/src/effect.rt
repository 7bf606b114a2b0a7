//! What a batch makes of a map.
ghost use Rattle.std.specs.Prelude.{◌≡◌, ℕ, List, None, false, OnOk, IfOk, OnErr, filter};
ghost use Rattle.std.specs.Ordering.{is_lt};
ghost use Rattle.std.specs.BTreeMap as tree;
ghost use Rattle.std.specs.BTreeMap.{IsUnchanged};
ghost use Rattle.fr_base.specs.Bytes.{bytes_cmp};
ghost use Rattle.fr_base.specs.Map.{map_of};
ghost use Rattle.fr_mutation.specs.Mutation.{value_after, after, is_between, IsAfterFront};
ghost use Rattle.fr_mutation.specs.Limits.{mutation_fault};
ghost use Rattle.fr_mutation.specs.declared.mutation.Mutation.TheVariants.{Clear};

use crate::batch::Batch;
use crate::mutation::Mutation;
use fr_base::{Bytes, Memory};
use std::alloc::Global;
use std::collections::BTreeMap;

/// Lets the mutations act on the rows, from first to last. Out of memory the rows are as some first
/// mutations made them: copy the rows first if they are still needed then.
pub fn apply(alloc: Global, rows: &mut BTreeMap<Bytes, Bytes>, batch: &Batch) -> Result<(), Memory>
    ensures ok { OnOk result (map_of rows.new ≡ after (map_of rows.old) batch.now) }
    ensures front { OnErr result (IsAfterFront (map_of rows.old) batch.now (map_of rows.new)) }
{
    for mutation in batch.mutations() {
        act(alloc, rows, mutation)?;
    }
    Ok(())
}

/// Lets one mutation act on the rows. Out of memory changes nothing.
fn act(alloc: Global, rows: &mut BTreeMap<Bytes, Bytes>, mutation: &Mutation) -> Result<(), Memory>
    requires { mutation_fault mutation.now ≡ None }
    ensures ok { OnOk result ((q : List ℕ) → tree.get bytes_cmp rows.new q ≡ value_after mutation.now q (tree.get bytes_cmp rows.old q)) }
    ensures err { OnErr result (IsUnchanged rows.old rows.new) }
{
    if let Mutation::Clear { begin, end } = mutation {
        return clear(alloc, rows, begin, end);
    }
    if let Some(key) = mutation.key() {
        match mutation.new_value(alloc, rows.get(key))? {
            Some(value) => {
                rows.insert(key.copy()?, value)?;
            }
            None => {
                rows.remove(key);
            }
        }
    }
    Ok(())
}

/// Removes the rows whose keys are at least `begin` and below `end`; it walks these rows alone. Out of
/// memory changes nothing, as their keys are copied before the first of them goes.
fn clear(
    alloc: Global,
    rows: &mut BTreeMap<Bytes, Bytes>,
    begin: &Bytes,
    end: &Bytes,
) -> Result<(), Memory>
    requires { is_lt (bytes_cmp end.now begin.now) ≡ false }
    ensures ok { OnOk result ((q : List ℕ) → tree.get bytes_cmp rows.new q ≡ value_after (Clear begin.now end.now) q (tree.get bytes_cmp rows.old q)) }
    ensures err { OnErr result (IsUnchanged rows.old rows.new) }
{
    let keys = keys_between(alloc, rows, begin, end)?;
    for key in keys.as_slice() {
        rows.remove(key);
    }
    Ok(())
}

/// The keys of the rows that are at least `begin` and below `end`.
fn keys_between(
    alloc: Global,
    rows: &BTreeMap<Bytes, Bytes>,
    begin: &Bytes,
    end: &Bytes,
) -> Result<Vec<Bytes>, Memory>
    requires { is_lt (bytes_cmp end.now begin.now) ≡ false }
    ensures { IfOk result (λ keys. keys.items ≡ filter (is_between begin.now end.now) (tree.keys rows.now)) }
{
    let mut keys = Vec::new(alloc);
    for (key, _) in rows.range(begin..end) {
        keys.push(key.copy()?)?;
    }
    Ok(keys)
}
