//! A batch applied, with undo rows, all of it or nothing.
ghost use Rattle.std.specs.Prelude.{◌≡◌, ◌+◌, ◌<◌, ◌≤◌, ◌++◌, List, [], ℕ, OnOk, OnErr, length};
ghost use Rattle.std.specs.Option.{option_or};
ghost use Rattle.std.specs.List.Sorted.{IsStrictlySortedBy};
ghost use Rattle.std.specs.Map.{lookup, keys_of};
ghost use Rattle.std.specs.BTreeMap as tree;
ghost use Rattle.std.specs.BTreeMap.{is_at};
ghost use Rattle.std.specs.VecDeque.{deque_capacity};
ghost use Rattle.fr_base.specs.Bytes.{bytes_cmp};
ghost use Rattle.fr_mutation.specs.Mutation.{value_after_all};
ghost use Rattle.fr_undo.specs.State.{Place};
ghost use Rattle.fr_undo.specs.Rows.{IsInOrder, AreThrough, row_in, with_row, rows_left};
ghost use Rattle.fr_undo.specs.Changes.{row_made};
ghost use Rattle.fr_undo.specs.Plan.{acted, finished};

use crate::plan::plan_of;
use crate::rows::Row;
use crate::write::{Fate, finish, give_values};
use fr_base::{Bytes, Memory, Version};
use fr_mutation::Batch;
use std::alloc::Global;
use std::collections::{BTreeMap, VecDeque};

/// Adds a row, if there is one, to rows that have room for it.
fn put_row(rows: &mut VecDeque<Row>, place: (Version, Bytes), before: Option<Option<Bytes>>)
    requires { length rows.old.items < deque_capacity rows.old }
    ensures rows { rows.new.items ≡ rows.old.items ++ with_row place before [] }
    ensures room { deque_capacity rows.new ≡ deque_capacity rows.old }
{
    if let Some(before) = before {
        // At the end: the version is above all rows, and the keys come in order (invariant 4). Room was reserved
        // (invariant 6).
        rows.push_back_reserved((place, before));
    }
}

/// Finishes a plan whose values are given, and adds the row of each key that holds something else than at
/// first. Keys and values are moved into the rows.
fn settle(
    contents: &mut BTreeMap<Bytes, Bytes>,
    rows: &mut VecDeque<Row>,
    version: Version,
    fates: Vec<(Bytes, Fate)>,
)
    requires order { IsStrictlySortedBy bytes_cmp (keys_of fates.items) }
    requires room { length rows.old.items + length fates.items ≤ deque_capacity rows.old }
    ensures values { (q : List ℕ) → tree.get bytes_cmp contents.new q
        ≡ acted finished (lookup (is_at (bytes_cmp q)) fates.items) (tree.get bytes_cmp contents.old q) }
    ensures rows { rows.new.items ≡ rows.old.items ++ rows_left version (tree.get bytes_cmp contents.old) fates.items }
{
    for (key, fate) in fates {
        // None where the value is the same as before: no row for such a key (invariant 2).
        let before = finish(contents, &key, fate);
        put_row(rows, (version, key), before);
    }
}

/// Applies a batch at a version above all rows: all of it, or nothing if memory runs out.
///
/// A batch is planned before it is written, and the steps that can fail come first. So a refused batch has no rows to
/// take back.
pub(crate) fn extend(
    alloc: Global,
    contents: &mut BTreeMap<Bytes, Bytes>,
    rows: &mut VecDeque<Row>,
    applied: Version,
    version: Version,
    batch: &Batch,
) -> Result<(), Memory>
    requires order { IsInOrder rows.old.items }
    requires upto { AreThrough rows.old.items applied }
    requires later { applied < version }
    ensures values { OnOk result ((q : List ℕ) → tree.get bytes_cmp contents.new q ≡ value_after_all batch.now q (tree.get bytes_cmp contents.old q)) }
    ensures rows { OnOk result ((p : Place)
        → row_in rows.new.items p ≡ option_or (row_in rows.old.items p) (row_made (tree.get bytes_cmp contents.old)
        (λ q. value_after_all batch.now q (tree.get bytes_cmp contents.old q)) version p)) }
    ensures order { OnOk result (IsInOrder rows.new.items) }
    ensures same_values { OnErr result ((q : List ℕ) → tree.get bytes_cmp contents.new q ≡ tree.get bytes_cmp contents.old q) }
    ensures same_rows { OnErr result (rows.new.items ≡ rows.old.items) }
{
    // Values of all mutations are worked out before the first is written (invariant 6): a batch is one change.
    let plan = plan_of(alloc, contents, batch)?;
    let entries = plan.into_entries(alloc)?;
    // Room for every key of the plan, though some may need no row: which ones is known only once values are given.
    rows.reserve(entries.len())?;
    // The last step that can fail. It takes back what it gave (invariant 6).
    let fates = give_values(alloc, contents, entries)?;
    // From here on nothing can fail: keys are removed, and rows put in reserved room.
    settle(contents, rows, version, fates);
    Ok(())
}
