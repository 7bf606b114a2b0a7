//! Entries by their numbers.
ghost use Rattle.std.specs.Prelude.{◌≡◌, IfOk};
ghost use Rattle.std.specs.Option.{option_map};
ghost use Rattle.std.specs.List.{slice_get};
ghost use Rattle.fr_audit_journal.specs.Merge.{merged};
ghost use Rattle.fr_audit_journal.specs.Placed.{placed_of};

use fr_audit_journal::{Journal, NodeEntry, merge};
use fr_base::Memory;
use std::alloc::Global;

/// The entry of a number, as a fault of an audit counts them, and its node; None if there are not so many. It costs
/// the number of all entries times its logarithm.
pub fn entry_at<'a>(
    alloc: Global,
    journals: &'a [Journal],
    at: usize,
) -> Result<Option<NodeEntry<'a>>, Memory>
    ensures { IfOk result (λ entry. option_map placed_of entry ≡ slice_get (merged journals.now) at) }
{
    let entries = merge(alloc, journals)?;
    if at < entries.len() {
        let NodeEntry { node, entry } = &entries[at];
        Ok(Some(NodeEntry { node: *node, entry }))
    } else {
        Ok(None)
    }
}
