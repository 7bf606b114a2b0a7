//! The journals of stations, once no thread asks them any more.
ghost use Rattle.std.specs.Prelude.{◌≡◌, ◌≤◌, ◌+◌, length, IfErr, OnOk, true};
ghost use Rattle.fr_runtime_station.specs.Answering.{IsClosingTrouble, all_answer, answers};

use crate::station::Station;
use fr_audit_journal::{Housable, Journal};
use fr_base::{Machine, Memory, Node, NodeFault};
use std::alloc::Global;

/// Puts the closed journals of stations behind others: of each, or of those alone in which something was entered.
pub(crate) fn close_all<N: Node>(
    alloc: Global,
    stations: Vec<Station<N>>,
    is_each: bool,
    journals: &mut Vec<Journal>,
) -> Result<(), NodeFault>
where
    N: Drop,
    N::Plain: Housable,
    <N::Plain as Machine>::Ask: Drop,
    requires before { all_answer journals.old.items ≡ true }
    ensures answers { OnOk result (all_answer journals.new.items ≡ true) }
    ensures more { OnOk result (length journals.old.items ≤ length journals.new.items) }
    ensures each { is_each ≡ true → OnOk result (length journals.new.items
        ≡ length journals.old.items + length stations.items) }
    ensures trouble { IfErr result (IsClosingTrouble N.CanMeet) }
{
    for station in stations {
        // `close` opens a failed node again: a journal ends with the state that the node is really in (invariant 1).
        put_closed(journals, station.close(alloc)?, is_each)?;
    }
    Ok(())
}

/// Puts a journal of a node that answers asks behind others, or drops it if nothing was entered and not each is put.
pub(crate) fn put_closed(
    journals: &mut Vec<Journal>,
    journal: Journal,
    is_each: bool,
) -> Result<(), Memory>
    requires before { all_answer journals.old.items ≡ true }
    requires place { answers journal.node ≡ true }
    ensures answers { OnOk result (all_answer journals.new.items ≡ true) }
    ensures more { OnOk result (length journals.old.items ≤ length journals.new.items) }
    ensures each { is_each ≡ true → OnOk result (length journals.new.items ≡ length journals.old.items + 1) }
{
    // A node of a later epoch that nobody called took part in nothing, so its journal may be left out. Those of the
    // start are wanted each.
    if is_each || !journal.entries().is_empty() {
        put(journals, journal)?;
    }
    Ok(())
}

/// Puts a journal of a node that answers asks behind others.
fn put(journals: &mut Vec<Journal>, journal: Journal) -> Result<(), Memory>
    requires before { all_answer journals.old.items ≡ true }
    requires place { answers journal.node ≡ true }
    ensures answers { OnOk result (all_answer journals.new.items ≡ true) }
    ensures more { OnOk result (length journals.new.items ≡ length journals.old.items + 1) }
{
    journals.reserve(1)?;
    journals.push_reserved(journal);
    Ok(())
}
