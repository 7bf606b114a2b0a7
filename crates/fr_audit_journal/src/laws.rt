//! Laws of journals.
ghost use Rattle.fr_audit_journal.specs.Law.{MergedHasAll, MergedIsSorted, MergedIsStable};

/// Merged entries are those of the journals, in the order of their places, and those of one place as they are given.
pub fn merge_law()
    ensures sorted { MergedIsSorted }
    ensures stable { MergedIsStable }
    ensures all { MergedHasAll }
{}
