//! That the law of real time asks for no more than it needs.
ghost use Rattle.fr_run_history.specs.Example.{LateIsNumberedLow};

/// There is a run in which a batch was acknowledged at version 3, and one that was submitted later got version 2: by a
/// proxy of an epoch that had ended. So only of batches that are committed versions are in the order of real time.
pub fn late_law()
    ensures { LateIsNumberedLow }
{}
