//! That the laws of runs say something.
ghost use Rattle.fr_run_outcomes.specs.Example.{PopsAndDrops};

/// There is a run in which a batch is acknowledged in a generation of another shape than the first one has. A storage
/// server then lets a log pop what it has for good. The next recovery copies from that log and drops the first
/// generation.
pub fn pops_law()
    ensures { PopsAndDrops }
{}
