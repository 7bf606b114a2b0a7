//! That the laws of commits say something.
ghost use Rattle.fr_run_commits.specs.Example.{FirstServes};

/// Where nothing happened yet, the first epoch serves, and no batch is in flight.
pub fn serves_law()
    ensures { FirstServes }
{}
