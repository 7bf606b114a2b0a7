//! Laws of events.
ghost use Rattle.fr_run.specs.Law.{EventIsTurn, TurnIsEvent};
ghost use Rattle.fr_run.specs.Law.{FirstIsRefused, RefusedIsFirst, ReplayIsRun, RunIsReplay};

/// Events are exactly the turns that may come next.
pub fn step_law()
    ensures turn { EventIsTurn }
    ensures event { TurnIsEvent }
{}

/// A list of events is a run, or is refused at the first event that cannot happen; and each run is such a list.
pub fn replay_law()
    ensures run { ReplayIsRun }
    ensures replay { RunIsReplay }
    ensures first { RefusedIsFirst }
    ensures refused { FirstIsRefused }
{}
