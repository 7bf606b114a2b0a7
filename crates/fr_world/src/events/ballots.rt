//! Recoverers begin, and hear.
ghost use Rattle.std.specs.Prelude.{◌≡◌, OnErr};
ghost use Rattle.fr_base.specs.declared.place.NodeId.TheVariants as node;
ghost use Rattle.fr_run.specs.Limits.{HasLimits};
ghost use Rattle.fr_run.specs.Step.{is_used};
ghost use Rattle.fr_run.specs.declared.event.Event.TheVariants as event;
ghost use Rattle.fr_world.specs.Stepping.{Steps, Refuses};
ghost use Rattle.fr_world_nodes.specs.Kept.{state_of, IsKept};

use super::why_not_up;
use fr_ask::Tell;
use fr_base::{Ballot, NodeId, Shape, Version};
use fr_run::event_laws::step_law;
use fr_run::{Answer, NotEnabled};
use fr_world_nodes::{Nodes, start};
use std::alloc::Global;

/// Whether a ballot is used: a recoverer of it began, or it is that of the start, or 0.
fn is_used(nodes: &Nodes, ballot: Ballot) -> bool
    requires { IsKept nodes.now }
    ensures { result ≡ is_used (state_of nodes.now).config (state_of nodes.now).turns ballot }
{
    let number = ballot.get();
    // 0 is the ballot of a cell that was never asked, and 257 that of the start, which no recoverer chose (invariant
    // 5).
    nodes.recoverers.get(&ballot).is_some() || number == start::FIRST || number == 0
}

/// The recoverer of a ballot begins, if the ballot is not used.
pub(crate) fn begun(
    alloc: Global,
    nodes: &mut Nodes,
    ballot: Ballot,
    shape: Option<Shape>,
) -> Result<Answer, NotEnabled>
    requires kept { IsKept nodes.old }
    requires limits { HasLimits (event.Begin ballot shape) }
    ensures turn { Steps (state_of nodes.old) (state_of nodes.new) (event.Begin ballot shape) result }
    ensures refused { Refuses (state_of nodes.old) (event.Begin ballot shape) result }
    ensures err { OnErr result (state_of nodes.new ≡ state_of nodes.old) }
    ensures stays { IsKept nodes.new }
{
    step_law();
    // The one place at which a recoverer comes to be, so the premise is kept here (invariant 5).
    if is_used(nodes, ballot) {
        return Err(NotEnabled::BallotUsed);
    }
    nodes.begin(alloc, ballot, &shape)?;
    Ok(Answer::Done)
}

/// A recoverer hears a reply, if it is up and was given it.
pub(crate) fn heard_by_recoverer(
    alloc: Global,
    nodes: &mut Nodes,
    ballot: Ballot,
    from: NodeId,
    tell: Tell,
    taken: Option<Version>,
) -> Result<Answer, NotEnabled>
    requires kept { IsKept nodes.old }
    ensures turn { Steps (state_of nodes.old) (state_of nodes.new) (event.Hear (node.Recoverer ballot) from tell taken) result }
    ensures refused { Refuses (state_of nodes.old) (event.Hear (node.Recoverer ballot) from tell taken) result }
    ensures err { OnErr result (state_of nodes.new ≡ state_of nodes.old) }
    ensures stays { IsKept nodes.new }
{
    step_law();
    let by = NodeId::Recoverer { ballot };
    if let Some(why) = why_not_up(nodes, &by) {
        return Err(why);
    }
    // After the test that it is up: whatever was told to a node that is gone, it hears nothing (invariants 3 and 5).
    let told = nodes.turns.was_told(&from, &by, &tell);
    // A hear that broke off is a storage server's: others have no store that could refuse a call.
    if !told || taken.is_some() {
        return Err(NotEnabled::NeverSent);
    }
    nodes.tell_recoverer(alloc, ballot, from, tell)?;
    Ok(Answer::Done)
}
