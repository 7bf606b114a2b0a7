//! Storage servers hear.
ghost use Rattle.std.specs.Prelude.{◌≡◌, true, IfErr, IfOk, None, Ok, OnErr, OnOk, Some};
ghost use Rattle.fr_base.specs.declared.place.NodeId.TheVariants as node;
ghost use Rattle.fr_run.specs.Step.{heard_by_storage};
ghost use Rattle.fr_run.specs.declared.event.Event.TheVariants as event;
ghost use Rattle.fr_run.specs.declared.not_enabled.NotEnabled.TheVariants as not_enabled;
ghost use Rattle.fr_run.specs.Nodes.{storage_at};
ghost use Rattle.fr_run.specs.Run.{IsHeardBy};
ghost use Rattle.fr_world.specs.Stepping.{Steps, Refuses, RefusesTurn};
ghost use Rattle.fr_world.specs.World.{stepped_by};
ghost use Rattle.fr_world_nodes.specs.Kept.{state_of, IsKept};

use super::why_not_up;
use fr_ask::Tell;
use fr_base::{NodeId, Tag, Version};
use fr_run::event_laws::step_law;
use fr_run::{Answer, NotEnabled};
use fr_world_nodes::Nodes;
use std::alloc::Global;

/// A tell comes to a storage server, which may break off its hear at a version. Out of memory nodes that are kept are
/// as they were; others are given up.
pub(crate) fn heard_by_storage(
    alloc: Global,
    nodes: &mut Nodes,
    keeps: bool,
    tag: Tag,
    from: NodeId,
    tell: Tell,
    taken: Option<Version>,
) -> Result<Answer, NotEnabled>
    requires kept { IsKept nodes.old }
    ensures keeps { keeps ≡ true → IsKept nodes.new }
    ensures turn { Steps (state_of nodes.old) (state_of nodes.new) (event.Hear (node.Storage tag) from tell taken) result }
    ensures refused { Refuses (state_of nodes.old) (event.Hear (node.Storage tag) from tell taken) result }
    ensures err { OnErr result (state_of nodes.new ≡ state_of nodes.old) }
    ensures stays { OnOk result (IsKept nodes.new) }
{
    step_law();
    let by = NodeId::Storage { tag };
    if let Some(why) = why_not_up(nodes, &by) {
        return Err(why);
    }
    let teller = from;
    // Before `taken` is looked at: a break of a reply that was never given is refused as NeverSent too (invariants 3
    // and 4).
    if !nodes.was_told(teller, by, &tell) {
        return Err(NotEnabled::NeverSent);
    }
    match taken {
        None => hear_whole(alloc, nodes, keeps, tag, from, tell),
        Some(version) => hear_in_part(alloc, nodes, keeps, tag, from, tell, version),
    }
}

/// A tell that came to a storage server is heard whole, or refused by it.
fn hear_whole(
    alloc: Global,
    nodes: &mut Nodes,
    keeps: bool,
    tag: Tag,
    from: NodeId,
    tell: Tell,
) -> Result<Answer, NotEnabled>
    requires kept { IsKept nodes.old }
    requires heard { IsHeardBy (state_of nodes.old).config (state_of nodes.old).turns (node.Storage tag) from tell }
    ensures turn { IfOk result (λ answer. stepped_by (state_of nodes.old)
        (heard_by_storage (storage_at (state_of nodes.old).config (state_of nodes.old).turns tag) tag from
        tell None) ≡ Ok (state_of nodes.new, answer)) }
    ensures refused { IfErr result (λ why. why ≡ not_enabled.Memory) }
    ensures err { OnErr result (state_of nodes.new ≡ state_of nodes.old) }
    ensures keeps { keeps ≡ true → IsKept nodes.new }
    ensures stays { OnOk result (IsKept nodes.new) }
{
    // A refusal of the server is an answer of the event, and the turn is made: late replies are part of a run.
    match nodes.tell_storage(alloc, keeps, tag, from, tell)? {
        Some(fault) => Ok(Answer::Refused(fault)),
        None => Ok(Answer::Done),
    }
}

/// A hear of a tell that came to a storage server breaks off at a version, if it can.
fn hear_in_part(
    alloc: Global,
    nodes: &mut Nodes,
    keeps: bool,
    tag: Tag,
    from: NodeId,
    tell: Tell,
    version: Version,
) -> Result<Answer, NotEnabled>
    requires kept { IsKept nodes.old }
    requires heard { IsHeardBy (state_of nodes.old).config (state_of nodes.old).turns (node.Storage tag) from tell }
    ensures turn { IfOk result (λ answer. stepped_by (state_of nodes.old)
        (heard_by_storage (storage_at (state_of nodes.old).config (state_of nodes.old).turns tag) tag from
        tell (Some version)) ≡ Ok (state_of nodes.new, answer)) }
    ensures refused { RefusesTurn (heard_by_storage
        (storage_at (state_of nodes.old).config (state_of nodes.old).turns tag) tag from tell
        (Some version)) result }
    ensures err { OnErr result (state_of nodes.new ≡ state_of nodes.old) }
    ensures keeps { keeps ≡ true → IsKept nodes.new }
    ensures stays { OnOk result (IsKept nodes.new) }
{
    // Asked first, because the call would make changes of which only some might be allowed (invariant 3).
    if !nodes.may_break(tag, &from, &tell, version) {
        return Err(NotEnabled::NeverSent);
    }
    nodes.break_storage(alloc, keeps, tag, from, tell, version)?;
    Ok(Answer::Done)
}
