//! Proxies are given batches, and hear.
ghost use Rattle.std.specs.Prelude.{◌≡◌, OnErr};
ghost use Rattle.fr_base.specs.declared.place.NodeId.TheVariants as node;
ghost use Rattle.fr_run.specs.declared.event.Event.TheVariants as event;
ghost use Rattle.fr_world.specs.Stepping.{Steps, Refuses};
ghost use Rattle.fr_world_nodes.specs.Kept.{state_of, IsKept};

use super::why_not_up;
use fr_ask::Tell;
use fr_base::{Epoch, NodeId, Step, Version};
use fr_mutation::Batch;
use fr_run::event_laws::step_law;
use fr_run::{Answer, NotEnabled};
use fr_world_nodes::Nodes;
use fr_world_nodes::proxies::not_taken;
use std::alloc::Global;

/// A proxy is given a batch, if it takes one now.
pub(crate) fn submitted(
    alloc: Global,
    nodes: &mut Nodes,
    epoch: Epoch,
    proxy: u8,
    step: Step,
    batch: Batch,
) -> Result<Answer, NotEnabled>
    requires kept { IsKept nodes.old }
    ensures turn { Steps (state_of nodes.old) (state_of nodes.new) (event.Submit epoch proxy step batch) result }
    ensures refused { Refuses (state_of nodes.old) (event.Submit epoch proxy step batch) result }
    ensures err { OnErr result (state_of nodes.new ≡ state_of nodes.old) }
    ensures stays { IsKept nodes.new }
{
    step_law();
    let _within = step.get();
    let by = NodeId::Proxy {
        epoch,
        number: proxy,
    };
    if let Some(why) = why_not_up(nodes, &by) {
        return Err(why);
    }
    // Asked before the batch is moved in, so that a refusal changes nothing (invariant 3).
    if let Some(fault) = nodes.submit_fault(epoch, proxy) {
        return Err(not_taken(fault));
    }
    nodes.submit(alloc, epoch, proxy, step, batch)?;
    Ok(Answer::Done)
}

/// A proxy hears a reply, if it is up and was given it.
pub(crate) fn heard_by_proxy(
    alloc: Global,
    nodes: &mut Nodes,
    epoch: Epoch,
    proxy: u8,
    from: NodeId,
    tell: Tell,
    taken: Option<Version>,
) -> Result<Answer, NotEnabled>
    requires kept { IsKept nodes.old }
    ensures turn { Steps (state_of nodes.old) (state_of nodes.new) (event.Hear (node.Proxy epoch proxy) from tell taken) result }
    ensures refused { Refuses (state_of nodes.old) (event.Hear (node.Proxy epoch proxy) from tell taken) result }
    ensures err { OnErr result (state_of nodes.new ≡ state_of nodes.old) }
    ensures stays { IsKept nodes.new }
{
    step_law();
    let by = NodeId::Proxy {
        epoch,
        number: proxy,
    };
    if let Some(why) = why_not_up(nodes, &by) {
        return Err(why);
    }
    let told = nodes.turns.was_told(&from, &by, &tell);
    // A proxy has no store, so its hear cannot break off.
    if !told || taken.is_some() {
        return Err(NotEnabled::NeverSent);
    }
    let outcome = nodes.tell_proxy(alloc, epoch, proxy, from, tell)?;
    Ok(Answer::Heard(outcome))
}
