//! Makes the turns of proxies.
ghost use Rattle.std.specs.Prelude.{◌≡◌, ◌<◌, ◌∷◌, [], IfOk};
ghost use Rattle.std.specs.Vec.{vec_len, vec_capacity};
ghost use Rattle.fr_base.specs.declared.place.NodeId.TheVariants as node;
ghost use Rattle.fr_run.specs.Turn as history;
ghost use Rattle.fr_world_turns.specs.Turns.{turn_of};

use fr_ask::{Ask, Tell};
use fr_base::{Epoch, Memory, NodeId, Step};
use fr_mutation::Batch;
use fr_proxy::Outcome;
use fr_world_turns::Turn;
use std::alloc::Global;

/// An equal node, to be named twice.
pub fn again(node: &NodeId) -> NodeId
    ensures { result ≡ node.now }
{
    *node
}

/// The turn in which a proxy heard a tell.
pub fn heard(
    epoch: Epoch,
    proxy: u8,
    from: NodeId,
    tell: Tell,
    outcome: &Outcome,
    asks: Vec<(NodeId, Ask)>,
) -> Turn
    ensures { turn_of result ≡ history.ProxyHeard epoch proxy from tell outcome.now asks.items }
{
    Turn::Proxy {
        epoch,
        proxy,
        from,
        tell,
        outcome: *outcome,
        asks,
    }
}

/// A list with room for one ask.
pub fn room(alloc: Global) -> Result<Vec<(NodeId, Ask)>, Memory>
    ensures empty { IfOk result (λ asks. asks.items ≡ []) }
    ensures room { IfOk result (λ asks. vec_len asks < vec_capacity asks) }
{
    Ok(Vec::with_capacity(alloc, 1)?)
}

/// The turn in which a proxy took a batch and asked its sequencer.
pub fn taken(
    epoch: Epoch,
    proxy: u8,
    step: Step,
    batch: Batch,
    ask: Ask,
    asks: Vec<(NodeId, Ask)>,
) -> Turn
    requires empty { asks.items ≡ [] }
    requires room { vec_len asks < vec_capacity asks }
    ensures { turn_of result ≡ history.Submitted epoch proxy step batch ((node.Sequencer epoch, ask) ∷ []) }
{
    let mut asks = asks;
    asks.push_reserved((NodeId::Sequencer { epoch }, ask));
    Turn::Submitted {
        epoch,
        proxy,
        step,
        batch,
        asks,
    }
}
