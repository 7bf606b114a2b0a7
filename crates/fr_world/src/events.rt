//! Events: each is the turn of one node, or is refused.
ghost use Rattle.std.specs.Prelude.{◌≡◌, Some};
ghost use Rattle.fr_world.specs.Stepping.{why_not_up};
ghost use Rattle.fr_world_nodes.specs.Kept.{state_of, IsKept};

pub mod ballots;
pub mod delivered;
pub mod leaving;
pub mod proxies;
pub mod served;

use fr_base::NodeId;
use fr_run::NotEnabled;
use fr_world_nodes::Nodes;

/// Why a node has no turn: it is not there, or it is gone.
pub(crate) fn why_not_up(nodes: &Nodes, node: &NodeId) -> Option<NotEnabled>
    requires { IsKept nodes.now }
    ensures { result ≡ why_not_up (state_of nodes.now) node.now }
{
    // Both are read before either is judged, since a refusal has one order: not there, then gone (invariant 3).
    let there = nodes.is_there(*node);
    let gone = nodes.is_gone(*node);
    if !there {
        Some(NotEnabled::NoSuchNode)
    } else if gone {
        Some(NotEnabled::Gone)
    } else {
        None
    }
}
