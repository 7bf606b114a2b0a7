//! What a node asks others.
ghost use Rattle.std.specs.Prelude.{◌≡◌, []};

use fr_ask::Ask;
use fr_base::NodeId;
use std::alloc::Global;
use std::marker::Model;

/// What a node asks others: each ask behind the node that is asked. Contracts see the list.
#[derive(Debug, Drop)]
pub struct Wants {
    asks: Vec<(NodeId, Ask)>,
}

impl Model for Wants {
    ghost use Rattle.std.specs.Prelude.{List};
    ghost use Rattle.fr_base.specs.declared.place.NodeId.{NodeId};
    ghost use Rattle.fr_ask.specs.declared.ask.Ask.{Ask};

    ghost Value = { List (NodeId × Ask) };

    ghost view = { λ w. w.asks.items };
}

impl Wants {
    /// No ask. It takes no memory.
    pub fn none(alloc: Global) -> Self
        ensures { result ≡ [] }
    {
        Wants {
            asks: Vec::new(alloc),
        }
    }

    /// The asks of a vector. It takes no memory.
    pub fn from_vec(asks: Vec<(NodeId, Ask)>) -> Self
        ensures { result ≡ asks.items }
    {
        Wants { asks }
    }

    /// The asks.
    pub fn as_slice(&self) -> &[(NodeId, Ask)]
        ensures { result.now ≡ self.now }
    {
        self.asks.as_slice()
    }
}
