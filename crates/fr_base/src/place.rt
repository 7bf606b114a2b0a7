//! Names of shards and of nodes.
ghost use Rattle.std.specs.Prelude.{◌≡◌, ◌<◌, ◌↔◌, IsSome, IfSome, IsTrue};
ghost use Rattle.fr_base.specs.Node.{node_cmp, is_same_node, log_cmp, is_same_log};

use crate::ballot::{Ballot, Epoch};
use std::cmp::Ordering;
use std::marker::Model;

/// The number of a shard and of its one storage server, below 32.
#[derive(Clone, Copy, Debug, PartialEq, Eq, PartialOrd, Ord)]
pub struct Tag {
    number: u8,
}

impl Model for Tag {
    ghost use Rattle.std.specs.Prelude.{ℕ, ◌<◌};

    ghost Value = { ℕ };

    ghost view = { λ t. t.number };

    ghost invariant = { λ t. t.number < 32 };

    ghost inverse = { λ n. record { number = n } };
}

impl Tag {
    /// The tag of this number, if it is below 32.
    pub fn new(number: u8) -> Option<Self>
        ensures within { IsSome result ↔ (number < 32) }
        ensures value { IfSome result (λ t. t ≡ number) }
    {
        if number < 32 {
            Some(Tag { number })
        } else {
            None
        }
    }

    /// The number of the tag.
    pub fn get(self) -> u8
        ensures value { result ≡ self }
        ensures within { result < 32 }
    {
        self.number
    }
}

/// A log: its generation, and its number there, from 0 up to how many the generation has.
#[derive(Clone, Copy, Debug, PartialEq, Eq, PartialOrd, Ord)]
pub struct LogId {
    pub epoch: Epoch,
    pub index: u8,
}

impl LogId {
    /// The order of two logs: by their generations, and in a generation by their indexes.
    pub fn order(self, other: LogId) -> Ordering
        ensures { result ≡ log_cmp self other }
    {
        self.cmp(&other)
    }

    /// Whether two logs are one.
    pub fn is_same(self, other: LogId) -> bool
        ensures { result ≡ is_same_log self other }
    {
        self == other
    }
}

/// A node of the system. Nodes are ordered by the variants, and then by the fields.
#[derive(Clone, Copy, Debug, PartialEq, Eq, PartialOrd, Ord)]
pub enum NodeId {
    /// A coordinator, by its number.
    Cell { index: u8 },
    /// A log, by its generation and its number there.
    Log { epoch: Epoch, index: u8 },
    /// The sequencer of a generation.
    Sequencer { epoch: Epoch },
    /// A proxy, by its generation and its number there.
    Proxy { epoch: Epoch, number: u8 },
    /// The recoverer of a ballot.
    Recoverer { ballot: Ballot },
    /// The storage server of a tag.
    Storage { tag: Tag },
}

impl NodeId {
    /// The order of two nodes: cells, logs, sequencers, proxies, recoverers and storage servers, and nodes
    /// of a kind by their fields.
    pub fn order(self, other: NodeId) -> Ordering
        ensures { result ≡ node_cmp self other }
    {
        self.cmp(&other)
    }

    /// Whether two nodes are one.
    pub fn is_same(self, other: NodeId) -> bool
        ensures { result ≡ is_same_node self other }
    {
        self == other
    }
}
