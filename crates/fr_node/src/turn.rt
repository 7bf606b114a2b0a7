//! What a node is to do in one turn.
ghost use Rattle.std.specs.Prelude.{◌≡◌};
ghost use Rattle.fr_node.specs.Kinds.{kind_of};

use fr_ask::{Ask, Tell};
use fr_base::{Epoch, NodeId, Step, Version};
use fr_mutation::Batch;

/// What a node is to do in one turn.
#[derive(Debug, Drop)]
pub enum NodeTurn {
    /// A node asks it this.
    Ask { from: NodeId, ask: Ask },
    /// It hears what a node told it.
    Hear { from: NodeId, tell: Tell },
    /// It takes a batch, whose version is to be this step above the last one given.
    Submit { step: Step, batch: Batch },
    /// It begins.
    Begin,
}

impl NodeTurn {
    /// Its kind.
    pub fn kind(&self) -> Kind
        ensures { result ≡ kind_of self.now }
    {
        match self {
            NodeTurn::Ask { .. } => Kind::Ask,
            NodeTurn::Hear { .. } => Kind::Hear,
            NodeTurn::Submit { .. } => Kind::Submit,
            NodeTurn::Begin => Kind::Begin,
        }
    }
}

/// The kinds of turns.
#[derive(Clone, Copy, Debug, PartialEq, Eq)]
pub enum Kind {
    Ask,
    Hear,
    Submit,
    Begin,
}

/// The newest epoch whose logs a storage server may ask, and how many logs it has.
#[derive(Clone, Copy, Debug, PartialEq, Eq)]
pub struct Newest {
    pub epoch: Epoch,
    pub logs: u8,
}

/// A round of asks: its number, and the newest epoch whose logs may be asked for their mark, if one is known.
#[derive(Clone, Copy, Debug, PartialEq, Eq)]
pub struct Round {
    pub turn: u32,
    pub newest: Option<Newest>,
}

/// A hear that was under way when the process of a storage server ended: who told what, and the version applied before
/// it.
#[derive(Debug, Drop)]
pub struct Hearing {
    pub from: NodeId,
    pub tell: Tell,
    pub version: Version,
}
