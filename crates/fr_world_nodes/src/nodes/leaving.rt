//! Nodes crash, or are lost.
ghost use Rattle.std.specs.Prelude.{◌≡◌, OnErr, OnOk};
ghost use Rattle.fr_run.specs.Run.{IsTurn};
ghost use Rattle.fr_run.specs.Turn as history;
ghost use Rattle.fr_world_nodes.specs.Kept.{state_of, with_turn, IsKept};

use super::Nodes;
use fr_base::{Memory, NodeId};
use fr_run::laws::node_laws;
use fr_world_turns::Turn;

impl Nodes {
    /// A sequencer, proxy or recoverer crashes, or a log is lost.
    pub fn leave(&mut self, node: NodeId) -> Result<(), Memory>
        requires kept { IsKept self.old }
        requires turn { IsTurn (state_of self.old).config (state_of self.old).turns (history.Gone node) }
        ensures world { OnOk result (state_of self.new ≡ with_turn (state_of self.old) (history.Gone node)) }
        ensures err { OnErr result (state_of self.new ≡ state_of self.old) }
        ensures stays { IsKept self.new }
    {
        node_laws();
        self.turns.reserve()?;
        self.turns.push_reserved(Turn::Gone { node });
        Ok(())
    }

    /// Another node crashes, and is as it was.
    pub fn crash(&mut self, node: NodeId) -> Result<(), Memory>
        requires kept { IsKept self.old }
        requires turn { IsTurn (state_of self.old).config (state_of self.old).turns (history.Crashed node) }
        ensures world { OnOk result (state_of self.new ≡ with_turn (state_of self.old) (history.Crashed node)) }
        ensures err { OnErr result (state_of self.new ≡ state_of self.old) }
        ensures stays { IsKept self.new }
    {
        node_laws();
        self.turns.reserve()?;
        self.turns.push_reserved(Turn::Crashed { node });
        Ok(())
    }
}
