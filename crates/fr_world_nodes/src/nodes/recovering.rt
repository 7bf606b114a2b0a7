//! Recoverers begin, and are told.
ghost use Rattle.std.specs.Prelude.{◌≡◌, IfSome, IsSome, OnErr, OnOk};
ghost use Rattle.fr_epoch.specs.Asks.{new_asks, pending};
ghost use Rattle.fr_epoch.specs.Recoverer.{new_recoverer};
ghost use Rattle.fr_run.specs.Nodes.{rec_at};
ghost use Rattle.fr_run.specs.Run.{IsTurn};
ghost use Rattle.fr_run.specs.Turn as history;
ghost use Rattle.fr_world_nodes.specs.Kept.{state_of, with_turn, IsKept};

use super::Nodes;
use crate::recoverers::{keep_recoverer, tell_recoverer};
use fr_ask::Tell;
use fr_base::{Ballot, Memory, NodeId, Shape};
use fr_epoch::Recoverer;
use fr_run::laws::node_laws;
use fr_world_turns::Turn;
use std::alloc::Global;

impl Nodes {
    /// A recoverer begins, with a ballot that none had. Its first asks are those pending.
    pub fn begin(
        &mut self,
        alloc: Global,
        ballot: Ballot,
        shape: &Option<Shape>,
    ) -> Result<(), Memory>
        requires kept { IsKept self.old }
        requires turn { IsTurn (state_of self.old).config (state_of self.old).turns
            (history.Begun ballot shape.now
            (pending (new_recoverer ballot (state_of self.old).config.cells (state_of self.old).config.begins shape.now))) }
        ensures world { OnOk result (state_of self.new
            ≡ with_turn (state_of self.old)
            (history.Begun ballot shape.now
            (pending (new_recoverer ballot (state_of self.old).config.cells (state_of self.old).config.begins shape.now)))) }
        ensures err { OnErr result (state_of self.new ≡ state_of self.old) }
        ensures stays { IsKept self.new }
    {
        node_laws();
        self.turns.reserve()?;
        let map = self.config.map().copy()?;
        let recoverer = Recoverer::begin(alloc, ballot, self.config.coordinators(), map, *shape);
        let asks = recoverer.pending(alloc)?;
        keep_recoverer(&mut self.recoverers, ballot, recoverer)?;
        self.turns.push_reserved(Turn::Begun {
            ballot,
            shape: *shape,
            asks,
        });
        Ok(())
    }

    /// A recoverer hears a tell.
    pub fn tell_recoverer(
        &mut self,
        alloc: Global,
        ballot: Ballot,
        from: NodeId,
        tell: Tell,
    ) -> Result<(), Memory>
        requires kept { IsKept self.old }
        requires there { IsSome (rec_at (state_of self.old).config (state_of self.old).turns ballot) }
        requires turn { IfSome (rec_at (state_of self.old).config (state_of self.old).turns ballot)
            (λ r. IsTurn (state_of self.old).config (state_of self.old).turns
            (history.RecHeard ballot from tell (new_asks r from tell))) }
        ensures world { OnOk result (IfSome (rec_at (state_of self.old).config (state_of self.old).turns ballot)
            (λ r. state_of self.new
            ≡ with_turn (state_of self.old) (history.RecHeard ballot from tell (new_asks r from tell)))) }
        ensures err { OnErr result (state_of self.new ≡ state_of self.old) }
        ensures stays { IsKept self.new }
    {
        node_laws();
        self.turns.reserve()?;
        let asks = tell_recoverer(alloc, &mut self.recoverers, ballot, from, tell.copy()?)?;
        self.turns.push_reserved(Turn::Recoverer {
            ballot,
            from,
            tell,
            asks,
        });
        Ok(())
    }
}
