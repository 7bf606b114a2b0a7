//! Storage servers are told.
ghost use Rattle.std.specs.Prelude.{◌≡◌, true, IfOk, None, OnErr, OnOk, Some};
ghost use Rattle.fr_base.specs.declared.place.NodeId.TheVariants as node;
ghost use Rattle.fr_run.specs.Step.{may_break};
ghost use Rattle.fr_run.specs.Nodes as nodes;
ghost use Rattle.fr_run.specs.Run.{fault_of, IsHeardBy, IsTurn};
ghost use Rattle.fr_run.specs.Turn as history;
ghost use Rattle.fr_world_nodes.specs.Kept.{state_of, with_turn, IsKept};

use super::Nodes;
use crate::storages::{break_server, may_break, tell_server};
use fr_ask::Tell;
use fr_base::{Memory, NodeId, Tag, Version};
use fr_run::laws::node_laws;
use fr_storage::StorageFault;
use fr_world_turns::Turn;
use std::alloc::Global;

impl Nodes {
    /// A tell comes to a storage server; answers why it refuses that. Out of memory nodes that are kept are as they
    /// were; others are given up.
    pub fn tell_storage(
        &mut self,
        alloc: Global,
        keeps: bool,
        tag: Tag,
        from: NodeId,
        tell: Tell,
    ) -> Result<Option<StorageFault>, Memory>
        requires kept { IsKept self.old }
        requires turn { IsTurn (state_of self.old).config (state_of self.old).turns
            (history.StorageHeard tag from tell None
            (fault_of (nodes.storage_at (state_of self.old).config (state_of self.old).turns tag) from tell)) }
        ensures fault { IfOk result (λ fault. fault ≡ fault_of (nodes.storage_at (state_of self.old).config (state_of self.old).turns tag) from tell) }
        ensures world { OnOk result (state_of self.new
            ≡ with_turn (state_of self.old) (history.StorageHeard tag from tell None
            (fault_of (nodes.storage_at (state_of self.old).config (state_of self.old).turns tag) from tell))) }
        ensures err { OnErr result (state_of self.new ≡ state_of self.old) }
        ensures stays { OnOk result (IsKept self.new) }
        ensures keeps { keeps ≡ true → IsKept self.new }
    {
        node_laws();
        self.turns.reserve()?;
        let number = usize::from(tag.get());
        let fault = tell_server(alloc, keeps, &mut self.storages[number], &from, &tell)?;
        self.turns.push_reserved(Turn::Storage {
            tag,
            from,
            tell,
            taken: None,
            fault,
        });
        Ok(fault)
    }

    /// Whether a storage server's hear of a tell that came to it can break off at a version.
    pub fn may_break(&self, tag: Tag, from: &NodeId, tell: &Tell, version: Version) -> bool
        requires kept { IsKept self.now }
        requires heard { IsHeardBy (state_of self.now).config (state_of self.now).turns (node.Storage tag) from.now tell.now }
        ensures { result ≡ may_break (nodes.storage_at (state_of self.now).config (state_of self.now).turns tag) from.now tell.now version }
    {
        let number = usize::from(tag.get());
        may_break(&self.storages[number], from, tell, version)
    }

    /// As [`Nodes::tell_storage`], of a server that breaks off its hear at a version at which it can.
    pub fn break_storage(
        &mut self,
        alloc: Global,
        keeps: bool,
        tag: Tag,
        from: NodeId,
        tell: Tell,
        version: Version,
    ) -> Result<(), Memory>
        requires kept { IsKept self.old }
        requires heard { IsHeardBy (state_of self.old).config (state_of self.old).turns (node.Storage tag) from tell }
        requires breaks { may_break (nodes.storage_at (state_of self.old).config (state_of self.old).turns tag) from tell version ≡ true }
        ensures world { OnOk result (state_of self.new
            ≡ with_turn (state_of self.old) (history.StorageHeard tag from tell (Some version)
            (fault_of (nodes.storage_at (state_of self.old).config (state_of self.old).turns tag) from tell))) }
        ensures err { OnErr result (state_of self.new ≡ state_of self.old) }
        ensures stays { OnOk result (IsKept self.new) }
        ensures keeps { keeps ≡ true → IsKept self.new }
    {
        node_laws();
        self.turns.reserve()?;
        let number = usize::from(tag.get());
        let server = &mut self.storages[number];
        break_server(alloc, keeps, server, &from, &tell, version)?;
        self.turns.push_reserved(Turn::Storage {
            tag,
            from,
            tell,
            taken: Some(version),
            fault: None,
        });
        Ok(())
    }
}
