//! Which log a storage server asks in a turn.
ghost use Rattle.std.specs.Prelude.{◌≡◌, ◌<◌, ◌==◌, ◌%◌, find};
ghost use Rattle.fr_base.specs.declared.place.NodeId.{NodeId};
ghost use Rattle.fr_run.specs.Pulls.{holder};

use fr_base::{Epoch, NodeId, Tag};
use fr_state::Generation;

/// The generation of an epoch among these.
pub fn of_epoch(gens: &[Generation], epoch: Epoch) -> Option<Generation>
    ensures { result ≡ find (λ g. g.epoch == epoch) gens.now }
{
    gens.iter().copied().find(|g| g.epoch() == epoch)
}

/// The log of a generation that is asked for a tag's records in a turn: one of those that hold the tag, the next one
/// in each turn.
pub fn holder_at(generation: Generation, tag: Tag, turn: u32) -> NodeId
    ensures { result ≡ holder generation tag turn }
{
    let number = u64::from(tag.get()) + u64::from(turn % u32::from(generation.k()));
    NodeId::Log {
        epoch: generation.epoch(),
        index: (number % u64::from(generation.m())) as u8,
    }
}

/// The log of an epoch that is asked for its mark in a turn: the next one in each turn.
pub fn log_at(epoch: Epoch, logs: u8, turn: u32) -> NodeId
    requires some { 0 < logs }
    ensures { result ≡ NodeId.Log epoch (turn % logs) }
{
    NodeId::Log {
        epoch,
        index: (turn % u32::from(logs)) as u8,
    }
}
