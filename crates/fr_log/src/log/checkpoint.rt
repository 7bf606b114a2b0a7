//! Checkpoints of a log, and how it goes back to one.
ghost use Rattle.std.specs.Prelude.{◌≡◌, IfOk};
ghost use Rattle.fr_log.specs.LogState.{LogState};
ghost use Rattle.fr_log.specs.Chain.{IsLog};
ghost use Rattle.fr_log.specs.Checkpoint.{Extends, checkpoint_of};

use super::Log;
use crate::popped::PoppedTags;
use fr_base::{Memory, Version};
use std::marker::Model;

/// A checkpoint of a log: a few numbers, by which it goes back there, as long as it let nothing go.
/// Contracts see it as the record of them.
#[derive(Debug, Drop)]
pub struct Checkpoint {
    pushes: usize,
    durable: Version,
    known: Version,
    seeded: bool,
    stopped: bool,
    popped: PoppedTags,
}

impl Model for Checkpoint {
    ghost use Rattle.fr_log.specs.Checkpoint.{LogCheckpoint};

    ghost Value = { LogCheckpoint };

    ghost view = { λ p. record { pushes = p.pushes; durable = p.durable; known = p.known; seeded = p.seeded; stopped = p.stopped; popped = p.popped } };
}

impl Log {
    /// A checkpoint of its state. With `place_law` it is one that `go_back` takes, and its caller proves nothing.
    pub fn place(&self) -> Result<Checkpoint, Memory>
        ensures value { IfOk result (λ place. place ≡ checkpoint_of self.now) }
        ensures sound { IsLog self.now }
    {
        Ok(Checkpoint {
            // A number is enough, since a push that is held never changes until `settle` (invariant 8).
            pushes: self.pushes.len(),
            durable: self.durable,
            known: self.known,
            seeded: self.seeded(),
            stopped: self.stopped,
            popped: self.popped.clone()?,
        })
    }

    /// Goes back to its state before some asks that were kept: those pushes go that it did not hold then. A
    /// log whose records could not be appended goes back so. It takes no memory.
    pub fn go_back(&mut self, place: Checkpoint)
        requires { (l : LogState) × IsLog l × (place ≡ checkpoint_of l) × Extends l self.old }
        ensures { (l : LogState) → place ≡ checkpoint_of l → Extends l self.old → self.new ≡ l }
    {
        // Invariant 1: pushes only come behind others, so those held at the checkpoint are the first of today's.
        self.pushes.truncate(place.pushes);
        // A log never takes a second seed. So a seed that stood at the checkpoint is still this one.
        if !place.seeded {
            self.seed = None;
        }
        self.stopped = place.stopped;
        // Invariant 10. The numbers are part of the checkpoint, so that going back costs no walk over the pushes.
        self.durable = place.durable;
        self.known = place.known;
        self.popped = place.popped;
    }
}
