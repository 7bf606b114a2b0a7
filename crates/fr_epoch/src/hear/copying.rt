//! What a recoverer hears while it copies.
ghost use Rattle.std.specs.Prelude.{◌≡◌, Some, false, true, IfOk, OnOk, OnErr};
ghost use Rattle.fr_base.specs.declared.place.NodeId.{NodeId};
ghost use Rattle.fr_log.specs.declared.ask.LogTell.{LogTell};
ghost use Rattle.fr_ask.specs.declared.tell.Tell.{Tell};
ghost use Rattle.fr_tail.specs.Tail.{is_complete, after_hear as after_peeked};
ghost use Rattle.fr_epoch.specs.Asks.{new_asks};
ghost use Rattle.fr_epoch.specs.Recoverer.{Plan};
ghost use Rattle.fr_epoch.specs.Hear.{after_hear, with_tail};
ghost use Rattle.fr_epoch.specs.Kept.{IsKept};
ghost use Rattle.fr_epoch.specs.Lists.{seed_ask, others};
ghost use Rattle.fr_epoch.specs.Standing.{state_of, plan_in};
ghost use Rattle.fr_epoch.specs.Steps.{seeds_one, seeds_last, going_asks};

use crate::asks::{peeks_from, seeds};
use crate::going::{completes, reached_with};
use crate::phase::Stage;
use crate::standing::{Draft, Standing};
use fr_ask::Ask;
use fr_base::{Epoch, Memory, NodeId};
use fr_log::Peeked;
use fr_tail::{Tail, TailFault};
use std::alloc::Global;

impl Standing {
    /// Hears what a log of the parent's last generation gave of a tag. If the answer completes the
    /// copy, a copy of that hears it first: the seeds are made from it before anything is changed.
    pub(super) fn hear_peeked(
        &mut self,
        alloc: Global,
        epoch: Epoch,
        index: u8,
        peeked: Peeked,
    ) -> Result<Vec<(NodeId, Ask)>, Memory>
        requires copying { self.old.stage ≡ Stage.Copying }
        requires sound { IsKept (state_of self.old) }
        ensures asks { IfOk result (λ asks. asks.items ≡ new_asks (state_of self.old) (NodeId.Log epoch index) (Tell.Log (LogTell.Peeked peeked))) }
        ensures state { OnOk result (state_of self.new ≡ after_hear (state_of self.old) (NodeId.Log epoch index) (Tell.Log (LogTell.Peeked peeked))) }
        ensures err { OnErr result (state_of self.new ≡ state_of self.old) }
    {
        let Some(found) = &self.parent else {
            return Ok(Vec::new(alloc));
        };
        let Some(draft) = &self.plan else {
            return Ok(Vec::new(alloc));
        };
        // Once complete, the copy stays as it is, since logs may be seeded from it already (invariant 5).
        if epoch != found.last.epoch() || draft.tail.complete() {
            return Ok(Vec::new(alloc));
        }
        if completes(&draft.tail, index, &peeked) {
            // The last answer is heard by a second tail: the seeds are made from the whole tail, and to make them can
            // fail (invariant 11).
            let mut tail = draft.tail.copy(alloc)?;
            take(&mut tail, index, peeked)?;
            let asks = seeds(
                alloc,
                self.epoch,
                draft.generation,
                &tail,
                self.seeded.as_slice(),
            )?;
            // Nothing can fail from here on (invariant 11).
            self.copy_with(tail);
            Ok(asks)
        } else {
            // Made before the copy moves on, for the same reason.
            let asks = going_asks(alloc, epoch, &draft.tail, index, &peeked)?;
            self.go_on(index, peeked)?;
            Ok(asks)
        }
    }

    fn go_on(&mut self, index: u8, peeked: Peeked) -> Result<(), Memory>
        ensures ok { OnOk result ((draft : Draft) → self.old.plan ≡ Some draft
            → state_of self.new ≡ with_tail (state_of self.old) (plan_in draft) index peeked) }
        ensures err { OnErr result (state_of self.new ≡ state_of self.old) }
    {
        if let Some(mut draft) = self.plan.take() {
            // The plan is put back before the result is looked at: an early return would lose it.
            let taken = take(&mut draft.tail, index, peeked);
            self.plan = Some(draft);
            taken
        } else {
            Ok(())
        }
    }

    fn copy_with(&mut self, tail: Tail)
        ensures { (draft : Draft) → self.old.plan ≡ Some draft → self.new ≡ record self.old { plan = Some (record draft { tail = tail }) } }
    {
        if let Some(draft) = self.plan.take() {
            self.plan = Some(Draft { tail, ..draft });
        }
    }

    /// Hears that a log is seeded: once all logs of the new generation are, the state is written.
    pub(super) fn hear_seeded(
        &mut self,
        alloc: Global,
        epoch: Epoch,
        index: u8,
    ) -> Result<Vec<(NodeId, Ask)>, Memory>
        requires copying { self.old.stage ≡ Stage.Copying }
        requires sound { IsKept (state_of self.old) }
        ensures asks { IfOk result (λ asks. asks.items ≡ new_asks (state_of self.old) (NodeId.Log epoch index) (Tell.Log LogTell.Seeded)) }
        ensures state { OnOk result (state_of self.new ≡ after_hear (state_of self.old) (NodeId.Log epoch index) (Tell.Log LogTell.Seeded)) }
        ensures err { OnErr result (state_of self.new ≡ state_of self.old) }
    {
        if !self.is_newly_seeded(epoch, index) {
            return Ok(Vec::new(alloc));
        }
        if self.is_last_seeded() {
            // Made while the phase is still Copying: if memory runs out here or at `push`, this Seeded is simply
            // heard again (invariant 11).
            let asks = self.writes_left(alloc)?;
            self.seeded.push(index)?;
            // Invariant 6: with this log all are seeded.
            self.stage = Stage::Writing;
            Ok(asks)
        } else {
            self.seeded.push(index)?;
            Ok(Vec::new(alloc))
        }
    }

    /// Whether this is one more log of the new generation, and the copy is complete.
    fn is_newly_seeded(&self, epoch: Epoch, index: u8) -> bool
        ensures { result ≡ seeds_one (state_of self.now) (state_of self.now).plan epoch index }
    {
        let Some(draft) = &self.plan else {
            return false;
        };
        // The sender's epoch is compared, because a Seeded names none, and logs of other epochs send it as well.
        let is_own = epoch == self.epoch && index < draft.generation.m();
        // A Seeded before the copy is complete answers no seed of this recoverer. A repeated one must not count twice
        // (invariant 6).
        is_own && draft.tail.complete() && !self.seeded.contains(&index)
    }

    /// Whether all logs of the new generation are seeded with one more.
    fn is_last_seeded(&self) -> bool
        ensures { result ≡ seeds_last (state_of self.now) (state_of self.now).plan }
    {
        match &self.plan {
            // All m logs and not k of them: a commit needs each of them from the first version on (invariant 6).
            Some(draft) => usize::from(draft.generation.m()) <= self.seeded.len() + 1,
            None => false,
        }
    }
}

/// A copy hears what the log of this number answered; `Memory` leaves it as it was.
fn take(tail: &mut Tail, index: u8, peeked: Peeked) -> Result<(), Memory>
    ensures ok { OnOk result (tail.new ≡ after_peeked tail.old index peeked.tag peeked) }
    ensures err { OnErr result (tail.new ≡ tail.old) }
{
    let tag = peeked.tag();
    match tail.hear(index, tag, peeked) {
        Ok(()) => Ok(()),
        Err(TailFault::Memory) => Err(Memory),
        // What the copy refuses is dropped as if it had not come: another holder, or a repeat, may still answer.
        Err(TailFault::NotResponder) => Ok(()),
        Err(TailFault::Hole) => Ok(()),
        Err(TailFault::ShortOfEnd) => Ok(()),
    }
}

/// The peeks that go on from an answer, which the copy has not heard yet.
fn going_asks(
    alloc: Global,
    epoch: Epoch,
    tail: &Tail,
    index: u8,
    peeked: &Peeked,
) -> Result<Vec<(NodeId, Ask)>, Memory>
    ensures { IfOk result (λ asks. asks.items ≡ going_asks epoch tail.now index peeked.now) }
{
    let tag = peeked.tag();
    let reached = reached_with(tail, index, peeked, tag);
    if tail.reached(tag) < reached {
        peeks_from(alloc, epoch, tail, tag, reached)
    } else {
        Ok(Vec::new(alloc))
    }
}
