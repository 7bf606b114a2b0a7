//! Which asks a log refuses, and why.
ghost use Rattle.std.specs.Prelude.{◌≡◌};
ghost use Rattle.fr_log.specs.Refusal.{seed_refusal, push_refusal, new_push_refusal, lock_refusal, peek_refusal, mark_refusal, pop_refusal};

use super::Log;
use crate::ask::LogRefusal;
use crate::popped::popped_at;
use crate::push::Push;
use crate::seed::Seed;
use fr_base::{Epoch, Tag, Version};

impl Log {
    pub(super) fn seed_refusal(&self, seed: &Seed) -> Option<LogRefusal>
        ensures { result ≡ seed_refusal self.now seed.now }
    {
        if seed.epoch() != self.id.epoch {
            return Some(LogRefusal::WrongEpoch);
        }
        // Tested before SeedDiffers, because it depends on the request alone: the answer is the same before and after
        // the log has its seed.
        if !self.holds_seeded(seed.records()) {
            return Some(LogRefusal::NotMine);
        }
        // An equal seed is not refused, since a recoverer repeats it until it hears Seeded. Popped records do not
        // count, because the held seed may have freed them (invariant 7).
        match &self.seed {
            Some(held) if !held.is_left_as(seed, self.popped.as_slice()) => Some(
                LogRefusal::SeedDiffers,
            ),
            _ => None,
        }
    }

    pub(super) fn push_refusal(&self, push: &Push) -> Option<LogRefusal>
        ensures { result ≡ push_refusal self.now push.now }
    {
        if push.epoch() != self.id.epoch {
            return Some(LogRefusal::WrongEpoch);
        }
        if self.seed.is_none() {
            return Some(LogRefusal::Unseeded);
        }
        // Before Stopped: a proxy whose Held was lost repeats the push, and a lock in between must not hide that it
        // is held. The repeat raises nothing (invariant 4).
        if self.is_push_held(push) {
            return None;
        }
        self.new_push_refusal(push)
    }

    /// Why a push that is not held is not taken.
    fn new_push_refusal(&self, push: &Push) -> Option<LogRefusal>
        ensures { result ≡ new_push_refusal self.now push.now }
    {
        let is_mark = push.marked().is_some();
        let seeded_to = self.seeded_to();
        // Invariant 5. It comes before Stale and Gap, because a proxy ends at Stopped alone: at the others it would
        // repeat the push for ever.
        if self.stopped {
            Some(LogRefusal::Stopped)
        } else if push.prev() < self.durable || is_mark && push.prev() != seeded_to {
            // Invariant 1. `prev < durable` and not `<=`, since the next push of the chain has `prev == durable`. A
            // mark anywhere but at once behind the seed is stale as well (invariant 2).
            Some(LogRefusal::Stale)
        } else if push.prev() > self.durable {
            // Taking it would leave a hole below `durable` (invariant 1). The push may be repeated once those before
            // it are held.
            Some(LogRefusal::Gap {
                durable: self.durable,
            })
        } else if !self.holds_pushed(push.bodies()) {
            Some(LogRefusal::NotMine)
        } else if !is_mark && self.durable == seeded_to {
            // Invariant 2: versions rise above `seeded_to`, so `durable` is `seeded_to` only before the first push.
            Some(LogRefusal::NoMark)
        } else {
            None
        }
    }

    /// Why a lock is refused. Without a seed it is, so that a file's records can say that a log is stopped.
    pub(super) fn lock_refusal(&self, epoch: Epoch) -> Option<LogRefusal>
        ensures { result ≡ lock_refusal self.now epoch }
    {
        if epoch != self.id.epoch {
            Some(LogRefusal::WrongEpoch)
        } else if self.seed.is_none() {
            // Its `durable` would be 0, and a recovery that counted it would take over nothing.
            Some(LogRefusal::Unseeded)
        } else {
            None
        }
    }

    pub(super) fn peek_refusal(&self, epoch: Epoch, tag: Tag, after: Version) -> Option<LogRefusal>
        ensures { result ≡ peek_refusal self.now epoch tag after }
    {
        let first = self.first();
        if epoch != self.id.epoch {
            Some(LogRefusal::WrongEpoch)
        } else if self.seed.is_none() {
            Some(LogRefusal::Unseeded)
        } else if !self.holds(tag) {
            Some(LogRefusal::NotMine)
        } else if after.get() < first.get().saturating_sub(1) {
            // Versions below `first` are on the logs of the generation before. `first - 1` is allowed, because a peek
            // asks for what is above it. TooEarly comes before Removed, since it tells the caller that another source
            // has the records.
            Some(LogRefusal::TooEarly { first })
        } else {
            let through = popped_at(self.popped.as_slice(), tag);
            // `<` and not `<=`: the record at `through` was freed, and a peek after `through` does not ask for it.
            if after < through {
                Some(LogRefusal::Removed { through })
            } else {
                None
            }
        }
    }

    pub(super) fn pop_refusal(&self, epoch: Epoch, tag: Tag) -> Option<LogRefusal>
        ensures { result ≡ pop_refusal self.now epoch tag }
    {
        if epoch != self.id.epoch {
            Some(LogRefusal::WrongEpoch)
        } else if self.seed.is_none() {
            Some(LogRefusal::Unseeded)
        } else if !self.holds(tag) {
            Some(LogRefusal::NotMine)
        } else {
            None
        }
    }

    pub(super) fn mark_refusal(&self, epoch: Epoch) -> Option<LogRefusal>
        ensures { result ≡ mark_refusal self.now epoch }
    {
        if epoch != self.id.epoch {
            Some(LogRefusal::WrongEpoch)
        } else if self.seed.is_none() {
            Some(LogRefusal::Unseeded)
        } else if self.mark().is_none() {
            // The log learns the state of its epoch from the mark alone (invariant 2).
            Some(LogRefusal::NoMark)
        } else {
            None
        }
    }
}
