//! A log that is read back: which asks change it, and its seed record by record.
ghost use Rattle.std.specs.Prelude.{◌≡◌, ◌&&◌, not, if◌then◌else◌, IfOk, OnErr};
ghost use Rattle.fr_log.specs.Seeding.{changes, is_empty, is_unpopped, takes_seeded, next_seeded, is_further, may_pop};
ghost use Rattle.fr_log.specs.Step.{with_popped};
ghost use Rattle.fr_log.specs.LogState.{holds};

use super::Log;
use crate::ask::LogAsk;
use crate::popped::{PoppedTag, popped_of};
use crate::records::SeedRecord;
use fr_base::{Memory, Tag, Version};

impl Log {
    /// Whether an ask would change it: a first seed, a push that it does not hold yet, a first lock, and a Pop
    /// that comes further do, if they are not refused. It takes no memory.
    pub fn is_changed_by(&self, ask: &LogAsk) -> bool
        ensures { result ≡ changes self.now ask.now }
    {
        match ask {
            LogAsk::Seed(seed) => self.seed_refusal(seed).is_none() && self.seed.is_none(),
            // A held push is granted and changes nothing (invariant 4), so a file must get no second record of it.
            LogAsk::Push(push) => self.push_refusal(push).is_none() && !self.is_push_held(push),
            LogAsk::Lock { epoch } => self.lock_refusal(*epoch).is_none() && !self.stopped,
            // Peek and MarkAsked are read only. A Pop that does not come further is too, so it is not written.
            _ => self.lets_go(ask),
        }
    }

    /// Takes one record more into its seed, as when a log is read back record by record. It is false, and
    /// nothing changes, if no seed has this record next. That is so without a seed; after the first push, a
    /// lock or a Pop; with a tag of another log; with a version outside of the seed's; and if the record does
    /// not come behind the last.
    pub fn take_seeded(&mut self, next: SeedRecord) -> Result<bool, Memory>
        ensures taken { IfOk result (λ taken. taken ≡ takes_seeded self.old next) }
        ensures after { IfOk result (λ _. self.new ≡ next_seeded self.old next) }
        ensures err { OnErr result (self.new ≡ self.old) }
    {
        // The records of a seed are written before anything else of the log. One that stands later was written by no
        // request, so the file is broken.
        if !self.is_seeding(next.tag) {
            return Ok(false);
        }
        match &mut self.seed {
            Some(seed) => seed.add(next),
            None => Ok(false),
        }
    }

    /// Pops a tag through a version, as when a log is read back record by record, and lets nothing go. It is false,
    /// and nothing changes, if no Pop brought it there. That is so without a seed, with a tag of another log, with
    /// a version that is not known to be committed, and with one that is not further than the tag was popped.
    pub fn take_popped(&mut self, next: PoppedTag) -> Result<bool, Memory>
        ensures taken { IfOk result (λ taken. taken ≡ may_pop self.old next.tag next.version) }
        ensures after { IfOk result (λ taken. self.new ≡ (if taken then with_popped self.old next.tag next.version else self.old)) }
        ensures err { OnErr result (self.new ≡ self.old) }
    {
        if !self.may_pop(next.tag, next.version) {
            return Ok(false);
        }
        self.raise(next.tag, next.version)?;
        Ok(true)
    }

    /// Whether a Pop may have brought a tag to this version.
    fn may_pop(&self, tag: Tag, version: Version) -> bool
        ensures { result ≡ may_pop self.now tag version }
    {
        // `version <= known` is invariant 6: a record of a Pop past it comes from no log.
        self.seed.is_some()
            && self.holds(tag)
            && version <= self.known
            && is_further(popped_of(self.popped.as_slice(), tag), version)
    }

    /// Whether nothing keeps it from taking one more record of a tag into its seed, if it has one.
    fn is_seeding(&self, tag: Tag) -> bool
        ensures { result ≡ (not self.now.stopped && (is_unpopped self.now.popped && (is_empty self.now.pushes && holds self.now tag))) }
    {
        !self.stopped
            && self.popped.as_slice().is_empty()
            && self.pushes.len() == 0
            && self.holds(tag)
    }
}

/// Whether a version is further than a tag is popped.
fn is_further(popped: Option<Version>, version: Version) -> bool
    ensures { result ≡ is_further popped version }
{
    match popped {
        Some(popped) => popped < version,
        // A first Pop through 0 changes something: a recovery counts a tag only if it was shown popped, be it through
        // 0.
        None => true,
    }
}
