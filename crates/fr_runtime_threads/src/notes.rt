//! The journal of a node that one thread owns.
ghost use Rattle.std.specs.Prelude.{◌≡◌, ◌≤◌, max, ◌<◌, ◌+◌, ◌^◌, ◌++◌, ◌∷◌, [], Some, IfOk, IfSome, IsSome, None, Ok};
ghost use Rattle.fr_audit_journal.specs.Journal.{IsAbove};
ghost use Rattle.fr_audit_journal.specs.Housing.{last_number};
ghost use Rattle.fr_runtime_threads.specs.Begins.{StartsWithBegun};

use fr_ask::Last;
use fr_audit_journal::{Act, Entry, Journal};
use fr_base::{Memory, NodeId, Shape, Stamp};
use fr_runtime_station::first_stamp;
use std::alloc::Global;

/// The journal of a node that one thread owns, and the greatest stamp that the thread has seen.
#[derive(Drop)]
pub(crate) struct Notes {
    journal: Journal,
    seen: Stamp,
    ghost within: { last_number journal.entries ≤ seen },
}

impl Notes {
    /// An empty journal, of a thread that has seen this stamp.
    pub(crate) fn new(alloc: Global, place: NodeId, seen: Stamp) -> Self
        ensures place { result.journal.node ≡ place }
        ensures entries { result.journal.entries ≡ [] }
        ensures seen { result.seen ≡ seen }
    {
        Notes {
            journal: Journal::new(alloc, place),
            seen,
        }
    }

    /// The journal of a recoverer that begins, to open a generation of this shape.
    pub(crate) fn begun(alloc: Global, place: NodeId, shape: Option<Shape>) -> Result<Self, Memory>
        ensures place { IfOk result (λ notes. notes.journal.node ≡ place) }
        ensures begun { IfOk result (λ notes. StartsWithBegun shape notes.journal.entries) }
    {
        let mut notes = Notes::new(alloc, place, first_stamp());
        // The first stamp after 0, which no journal has spent yet.
        let Some(stamp) = notes.next()? else {
            unreachable!();
        };
        notes.enter(stamp, Act::Begun { shape });
        Ok(notes)
    }

    pub(crate) fn place(&self) -> NodeId
        ensures { result ≡ self.now.journal.node }
    {
        self.journal.node()
    }

    pub(crate) fn seen(&self) -> Stamp
        ensures { result ≡ self.now.seen }
    {
        self.seen
    }

    /// Raised, never lowered: stamps of replies come in any order.
    pub(crate) fn see(&mut self, stamp: Stamp)
        ensures journal { self.new.journal ≡ self.old.journal }
        ensures seen { self.new.seen ≡ max self.old.seen stamp }
    {
        self.seen = self.seen.max(stamp);
    }

    /// The stamp of the next entry, for which there is room from then on. None if the stamps are spent.
    pub(crate) fn next(&mut self) -> Result<Option<Stamp>, Memory>
        ensures place { self.new.journal.node ≡ self.old.journal.node }
        ensures entries { self.new.journal.entries ≡ self.old.journal.entries }
        ensures there { self.old.seen + 1 < 2 ^ 40 → IfOk result IsSome }
        ensures room { IfOk result (λ next. IfSome next (λ stamp. 1 ≤ self.new.journal.room)) }
        ensures above { IfOk result (λ next. IfSome next (λ stamp. IsAbove self.new.journal.entries stamp)) }
        ensures seen { self.new.seen ≡ self.old.seen }
        ensures later { IfOk result (λ next. IfSome next (λ stamp. self.old.seen < stamp)) }
        ensures spent { (result ≡ Ok None) → 2 ^ 40 ≤ self.old.seen + 1 }
    {
        // One above what the thread has seen, be it an entry of its own or a reply (invariant 1).
        match Stamp::new(self.seen.get() + 1) {
            Some(next) => {
                // Taken with the stamp: who has a stamp can enter, whatever happens in between (invariant 2).
                self.journal.reserve()?;
                Ok(Some(next))
            }
            None => Ok(None),
        }
    }

    /// Enters an act at this stamp. It takes no memory.
    pub(crate) fn enter(&mut self, stamp: Stamp, act: Act)
        requires room { 1 ≤ self.old.journal.room }
        requires above { IsAbove self.old.journal.entries stamp }
        ensures place { self.new.journal.node ≡ self.old.journal.node }
        ensures entries { self.new.journal.entries ≡ self.old.journal.entries ++ record { stamp = stamp; act = act } ∷ [] }
    {
        self.journal.push_reserved(Entry { stamp, act });
        // The entry's own stamp is seen too, so the next one is above it (invariant 1).
        self.seen = stamp;
    }

    pub(crate) fn close(self, last: Last) -> Journal
        ensures place { result.node ≡ self.journal.node }
        ensures entries { result.entries ≡ self.journal.entries }
        ensures last { result.last ≡ Some last }
    {
        let Notes { journal, seen: _ } = self;
        let mut journal = journal;
        journal.close(last);
        journal
    }
}
