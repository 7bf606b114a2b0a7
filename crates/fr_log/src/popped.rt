//! How far the records of tags are popped.
ghost use Rattle.std.specs.Prelude.{◌≡◌, ◌≤◌, [], length, filter, IfOk, OnOk, OnErr};
ghost use Rattle.std.specs.Cmp.{partial_equiv_from_equiv};
ghost use Rattle.fr_base.specs.Same.{IsSameness-equivalence};
ghost use Rattle.std.specs.Cmp.Lexicographic.{pointwise};
ghost use Rattle.fr_log.specs.Left.{popped_of, popped_at, raised, place_in, is_left, IsLeftAtFirst, is_same_popped, are_same_popped-IsSameness};
ghost use Rattle.fr_log.specs.Records.{is_same_seed_record};

use crate::records::SeedRecord;
use fr_base::{Memory, Tag, Version};
use std::alloc::{AllocError, Global};
use std::marker::Model;

/// Through which version the records of a tag are popped: every storage server of the tag has them for good, so
/// that a log has let them go.
#[derive(Clone, Copy, Debug, PartialEq, Eq)]
pub struct PoppedTag {
    pub tag: Tag,
    pub version: Version,
}

/// How far the tags of a log are popped, by rising tags. Contracts see the list.
#[derive(Debug, Drop)]
pub struct PoppedTags {
    entries: Vec<PoppedTag>,
}

impl Model for PoppedTags {
    ghost use Rattle.std.specs.Prelude.{List};
    ghost use Rattle.fr_log.specs.declared.popped.PoppedTag.{PoppedTag};

    ghost Value = { List PoppedTag };

    ghost view = { λ p. p.entries.items };
}

impl PoppedTags {
    /// No tag is popped. It takes no memory.
    pub fn new(alloc: Global) -> Self
        ensures { result ≡ [] }
    {
        PoppedTags {
            entries: Vec::new(alloc),
        }
    }

    /// These entries. It takes no memory.
    pub fn from_vec(entries: Vec<PoppedTag>) -> Self
        ensures { result ≡ entries.items }
    {
        PoppedTags { entries }
    }

    /// By rising tags; a tag that was never popped has no entry.
    pub fn as_slice(&self) -> &[PoppedTag]
        ensures { result.now ≡ self.now }
    {
        self.entries.as_slice()
    }

    /// An equal list, of at most 32 entries.
    pub fn copy(&self) -> Result<Self, Memory>
        ensures { IfOk result (λ copy. copy ≡ self.now) }
    {
        Ok(self.clone()?)
    }

    /// Pops a tag through a version. A tag's first time takes room for an entry.
    pub(crate) fn raise(&mut self, tag: Tag, version: Version) -> Result<(), Memory>
        ensures after { OnOk result (self.new ≡ raised self.old tag version) }
        ensures err { OnErr result (self.new ≡ self.old) }
    {
        let at = place_of(&self.entries, tag);
        if at < self.entries.len() && self.entries[at].tag == tag {
            // In place, so that a repeated Pop takes no memory.
            self.entries[at] = PoppedTag { tag, version };
            return Ok(());
        }
        // At its place in the order of tags: logs popped alike must compare equal, in whatever order the Pops came.
        self.entries.insert(at, PoppedTag { tag, version })?;
        Ok(())
    }
}

impl Clone for PoppedTags {
    ghost use Rattle.std.specs.Prelude.{◌≡◌};

    ghost is_clone = { λ popped copy. copy ≡ popped };

    fn clone(&self) -> Result<Self, AllocError> {
        Ok(PoppedTags {
            entries: self.entries.clone()?,
        })
    }
}

impl PartialEq for PoppedTags {
    ghost eq = { pointwise is_same_popped };

    ghost laws = { partial_equiv_from_equiv (IsSameness-equivalence are_same_popped-IsSameness) };

    fn eq(&self, other: &PoppedTags) -> bool {
        self.entries.as_slice() == other.entries.as_slice()
    }
}

impl Eq for PoppedTags {
    ghost laws = { IsSameness-equivalence are_same_popped-IsSameness };
}

/// The index of the first entry that is not of a lesser tag: the end if there is none. There are at most 32
/// tags.
fn place_of(entries: &[PoppedTag], tag: Tag) -> usize
    ensures place { result ≡ place_in entries.now tag }
    ensures within { result ≤ length entries.now }
{
    let mut at = 0;
    for entry in entries {
        if tag <= entry.tag {
            return at;
        }
        at += 1;
    }
    at
}

/// Through which version a tag is popped, if it was. There are at most 32 tags.
pub(crate) fn popped_of(popped: &[PoppedTag], tag: Tag) -> Option<Version>
    ensures { result ≡ popped_of popped.now tag }
{
    for entry in popped {
        if entry.tag == tag {
            return Some(entry.version);
        }
    }
    None
}

/// The same version, 0 if the tag was not popped.
pub(crate) fn popped_at(popped: &[PoppedTag], tag: Tag) -> Version
    ensures { result ≡ popped_at popped.now tag }
{
    popped_of(popped, tag).unwrap_or(Version::ZERO)
}

/// Whether a record of a seed is above the version through which its tag is popped.
pub(crate) fn is_left(popped: &[PoppedTag], seeded: &SeedRecord) -> bool
    ensures { result ≡ is_left popped.now seeded.now }
{
    // `<` and not `<=`: the popped version itself is durable on the storage server, and freed here.
    popped_at(popped, seeded.tag) < seeded.version
}

/// The records from the first one on that is left.
fn from_left<'a>(popped: &[PoppedTag], records: &'a [SeedRecord]) -> &'a [SeedRecord]
    ensures same { filter (is_left popped.now) result.now ≡ filter (is_left popped.now) records.now }
    ensures first { IsLeftAtFirst popped.now result.now }
{
    let mut rest = records;
    while let [first, others @ ..] = rest {
        if is_left(popped, first) {
            break;
        }
        rest = others;
    }
    rest
}

/// Whether two lists of records have the same ones left.
pub(crate) fn have_same_left(
    popped: &[PoppedTag],
    records: &[SeedRecord],
    others: &[SeedRecord],
) -> bool
    ensures { result ≡ pointwise is_same_seed_record (filter (is_left popped.now) records.now) (filter (is_left popped.now) others.now) }
{
    let mut left = from_left(popped, others);
    for record in records {
        // Only what is left counts on both sides, because the held seed may have been swept and the repeated one was
        // not (invariant 7).
        if is_left(popped, record) {
            match left {
                [other, rest @ ..] => {
                    if record != other {
                        return false;
                    }
                    left = from_left(popped, rest);
                }
                [] => return false,
            }
        }
    }
    left.is_empty()
}
