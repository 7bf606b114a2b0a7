//! Two files in turn as one file of groups.
ghost use Rattle.std.specs.Prelude.{◌≡◌};

use super::{Segments, limited};
use crate::first::Turn;
use crate::group_file::{GroupFile, Sizes};
use crate::health::Health;
use fr_base::Bytes;
use fr_record::{Device, RecordFault};
use std::alloc::Global;
use std::snapshot::Snapshot;

impl<D: Device> GroupFile for Segments<D> {
    ghost use Rattle.std.specs.Prelude.{◌+◌, ◌-◌, ◌^◌, min, length};
    ghost use Rattle.fr_segment.specs.File.{groups_from};
    ghost use Rattle.fr_segment.specs.Health.{has_failed, owed_by};
    ghost use Rattle.fr_segment.specs.PairLaws.{way_weaker, way_joined, way_ends};
    ghost use Rattle.fr_segment.specs.Turns.{own_records};
    ghost use Rattle.fr_segment.specs.Way.{IsWay};

    ghost records = { λ s. own_records s.groups };

    ghost is_failed = { λ s. has_failed s.health };

    ghost owed = { λ s. owed_by (own_records s.groups) s.health };

    ghost failures = { λ s. min (D.failures_of s.current + D.failures_of s.other) (2 ^ 64 - 1) };

    ghost room = { λ s. min (D.capacity_of s.current) (2 ^ 32 - 1) };

    ghost used = { λ s. length (groups_from 0 s.groups) };

    ghost next_room = { λ s. min (D.capacity_of s.other) (2 ^ 32 - 1) };

    ghost front = { λ s. length s.identity + 19 };

    ghost Throughout = { λ P f g. IsWay D.Led D.disk P f g };

    ghost weaker = { λ P Q f g weakens way. way_weaker D.Led D.disk P Q f g weakens way };

    ghost joined = { λ P f g h one two. way_joined D.Led D.disk P f g h one two };

    ghost ends = { λ P f g way. way_ends D.Led D.disk P f g way };

    fn len(&self) -> usize {
        // The header is the first record of the file. It is none of the caller's, so it does not count.
        self.current.len() - 1
    }

    fn is_failed(&self) -> bool {
        self.health.has_failed()
    }

    fn sizes(&self) -> Sizes {
        Sizes {
            used: self.current.used(),
            room: limited(self.current.capacity()),
            next_room: limited(self.other.capacity()),
            front: self.front(),
        }
    }

    fn get(&mut self, alloc: Global, i: usize) -> Result<Option<Bytes>, RecordFault> {
        if self.health.has_failed() {
            return Err(RecordFault::Failed);
        }
        // Tested here, because the number below is one greater: the header stands before all records.
        if i >= self.current.len() - 1 {
            return Ok(None);
        }
        match self.current.get(alloc, i + 1) {
            Ok(found) => Ok(found),
            Err(RecordFault::Device) => {
                self.health = Health::Failed;
                Err(RecordFault::Device)
            }
            Err(RecordFault::Memory) => Err(RecordFault::Memory),
            Err(RecordFault::Full) => unreachable!(),
            Err(RecordFault::Failed) => unreachable!(),
            Err(RecordFault::Broken) => unreachable!(),
        }
    }

    fn append_group(
        &mut self,
        alloc: Global,
        group: &[Vec<u8>],
        spare: usize,
    ) -> Result<(), RecordFault> {
        if self.health.has_failed() {
            return Err(RecordFault::Failed);
        }
        // Before the device is called: an empty group takes no number.
        if group.is_empty() {
            return Ok(());
        }
        if !self.has_room(group, spare) {
            return Err(RecordFault::Full);
        }
        let new = self.current.spelled(alloc, group)?;
        match self.current.put_group(group, &new) {
            Ok(()) => Ok(()),
            Err(RecordFault::Device) => {
                // What was in flight is kept for the proof alone: a crash may leave a part of it behind the gate, and
                // opening must tell that from a replacement (invariant 16).
                self.health = Health::Appending(Snapshot::of(&new));
                Err(RecordFault::Device)
            }
            Err(RecordFault::Memory) => Err(RecordFault::Memory),
            Err(RecordFault::Full) => unreachable!(),
            Err(RecordFault::Failed) => unreachable!(),
            Err(RecordFault::Broken) => unreachable!(),
        }
    }

    fn replace(&mut self, alloc: Global, group: &[Vec<u8>]) -> Result<(), RecordFault> {
        if self.health.has_failed() {
            return Err(RecordFault::Failed);
        }
        // Before the other device is called: its file must stay whole until the new one is begun (invariant 14).
        if !self.has_next_room(group) {
            return Err(RecordFault::Full);
        }
        let next = match self.next(alloc, group) {
            Ok(next) => next,
            Err(_) => return Err(RecordFault::Memory),
        };
        match self
            .current
            .turn(alloc, &mut self.other, &next.header, group, &next.new)
        {
            Ok(()) => {
                // Only now, since until the group was synced a crash left the file before it (invariant 13).
                self.number = next.number;
                Ok(())
            }
            Err(RecordFault::Device) => {
                self.health = Health::Replacing(Snapshot::of(&next.new));
                Err(RecordFault::Device)
            }
            Err(RecordFault::Memory) => Err(RecordFault::Memory),
            Err(RecordFault::Full) => unreachable!(),
            Err(RecordFault::Failed) => unreachable!(),
            Err(RecordFault::Broken) => unreachable!(),
        }
    }

    fn reopen(&mut self, alloc: Global) -> Result<(), RecordFault> {
        let turn = match self.turn(alloc) {
            Ok(turn) => turn,
            Err(fault) => return Err(fault),
        };
        match turn {
            Turn::Former(_) => self.reopen_current(alloc),
            Turn::Latter(number) => self.reopen_other(alloc, number),
        }
    }
}
