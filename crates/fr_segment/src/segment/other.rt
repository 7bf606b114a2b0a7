//! A file, and the device of another one beside it.
ghost use Rattle.std.specs.Prelude.{◌≡◌, ◌≢◌, ◌⊎◌, ◌+◌, ◌-◌, ◌^◌, ◌<◌, ◌≤◌, min, [], ◌∷◌, ◌++◌, List, ℕ, length, false, Ok, Err, IfErr, OnOk, OnErr};
ghost use Rattle.fr_record.specs.Disk.{MayLeave, IsDurable, Stands};
ghost use Rattle.fr_record.specs.Moments.{Throughout, LeavesOnly};
ghost use Rattle.fr_segment.specs.File.{Group, body, groups_from, AreShort, StandsFor, IsLeft, IsAtRest, behind, guard};
ghost use Rattle.fr_segment.specs.Group.{records_of};
ghost use Rattle.fr_segment.specs.Put.{IsRenewed};
ghost use Rattle.fr_segment.specs.Turns.{BeginsWith, HoldsNothing, IsForeign};

use super::Segment;
use crate::first::{First, read_first};
use crate::gate::renew;
use crate::open_fault::OpenFault;
use crate::place::Place;
use crate::read::read_file;
use crate::spell::add_places;
use fr_record::{Device, DeviceFault, RecordFault};
use std::alloc::Global;
use std::mem::swap;

impl<D: Device> Segment<D> {
    /// How many bytes the groups take.
    pub(crate) fn used(&self) -> usize
        ensures { result ≡ length (groups_from 0 self.now.groups) }
    {
        self.end
    }

    /// How many bytes the device can take.
    pub(crate) fn capacity(&self) -> usize
        ensures value { result ≡ D.capacity_of self.now.device }
        ensures used { length (groups_from 0 self.now.groups) < result }
    {
        self.device.capacity()
    }

    /// The beginning of the device, whether the file works or not.
    pub(crate) fn first(&mut self, alloc: Global, identity: &[u8]) -> Result<First, OpenFault>
        ensures missing { (result ≡ Ok First.Missing) → length (D.disk self.old.device).content < 2 }
        ensures closed { (result ≡ Ok First.Closed) → HoldsNothing (D.disk self.old.device).content }
        ensures file { (n : ℕ) → (result ≡ Ok (First.File n)) → BeginsWith n identity.now (D.disk self.old.device).content }
        ensures foreign { (result ≡ Err OpenFault.Broken) ⊎ (result ≡ Err OpenFault.Stranger) → IsForeign identity.now (D.disk self.old.device).content }
        ensures durable { OnOk result (IsDurable (D.disk self.new.device)) }
        ensures stands { Stands (D.disk self.old.device) (D.disk self.new.device) }
        ensures any_moment { Throughout D.Led D.disk (MayLeave (D.disk self.old.device)) self.old.device self.new.device }
        ensures groups { self.new.groups ≡ self.old.groups }
        ensures is_failed { self.new.is_failed ≡ self.old.is_failed }
        ensures capacity { D.capacity_of self.new.device ≡ D.capacity_of self.old.device }
        ensures never_unmade { result ≢ Err OpenFault.Unmade }
        ensures device { (result ≡ Err OpenFault.Device) → D.failures_of self.new.device ≡ min (D.failures_of self.old.device + 1) (2 ^ 64 - 1) }
        ensures no_failure { OnOk result (D.failures_of self.new.device ≡ D.failures_of self.old.device) }
    {
        read_first(alloc, &mut self.device, identity)
    }

    /// Begins a file of one group on another device, spelled as `new`, and goes on with it. The device so far, with its
    /// file as it is, becomes the other one. A refusal leaves this file as it is.
    pub(crate) fn turn(
        &mut self,
        alloc: Global,
        other: &mut D,
        header: &[u8],
        group: &[Vec<u8>],
        new: &[u8],
    ) -> Result<(), RecordFault>
        requires within { 1 < length (D.disk other.old).content }
        requires durable { IsDurable (D.disk other.old) }
        requires short { length (body (header.now ∷ records_of group.now)) < 2 ^ 32 }
        requires bytes { new.now ≡ behind 0 (header.now ∷ records_of group.now) ++ guard 1 }
        requires room { 2 + length new.now ≤ D.capacity_of other.old }
        ensures ok { OnOk result (self.new.groups ≡ (header.now ∷ records_of group.now) ∷ []) }
        ensures works { OnOk result (self.new.is_failed ≡ false) }
        ensures kept { OnOk result (LeavesOnly D.Led D.disk (IsAtRest self.new.groups) self.new.device) }
        ensures turned { OnOk result (other.new ≡ self.old.device) }
        ensures rests { OnOk result (self.old.is_failed ≡ false → IsDurable (D.disk other.new)) }
        ensures begun { OnOk result (Throughout D.Led D.disk (IsRenewed (D.disk other.old).content new.now) other.old self.new.device) }
        ensures broken_off { OnErr result (Throughout D.Led D.disk (IsRenewed (D.disk other.old).content new.now) other.old other.new) }
        ensures same { OnErr result (self.new ≡ self.old) }
        ensures memory { (result ≡ Err RecordFault.Memory) → other.new ≡ other.old }
        ensures only { IfErr result (λ fault. (fault ≡ RecordFault.Device) ⊎ (fault ≡ RecordFault.Memory)) }
        ensures device { (result ≡ Err RecordFault.Device) → D.failures_of other.new ≡ min (D.failures_of other.old + 1) (2 ^ 64 - 1) }
        ensures no_failure { OnOk result (D.failures_of self.new.device ≡ D.failures_of other.old) }
        ensures capacity { OnOk result (D.capacity_of self.new.device ≡ D.capacity_of other.old) }
        ensures capacity_err { OnErr result (D.capacity_of other.new ≡ D.capacity_of other.old) }
    {
        // Before the device is called: once the gate is open nothing may fail any more (invariant 9).
        let mut table = Vec::new(alloc);
        table.push(Place {
            at: 14,
            len: header.len(),
        })?;
        table.reserve(group.len())?;
        match renew(other, new) {
            Ok(()) => {}
            Err(DeviceFault::Full) => unreachable!(),
            Err(DeviceFault::Device) => return Err(RecordFault::Device),
        }
        add_places(&mut table, 14 + header.len(), group);
        swap(&mut self.device, other);
        self.table = table;
        // `new` ends in a closed gate and a guard, ten bytes, and the first gate is before it (invariant 10).
        self.end = new.len() - 8;
        self.count = 1;
        self.is_failed = false;
        Ok(())
    }

    /// Goes on with the file that another device holds, whatever a crash made of it. The device so far becomes the
    /// other one. A refusal leaves this file as it is.
    pub(crate) fn take_over(&mut self, alloc: Global, other: &mut D) -> Result<(), RecordFault>
        ensures groups { OnOk result (StandsFor (D.disk other.old).content self.new.groups) }
        ensures works { OnOk result (self.new.is_failed ≡ false) }
        ensures kept { OnOk result (LeavesOnly D.Led D.disk (IsAtRest self.new.groups) self.new.device) }
        ensures turned { OnOk result (other.new ≡ self.old.device) }
        ensures same { OnErr result (self.new ≡ self.old) }
        ensures broken { (result ≡ Err RecordFault.Broken) → (gs : List Group) → StandsFor (D.disk other.old).content gs → ⊥ }
        ensures never_full { result ≢ Err RecordFault.Full }
        ensures never_failed { result ≢ Err RecordFault.Failed }
        ensures device { (result ≡ Err RecordFault.Device) → D.failures_of other.new ≡ min (D.failures_of other.old + 1) (2 ^ 64 - 1) }
        ensures no_failure { OnOk result (D.failures_of self.new.device ≡ D.failures_of other.old) }
        ensures capacity { OnOk result (D.capacity_of self.new.device ≡ D.capacity_of other.old) }
        ensures capacity_err { OnErr result (D.capacity_of other.new ≡ D.capacity_of other.old) }
        ensures opened { OnOk result ((before : List Group) (g : Group) → AreShort (before ++ g ∷ [])
            → LeavesOnly D.Led D.disk (IsLeft before g) other.old
            → Throughout D.Led D.disk (IsLeft before g) other.old self.new.device) }
        ensures broken_off { OnErr result ((before : List Group) (g : Group) → AreShort (before ++ g ∷ [])
            → LeavesOnly D.Led D.disk (IsLeft before g) other.old
            → Throughout D.Led D.disk (IsLeft before g) other.old other.new) }
    {
        let found = match read_file(alloc, other) {
            Ok(found) => found,
            Err(fault) => return Err(fault),
        };
        swap(&mut self.device, other);
        self.table = found.table;
        self.end = found.end;
        self.count = found.count;
        self.is_failed = false;
        Ok(())
    }
}
