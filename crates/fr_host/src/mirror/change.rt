//! Writes, cuts and syncs of both.
ghost use Rattle.std.specs.Prelude.{◌≡◌, ◌+◌, ◌≤◌, ◌<◌, ◌^◌, ℕ, List, None, Some, false, OnOk, OnErr, IsTrue, length};
ghost use Rattle.sqlite_disk.specs.Disk.{Holds, Torn, Mixed, Cut, Follows, Only};
ghost use Rattle.sqlite_disk.specs.Refusal.{finds_no_room};
ghost use Rattle.fr_host.specs.Due.{Leaves};

use crate::bytes::{compare, fill, grow, put};
use crate::due::Due;
use crate::mirror::{Mirror, not_made};
use sqlite_disk::Disk;
use std::io;

impl<D: Disk + Drop> Mirror<D> {
    /// Whether the disk below takes a write, and a crash still leaves of it what it said first. It is asked before each
    /// write, since one sync a commit is enough only if a crash leaves each byte old or new.
    fn may_write(&self) -> bool
        ensures usable { IsTrue result → IsTrue (D.Disk.is_usable self.now.below) }
        ensures mixing { IsTrue result → IsTrue self.now.mixes → IsTrue (D.Disk.is_mixing self.now.below) }
    {
        // Asked each time and not once: what the disk below says of itself may change (invariant 8).
        self.below.may_be_used() && (!self.mixes || self.below.mixes())
    }

    /// Makes the write anew that failed below, if there is one.
    fn mend(&mut self) -> io::Result<()>
        requires whole { self.old.is_torn ≡ false }
        ensures done { OnOk result (self.new.due ≡ None) }
        ensures bytes { self.new.bytes.items ≡ self.old.bytes.items }
        ensures torn { self.new.is_torn ≡ false }
        ensures mixing { self.new.mixes ≡ self.old.mixes }
        ensures lost { self.new.is_lost ≡ self.old.is_lost }
        ensures faults { self.new.faults ≡ self.old.faults }
        ensures refused { self.new.refused ≡ self.old.refused }
        ensures calm { IsTrue (D.Disk.is_clean self.new.below) → IsTrue (D.Disk.is_clean self.old.below) }
        ensures key { D.Disk.key_of self.new.below ≡ D.Disk.key_of self.old.below }
        ensures crash { (c : List ℕ) → Leaves self.new.mixes self.new.due self.new.bytes.items (D.Disk.may_leave self.new.below) c
            → Leaves self.old.mixes self.old.due self.old.bytes.items (D.Disk.may_leave self.old.below) c }
    {
        let Some(due) = self.due else {
            return Ok(());
        };
        if !self.may_write() {
            return not_made();
        }
        // The bytes are taken from the copy, so they are those of the write that failed (invariant 6).
        self.below.write_at(due.at, &self.bytes[due.at..due.end])?;
        // The gap before the write is not ours: it is compared, because an opening would read it (invariant 2).
        compare(&mut self.below, &self.bytes, due.old_len, due.at)?;
        // Last: each `?` above leaves the write due, to be made anew (invariant 6).
        self.due = None;
        Ok(())
    }

    /// Writes to the copy alone, and notes that the disk below lacks it.
    fn place(&mut self, at: usize, bytes: &[u8]) -> io::Result<()>
        requires some { 0 < length bytes.now }
        requires fits { at + length bytes.now < 2 ^ 64 }
        requires whole { self.old.is_torn ≡ false }
        requires none { self.old.due ≡ None }
        ensures written { OnOk result (Holds self.new.bytes.items at bytes.now) }
        ensures due { OnOk result (self.new.due ≡ Some (record { at = at; end = at + length bytes.now; old_len = length self.old.bytes.items })) }
        ensures refused_due { OnErr result (self.new.due ≡ None) }
        ensures refused_bytes { OnErr result (self.new.bytes.items ≡ self.old.bytes.items) }
        ensures others { Torn at (length bytes.now) self.old.bytes.items self.new.bytes.items }
        ensures each { Mixed at bytes.now self.old.bytes.items self.new.bytes.items }
        ensures torn { self.new.is_torn ≡ false }
        ensures below { self.new.below ≡ self.old.below }
        ensures mixing { self.new.mixes ≡ self.old.mixes }
        ensures lost { self.new.is_lost ≡ self.old.is_lost }
        ensures faults { self.new.faults ≡ self.old.faults }
        ensures refused { self.new.refused ≡ self.old.refused }
    {
        let old_len = self.bytes.len();
        let end = at + bytes.len();
        // Out of memory leaves the copy as it was, with nothing due.
        grow(&mut self.bytes, end)?;
        put(&mut self.bytes, at, bytes);
        // Noted as due before the disk below is called: so a write that fails and one that was not tried are the same
        // thing (invariant 6).
        self.due = Some(Due { at, end, old_len });
        Ok(())
    }

    pub(crate) fn write(&mut self, at: usize, bytes: &[u8]) -> io::Result<()>
        ensures written { OnOk result (0 < length bytes.now → Holds self.new.bytes.items at bytes.now) }
        ensures others { Torn at (length bytes.now) self.old.bytes.items self.new.bytes.items }
        ensures mixing { self.new.mixes ≡ self.old.mixes }
        ensures each { Mixed at bytes.now self.old.bytes.items self.new.bytes.items }
        ensures mixed { IsTrue self.old.mixes → Follows (Mixed at bytes.now)
            (Leaves self.old.mixes self.old.due self.old.bytes.items (D.Disk.may_leave self.old.below))
            (Leaves self.new.mixes self.new.due self.new.bytes.items (D.Disk.may_leave self.new.below)) }
        ensures lost { self.new.is_lost ≡ self.old.is_lost }
        ensures faults { self.new.faults ≡ self.old.faults }
        ensures refused { self.new.refused ≡ self.old.refused }
        ensures calm { IsTrue (D.Disk.is_clean self.new.below) → IsTrue (D.Disk.is_clean self.old.below) }
        ensures key { D.Disk.key_of self.new.below ≡ D.Disk.key_of self.old.below }
        ensures crash { Follows (Torn at (length bytes.now))
            (Leaves self.old.mixes self.old.due self.old.bytes.items (D.Disk.may_leave self.old.below))
            (Leaves self.new.mixes self.new.due self.new.bytes.items (D.Disk.may_leave self.new.below)) }
    {
        // The sum is tested here, because `at` is the caller's.
        if self.is_torn || bytes.len() > usize::MAX - at {
            return not_made();
        }
        if bytes.is_empty() {
            return Ok(());
        }
        // The one before comes first, since one write can be due (invariant 6).
        self.mend()?;
        self.place(at, bytes)?;
        // The new one, by the same way as a write made anew.
        self.mend()
    }

    pub(crate) fn cut(&mut self, len: usize) -> io::Result<()>
        ensures len { OnOk result (length self.new.bytes.items ≡ len) }
        ensures others { Cut len self.old.bytes.items self.new.bytes.items }
        ensures mixing { self.new.mixes ≡ self.old.mixes }
        ensures lost { self.new.is_lost ≡ self.old.is_lost }
        ensures faults { self.new.faults ≡ self.old.faults }
        ensures refused { self.new.refused ≡ self.old.refused }
        ensures calm { IsTrue (D.Disk.is_clean self.new.below) → IsTrue (D.Disk.is_clean self.old.below) }
        ensures key { D.Disk.key_of self.new.below ≡ D.Disk.key_of self.old.below }
        ensures crash { Follows (Cut len)
            (Leaves self.old.mixes self.old.due self.old.bytes.items (D.Disk.may_leave self.old.below))
            (Leaves self.new.mixes self.new.due self.new.bytes.items (D.Disk.may_leave self.new.below)) }
    {
        if self.is_torn {
            return not_made();
        }
        // A write due behind the new end would be made anew behind it.
        self.mend()?;
        if !self.below.may_be_used() {
            return not_made();
        }
        self.cut_whole(len)
    }

    /// A cut of a disk that lacks no write.
    fn cut_whole(&mut self, len: usize) -> io::Result<()>
        requires whole { self.old.is_torn ≡ false }
        requires none { self.old.due ≡ None }
        requires usable { IsTrue (D.Disk.is_usable self.old.below) }
        ensures len { OnOk result (length self.new.bytes.items ≡ len) }
        ensures others { Cut len self.old.bytes.items self.new.bytes.items }
        ensures due { self.new.due ≡ None }
        ensures mixing { self.new.mixes ≡ self.old.mixes }
        ensures lost { self.new.is_lost ≡ self.old.is_lost }
        ensures faults { self.new.faults ≡ self.old.faults }
        ensures refused { self.new.refused ≡ self.old.refused }
        ensures calm { IsTrue (D.Disk.is_clean self.new.below) → IsTrue (D.Disk.is_clean self.old.below) }
        ensures key { D.Disk.key_of self.new.below ≡ D.Disk.key_of self.old.below }
        ensures crash { Follows (Cut len) (D.Disk.may_leave self.old.below) (D.Disk.may_leave self.new.below) }
    {
        let old = self.bytes.len();
        // The step that needs memory first, while the disk below is as it was.
        grow(&mut self.bytes, len)?;
        // Set before the call and taken back at the end, so that every way out in between leaves it torn (invariant
        // 7).
        self.is_torn = true;
        self.below.set_len(len)?;
        if old < len {
            // Lengthened: the new bytes are read and not assumed to be zero (invariant 1).
            fill(&mut self.below, &mut self.bytes, old, len)?;
        } else {
            // The copy is cut after the disk below: while that could fail, the copy still had all bytes.
            self.bytes.truncate(len);
        }
        self.is_torn = false;
        Ok(())
    }

    pub(crate) fn settle(&mut self) -> io::Result<()>
        ensures bytes { self.new.bytes.items ≡ self.old.bytes.items }
        ensures mixing { self.new.mixes ≡ self.old.mixes }
        ensures lost { self.new.is_lost ≡ self.old.is_lost }
        ensures faults { self.new.faults ≡ self.old.faults }
        ensures refused { self.new.refused ≡ self.old.refused }
        ensures calm { IsTrue (D.Disk.is_clean self.new.below) → IsTrue (D.Disk.is_clean self.old.below) }
        ensures key { D.Disk.key_of self.new.below ≡ D.Disk.key_of self.old.below }
        ensures durable { OnOk result (IsTrue (D.Disk.is_clean self.new.below) → Only self.old.bytes.items
            (Leaves self.new.mixes self.new.due self.new.bytes.items (D.Disk.may_leave self.new.below))) }
        ensures crash { (c : List ℕ) → Leaves self.new.mixes self.new.due self.new.bytes.items (D.Disk.may_leave self.new.below) c
            → Leaves self.old.mixes self.old.due self.old.bytes.items (D.Disk.may_leave self.old.below) c }
    {
        if self.is_torn {
            return not_made();
        }
        // Before the sync, which has to cover it (invariant 6).
        self.mend()?;
        if !self.below.may_be_used() {
            return not_made();
        }
        self.below.sync()
    }
}
