//! A disk that is read once, when it is opened; from then on reads come from memory, and writes go to both.
ghost use Rattle.std.specs.Prelude.{◌≡◌, ◌<◌, ◌≤◌, false, None, Some, is_ok, IsTrue, length};
ghost use Rattle.sqlite_disk.specs.Disk.{CountsFault};
ghost use Rattle.sqlite_disk.specs.Tally.{CountsRefusal};
ghost use Rattle.sqlite_disk.specs.Refusal.{finds_no_room};
ghost use Rattle.fr_host.specs.Due.{IsTornAt};

mod change;
mod over;

use crate::due::Due;
use fr_sql_rows::FaithfulDisk;
use sqlite_disk::{Disk, Tally, is_no_room};
use std::io;

/// A disk in memory with all its writes on the disk below too. A write that the disk below refuses, as one that is full
/// does, is made anew before the next write, cut or sync, so it does not end the disk.
///
/// The price of reads from memory is that the whole database is there. A cut or a sync that fails ends the mirror; a
/// write that fails does not.
#[derive(Drop)]
pub struct Mirror<D: Disk> {
    bytes: Vec<u8>,
    below: D,
    /// The write that failed below, until it is made anew.
    due: Option<Due>,
    /// A cut failed, so that the disk below may hold other bytes. Nothing is written any more.
    is_torn: bool,
    is_lost: bool,
    /// What the disk below said when it was read: a crash leaves each byte of a write old or new.
    mixes: bool,
    faults: u64,
    refused: u64,
    ghost within: { (d : _) → due ≡ Some d → (d.at < d.end) × (d.end ≤ length bytes.items) },
    ghost whole: { IsTrue (D.Disk.is_clean below) → is_torn ≡ false → due ≡ None → D.Disk.seen below ≡ bytes.items },
    ghost lacks: { IsTrue (D.Disk.is_clean below) → is_torn ≡ false → (d : _) → due ≡ Some d → IsTornAt d bytes.items (D.Disk.seen below) },
}

/// The answer of a call, with its failure counted.
fn count(outcome: io::Result<()>, faults: &mut u64, refused: &mut u64) -> io::Result<()>
    ensures same { result ≡ outcome }
    ensures faults { CountsFault result faults.old faults.new }
    ensures tally { CountsRefusal result (record { caught = 0; refused = refused.old }) (record { caught = 0; refused = refused.new }) }
{
    match outcome {
        Ok(()) => Ok(()),
        Err(error) => {
            *faults = faults.saturating_add(1);
            // Counted apart, because a store answers `Full` only where this count rises.
            if is_no_room(&error) {
                *refused = refused.saturating_add(1);
            }
            Err(error)
        }
    }
}

/// A call that is refused without a call of the disk below, after an earlier one failed.
pub(crate) fn not_made() -> io::Result<()>
    ensures kind { finds_no_room result ≡ false }
    ensures err { is_ok result ≡ false }
{
    Err(io::Error::other("an earlier call failed"))
}

impl<D: Disk + Drop> Disk for Mirror<D> {
    ghost use Rattle.std.specs.Prelude.{◌≡◌, ◌⊎◌, true, false, not, refl, IsTrue};
    ghost use Rattle.std.proofs.Common.{inl};
    ghost use Rattle.fr_host.specs.Due.{Leaves};

    ghost seen = { λ f. f.bytes.items };

    ghost may_leave = { λ f c. (c ≡ f.bytes.items) ⊎ (IsTrue (D.Disk.is_clean f.below) × Leaves f.mixes f.due f.bytes.items (D.Disk.may_leave f.below) c) };

    ghost is_usable = { λ f. not f.is_lost };

    ghost faults = { λ f. f.faults };

    ghost tally_of = { λ f. record { caught = 0; refused = f.refused } };

    ghost is_clean = { λ _. true };

    ghost is_mixing = { λ f. f.mixes };

    ghost key_of = { λ f. D.Disk.key_of f.below };

    ghost is_fair = { λ _ _. true };

    ghost fair_if_clean = { λ _ _ _. refl };

    ghost seen_may_stay = { λ _. inl refl };

    fn mixes(&self) -> bool {
        self.mixes
    }

    fn key(&self) -> u64 {
        // Handed on, because digests are made with the key that the files were opened with.
        self.below.key()
    }

    fn tally(&self) -> Tally {
        Tally {
            caught: 0,
            refused: self.refused,
        }
    }

    fn may_be_used(&self) -> bool {
        !self.is_lost
    }

    fn len(&mut self) -> io::Result<usize> {
        Ok(self.bytes.len())
    }

    fn read_at(&mut self, at: usize, buf: &mut [u8]) -> io::Result<()> {
        // Subtracted only behind this test, so that no sum overflows.
        if at > self.bytes.len() || buf.len() > self.bytes.len() - at {
            return Err(io::ErrorKind::UnexpectedEof.into());
        }
        // From the copy, whatever became of the file since (invariant 1).
        buf.copy_from_slice(&self.bytes[at..at + buf.len()]);
        Ok(())
    }

    // What is read is what was written, so it has the digest that is wanted.
    fn read_checked(&mut self, key: u64, want: u64, at: usize, buf: &mut [u8]) -> io::Result<()> {
        if at > self.bytes.len() || buf.len() > self.bytes.len() - at {
            return Err(io::ErrorKind::UnexpectedEof.into());
        }
        let held = &self.bytes[at..at + buf.len()];
        buf.copy_from_slice(held);
        Ok(())
    }

    fn write_at(&mut self, at: usize, bytes: &[u8]) -> io::Result<()> {
        let outcome = self.write(at, bytes);
        count(outcome, &mut self.faults, &mut self.refused)
    }

    fn set_len(&mut self, len: usize) -> io::Result<()> {
        // Counted at the door, whichever step failed.
        let outcome = self.cut(len);
        count(outcome, &mut self.faults, &mut self.refused)
    }

    fn sync(&mut self) -> io::Result<()> {
        let outcome = self.settle();
        // It stays lost: a later sync that succeeds says nothing of what an earlier one dropped (invariant 7).
        self.is_lost = self.is_lost || outcome.is_err();
        count(outcome, &mut self.faults, &mut self.refused)
    }
}

impl<D: Disk + Drop> FaithfulDisk for Mirror<D> {
    ghost use Rattle.std.specs.Prelude.{refl};

    ghost faithful = { λ _. refl };
}
