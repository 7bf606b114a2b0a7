//! A disk that fails for a while: it passes so many calls on, fails so many after, and passes all later ones on.
ghost use Rattle.std.specs.Prelude.{◌≡◌, ◌+◌, ◌&&◌, not, false};
ghost use Rattle.sqlite_disk.specs.Disk.{CountsFault};
ghost use Rattle.sqlite_disk.specs.Refusal.{finds_no_room};

use fr_sql_rows::FaithfulDisk;
use sqlite_disk::{Disk, Tally};
use std::io;

/// A disk whose calls fail for a while. A sync that fails leaves it with no further use.
#[derive(Drop)]
pub(crate) struct Gap<D: Disk> {
    inner: D,
    passes: u64,
    fails: u64,
    refused: u64,
    sync_refused: bool,
}

impl<D: Disk> Gap<D> {
    pub(crate) fn new(inner: D, passes: u64, fails: u64) -> Gap<D> {
        Gap {
            inner,
            passes,
            fails,
            refused: 0,
            sync_refused: false,
        }
    }

    pub(crate) fn inner(&self) -> &D {
        &self.inner
    }
}

/// Whether a call is passed on.
fn spend(passes: &mut u64, fails: &mut u64, refused: &mut u64) -> io::Result<()>
    ensures faults { CountsFault result refused.old refused.new }
    ensures kind { finds_no_room result ≡ false }
{
    if *passes > 0 {
        *passes -= 1;
        return Ok(());
    }
    if *fails == 0 {
        return Ok(());
    }
    *fails -= 1;
    *refused = refused.saturating_add(1);
    Err(io::Error::other("the disk fails for a while"))
}

impl<D: Disk> Disk for Gap<D> {
    ghost seen = { λ f. D.Disk.seen f.inner };

    ghost may_leave = { λ f. D.Disk.may_leave f.inner };

    ghost is_usable = { λ f. D.Disk.is_usable f.inner && not f.sync_refused };

    ghost faults = { λ f. D.Disk.faults f.inner + f.refused };

    ghost tally_of = { λ f. D.Disk.tally_of f.inner };

    ghost is_rotten = { λ f. D.Disk.is_rotten f.inner };

    ghost key_of = { λ f. D.Disk.key_of f.inner };

    ghost is_clean = { λ f. D.Disk.is_clean f.inner };

    ghost is_fair = { λ f. D.Disk.is_fair f.inner };

    ghost fair_if_clean = { λ f. D.Disk.fair_if_clean f.inner };

    ghost seen_may_stay = { λ f. D.Disk.seen_may_stay f.inner };

    ghost is_mixing = { λ f. D.Disk.is_mixing f.inner };

    fn mixes(&self) -> bool {
        self.inner.mixes()
    }

    fn key(&self) -> u64 {
        self.inner.key()
    }

    fn tally(&self) -> Tally {
        self.inner.tally()
    }

    fn may_be_used(&self) -> bool {
        self.inner.may_be_used() && !self.sync_refused
    }

    fn len(&mut self) -> io::Result<usize> {
        spend(&mut self.passes, &mut self.fails, &mut self.refused)?;
        self.inner.len()
    }

    fn read_at(&mut self, at: usize, buf: &mut [u8]) -> io::Result<()> {
        spend(&mut self.passes, &mut self.fails, &mut self.refused)?;
        self.inner.read_at(at, buf)
    }

    fn read_checked(&mut self, key: u64, want: u64, at: usize, buf: &mut [u8]) -> io::Result<()> {
        spend(&mut self.passes, &mut self.fails, &mut self.refused)?;
        self.inner.read_checked(key, want, at, buf)
    }

    fn write_at(&mut self, at: usize, bytes: &[u8]) -> io::Result<()> {
        spend(&mut self.passes, &mut self.fails, &mut self.refused)?;
        self.inner.write_at(at, bytes)
    }

    fn set_len(&mut self, len: usize) -> io::Result<()> {
        spend(&mut self.passes, &mut self.fails, &mut self.refused)?;
        self.inner.set_len(len)
    }

    fn sync(&mut self) -> io::Result<()> {
        if let Err(error) = spend(&mut self.passes, &mut self.fails, &mut self.refused) {
            self.sync_refused = true;
            return Err(error);
        }
        self.inner.sync()
    }
}

impl<D: FaithfulDisk> FaithfulDisk for Gap<D> {
    ghost faithful = { λ f. D.faithful f.inner };
}
