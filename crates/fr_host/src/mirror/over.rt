//! A disk that is read whole.
ghost use Rattle.std.specs.Prelude.{◌≡◌, ℕ, List, IsTrue, IfOk};
ghost use Rattle.fr_host.specs.Mirror.{below_of};

use crate::mirror::Mirror;
use sqlite_disk::Disk;
use std::alloc::Global;
use std::io;

impl<D: Disk + Drop> Mirror<D> {
    /// Reads the disk below, whole.
    ///
    /// # Errors
    ///
    /// That of the disk below, or out of memory.
    pub fn over(alloc: Global, below: D) -> io::Result<Self>
        requires { IsTrue (D.Disk.is_usable below) }
        ensures holds { IfOk result (λ m. IsTrue (D.Disk.is_clean (below_of m)) → ⟦<Mirror<D> as Disk>⟧.seen m ≡ D.Disk.seen below) }
        ensures usable { IfOk result (λ m. IsTrue (⟦<Mirror<D> as Disk>⟧.is_usable m)) }
        ensures crash { IfOk result (λ m. (c : List ℕ) → D.Disk.may_leave (below_of m) c → D.Disk.may_leave below c) }
    {
        let mut below = below;
        // Asked once: it is what the mirror says of itself from then on (invariant 8).
        let mixes = below.mixes();
        let len = below.len()?;
        let mut bytes = match vec![in alloc; 0; len] {
            Ok(bytes) => bytes,
            Err(_) => return Err(io::ErrorKind::OutOfMemory.into()),
        };
        // The one read of the file (invariant 1).
        below.read_at(0, &mut bytes)?;
        Ok(Mirror {
            bytes,
            below,
            due: None,
            is_torn: false,
            is_lost: false,
            mixes,
            faults: 0,
            refused: 0,
        })
    }

    /// The disk below, to which all writes go.
    pub fn below(&self) -> &D
        ensures { result.now ≡ below_of self.now }
    {
        &self.below
    }
}
