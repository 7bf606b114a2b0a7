//! Files of the host: a disk over a file that is read once, when it is opened, and a device over one.
//!
//! # Invariants
//!
//! Lines that rely on one of these cite its number. *The disk below* is the file of the host.
//!
//! 1. Reads come from a copy in memory, which is read from the disk below once, at the opening (`seen` of `Mirror`;
//!    `disk` of `DiskDevice`). No code can know that a file gives back the bytes that were written to it; of the copy
//!    this holds by its construction.
//! 2. While a device is not shut, and a mirror neither torn nor with a write due, the disk below holds the bytes of
//!    the copy, if it answered truly (`same`, `whole`). Otherwise the next opening would read something else than
//!    what was answered.
//! 3. A byte counts as kept only from a sync on to which the disk below said yes, and a later write to it takes that
//!    back (`marked`, `leaves`). A crash must not take away what the device calls kept.
//! 4. After a write or a sync that was refused a device answers `Device` to every call, reads too (`is_shut`). A
//!    kernel may drop what it could not write and call the next sync good, so the disk is not known until it is read
//!    again.
//! 5. A device takes the memory for all its room at the opening (`room`). A write may answer `Full` or `Device`, and
//!    cannot answer `Memory`.
//! 6. A write that the disk below refuses a mirror is *due*: the copy has it, and it is made anew, with the same
//!    bytes in the same place, before the next write, cut or sync (`lacks`). One can be due at most. So a full disk
//!    does not end a store.
//! 7. A cut that fails leaves a mirror torn, and nothing is written any more (`is_torn`): the disk below may have
//!    either length. A sync that fails leaves it lost (`is_lost`), for the reason of 4.
//! 8. Writes are made only while the disk below says of a crash what it said at the opening (`mixes`). The library
//!    makes one sync a commit where a crash leaves each byte of a write old or new, and that would be too few
//!    otherwise.
#![tactic(auto)]

mod bytes;
mod device;
mod due;
mod fault;
mod host;
mod marks;
mod mirror;

pub use device::DiskDevice;
pub use fault::HostFault;
pub use host::{HostDevice, open, open_from};
pub use mirror::Mirror;
