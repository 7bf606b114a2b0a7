//! Why a store refuses.
ghost use Rattle.std.specs.Prelude.{◌≡◌, Some};
ghost use Rattle.fr_undo.specs.Names.{store_fault_name};

use fr_base::Memory as NoMemory;
use std::error::Error;
use std::fmt;

/// Why a call of a store was refused. In the order of the variants their numbers are 1 to 7.
#[derive(Clone, Copy, Debug, PartialEq, Eq)]
pub enum StoreFault {
    /// The device failed in this call. The store answers `Failed` until it is opened again.
    Device,
    /// The device has no room for what the call writes, or needs to read.
    Full,
    /// The device failed in an earlier call, and the store was not opened again since.
    Failed,
    /// A growth of memory was refused.
    Memory,
    /// The version is not after the one applied.
    NotAfter,
    /// The version is below the floor.
    BelowFloor,
    /// The version is above the one applied.
    AboveApplied,
}

impl StoreFault {
    /// The name of the fault, which is also how it is displayed.
    pub fn name(&self) -> &'static str
        ensures { result.now ≡ store_fault_name self.now }
    {
        match self {
            StoreFault::Device => "Device",
            StoreFault::Full => "Full",
            StoreFault::Failed => "Failed",
            StoreFault::Memory => "Memory",
            StoreFault::NotAfter => "NotAfter",
            StoreFault::BelowFloor => "BelowFloor",
            StoreFault::AboveApplied => "AboveApplied",
        }
    }
}

impl fmt::Display for StoreFault {
    ghost output = { λ fault. Some (store_fault_name fault) };

    fn fmt<W: fmt::Write>(&self, f: &mut fmt::Formatter<W>) -> fmt::Result {
        f.write_str(self.name())
    }
}

impl Error for StoreFault {}

impl From<NoMemory> for StoreFault {
    ghost use Rattle.std.specs.Prelude.{◌≡◌};
    ghost use Rattle.fr_undo.specs.declared.fault.StoreFault.TheVariants.{Memory};

    ghost from_gives = { λ _ fault. fault ≡ Memory };

    fn from(_: NoMemory) -> StoreFault {
        StoreFault::Memory
    }
}
