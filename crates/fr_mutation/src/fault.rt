//! Why mutations make no batch.
ghost use Rattle.std.specs.Prelude.{◌≡◌, Some};
ghost use Rattle.fr_mutation.specs.Names.{batch_fault_name};

use fr_base::Memory as NoMemory;
use std::error::Error;
use std::fmt;

/// Why mutations make no batch, in the order in which it is tested: the number of mutations first,
/// then one mutation after the other, and `Memory` last.
#[derive(Clone, Copy, Debug, PartialEq, Eq)]
pub enum BatchFault {
    /// A key, or an end of a clear, has more than 10,000 bytes.
    KeyTooLong,
    /// A value or a parameter has more than 100,000 bytes.
    ValueTooLong,
    /// A clear begins after its end.
    Inverted,
    /// There are more than 1,000 mutations.
    TooMany,
    /// There is no memory.
    Memory,
}

impl BatchFault {
    /// The name of the fault, which is also how it is displayed.
    pub fn name(&self) -> &'static str
        ensures { result.now ≡ batch_fault_name self.now }
    {
        match self {
            BatchFault::KeyTooLong => "KeyTooLong",
            BatchFault::ValueTooLong => "ValueTooLong",
            BatchFault::Inverted => "Inverted",
            BatchFault::TooMany => "TooMany",
            BatchFault::Memory => "Memory",
        }
    }
}

impl fmt::Display for BatchFault {
    ghost output = { λ fault. Some (batch_fault_name fault) };

    fn fmt<W: fmt::Write>(&self, f: &mut fmt::Formatter<W>) -> fmt::Result {
        f.write_str(self.name())
    }
}

impl Error for BatchFault {}

impl From<NoMemory> for BatchFault {
    ghost use Rattle.std.specs.Prelude.{◌≡◌};
    ghost use Rattle.fr_mutation.specs.declared.fault.BatchFault.TheVariants.{Memory};

    ghost from_gives = { λ _ fault. fault ≡ Memory };

    fn from(_: NoMemory) -> BatchFault {
        BatchFault::Memory
    }
}
