//! Why bytes are no batch.
ghost use Rattle.std.specs.Prelude.{◌≡◌, Some};
ghost use Rattle.fr_mutation.specs.Names.{decode_fault_name};

use fr_base::Memory as NoMemory;
use std::error::Error;
use std::fmt;

/// Why bytes are no batch: the first fault that reading them from left to right meets.
#[derive(Clone, Copy, Debug, PartialEq, Eq)]
pub enum DecodeFault {
    /// The bytes end before a field does.
    Short,
    /// A byte is no known format, or no known kind of mutation.
    UnknownKind,
    /// There are more than 1,000 mutations, or a key has more than 10,000 bytes, or a value or a
    /// parameter more than 100,000. It is tested before these bytes are looked at.
    OverLimit,
    /// A clear begins after its end.
    Inverted,
    /// There is no memory. It is answered only for bytes in which there is no other fault.
    Memory,
    /// A batch of format 2 has no compare-and-clear, so that its bytes would have been those of format 1.
    /// It is answered once all its mutations were read.
    NeedlessFormat,
}

impl DecodeFault {
    /// The name of the fault, which is also how it is displayed.
    pub fn name(&self) -> &'static str
        ensures { result.now ≡ decode_fault_name self.now }
    {
        match self {
            DecodeFault::Short => "Short",
            DecodeFault::UnknownKind => "UnknownKind",
            DecodeFault::OverLimit => "OverLimit",
            DecodeFault::Inverted => "Inverted",
            DecodeFault::Memory => "Memory",
            DecodeFault::NeedlessFormat => "NeedlessFormat",
        }
    }
}

impl fmt::Display for DecodeFault {
    ghost output = { λ fault. Some (decode_fault_name fault) };

    fn fmt<W: fmt::Write>(&self, f: &mut fmt::Formatter<W>) -> fmt::Result {
        f.write_str(self.name())
    }
}

impl Error for DecodeFault {}

impl From<NoMemory> for DecodeFault {
    ghost use Rattle.std.specs.Prelude.{◌≡◌};
    ghost use Rattle.fr_mutation.specs.declared.codec.fault.DecodeFault.TheVariants.{Memory};

    ghost from_gives = { λ _ fault. fault ≡ Memory };

    fn from(_: NoMemory) -> DecodeFault {
        DecodeFault::Memory
    }
}
