//! Why a state is not extended, and why bytes are no state.
use std::alloc::AllocFailed;
use thiserror::Error;

/// Why a generation was not appended.
#[derive(Clone, Copy, Debug, PartialEq, Eq, Error)]
pub enum StateFault {
    /// Its epoch is not above that of the last generation, or its `first` or `seeded_to` is below the last one's.
    #[error("not later than the last generation")]
    NotLater,
    /// There are as many generations as a state can have.
    #[error("too many generations")]
    TooMany,
    /// There is no memory.
    #[error("out of memory")]
    Memory,
}

impl<T: Drop> From<AllocFailed<T>> for StateFault {
    ghost use Rattle.std.specs.Prelude.{◌≡◌};
    ghost use Rattle.fr_state.specs.declared.fault.StateFault.TheVariants.{Memory};

    ghost from_gives = { λ _ fault. fault ≡ Memory };

    fn from(_: AllocFailed<T>) -> StateFault {
        StateFault::Memory
    }
}

/// Why bytes are no state: the first fault that [`decode`](crate::decode) meets.
#[derive(Clone, Copy, Debug, PartialEq, Eq, Error)]
pub enum StateDecodeFault {
    /// Bytes are missing.
    #[error("bytes are missing")]
    Short,
    /// The format or the number of generations is not one of those known, a generation is not within its
    /// limits, or the list is not in order.
    #[error("bad form")]
    BadForm,
    /// Bytes follow the last generation.
    #[error("bytes follow the state")]
    Trailing,
    /// There is no memory.
    #[error("out of memory")]
    Memory,
}
