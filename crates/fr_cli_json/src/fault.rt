ghost use Rattle.std.specs.Prelude.{◌≡◌};
ghost use Rattle.fr_cli_json.specs.declared.fault.CliFault.TheVariants.{Memory};

use std::alloc::{AllocError, AllocFailed};
use thiserror::Error;

/// Why a command ended early.
#[derive(Clone, Copy, Debug, PartialEq, Eq, Error)]
pub enum CliFault {
    #[error("bad script")]
    BadScript,
    #[error("out of memory")]
    Memory,
    #[error("input failed")]
    Input,
    #[error("output failed")]
    Output,
}

impl CliFault {
    /// The exit status of a program that ends by this fault.
    pub fn status(self) -> u8
        ensures bad { self ≡ CliFault.BadScript → result ≡ 2 }
        ensures memory { self ≡ CliFault.Memory → result ≡ 3 }
        ensures input { self ≡ CliFault.Input → result ≡ 4 }
        ensures output { self ≡ CliFault.Output → result ≡ 4 }
    {
        match self {
            CliFault::BadScript => 2,
            CliFault::Memory => 3,
            CliFault::Input | CliFault::Output => 4,
        }
    }
}

impl From<AllocError> for CliFault {
    ghost from_gives = { λ _ e. e ≡ Memory };

    fn from(_error: AllocError) -> CliFault {
        CliFault::Memory
    }
}

impl<T: Drop> From<AllocFailed<T>> for CliFault {
    ghost from_gives = { λ _ e. e ≡ Memory };

    fn from(_error: AllocFailed<T>) -> CliFault {
        CliFault::Memory
    }
}
