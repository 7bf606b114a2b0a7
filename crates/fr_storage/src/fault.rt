//! Why a storage server did not take what it heard, or does not answer a read.
use fr_base::Memory as NoMemory;
use fr_undo::StoreFault;
use thiserror::Error;

/// Why a storage server did not take what it heard. A server whose store failed tells so first, as
/// `Store(Failed)`; else of several reasons the first in the order of these variants is told. In that order
/// their numbers are 1 to 7.
#[derive(Clone, Copy, Debug, PartialEq, Eq, Error)]
pub enum StorageFault {
    /// The state is of an earlier epoch than the own.
    #[error("the state is of an earlier epoch")]
    Older,
    /// The state is another one of the own epoch, or does not go on from the own one: it does not begin with
    /// the own generations that it did not drop, or dropped all of them.
    #[error("the state does not go on from the own one")]
    Stranger,
    /// The cut of the own epoch is below the floor, so undo rows that are wanted are gone.
    #[error("the cut of the own epoch is below the floor")]
    BelowFloor,
    /// The generation is not the source of the next version.
    #[error("the generation is not the source of the next version")]
    NotMyGeneration,
    /// Records between the version applied and these are missing.
    #[error("records are missing before these")]
    Hole,
    /// The store refused a call, or memory ran out. The server answers `Store(Failed)` until it is
    /// opened again.
    #[error("{0}")]
    Store(StoreFault),
    /// The bytes that the store keeps are no coordinated state.
    #[error("the store keeps no coordinated state")]
    BadState,
}

/// Why a storage server does not answer a read at a version. A server whose store failed tells so first, as
/// `Store(Failed)`; else of several reasons the first in the order of these variants is told.
#[derive(Clone, Copy, Debug, PartialEq, Eq, Error)]
pub enum ReadFault {
    /// The key is not of its shard.
    #[error("the key is not of the shard")]
    NotMine,
    /// The version is below the floor, so undo rows that are wanted are gone.
    #[error("the version is below the floor")]
    TooOld,
    /// The version is above the one applied.
    #[error("the version is above the one applied")]
    FutureVersion,
    /// The store refused the call, or memory ran out. If its device failed, the server answers `Store(Failed)`
    /// until it is opened again.
    #[error("{0}")]
    Store(StoreFault),
}

impl From<StoreFault> for StorageFault {
    ghost use Rattle.std.specs.Prelude.{◌≡◌};
    ghost use Rattle.fr_storage.specs.declared.fault.StorageFault.TheVariants.{Store};

    ghost from_gives = { λ given fault. fault ≡ Store given };

    fn from(fault: StoreFault) -> StorageFault {
        StorageFault::Store(fault)
    }
}

impl From<NoMemory> for StorageFault {
    ghost use Rattle.std.specs.Prelude.{◌≡◌};
    ghost use Rattle.fr_undo.specs.declared.fault.StoreFault.TheVariants.{Memory};
    ghost use Rattle.fr_storage.specs.declared.fault.StorageFault.TheVariants.{Store};

    ghost from_gives = { λ _ fault. fault ≡ Store Memory };

    fn from(_: NoMemory) -> StorageFault {
        StorageFault::Store(StoreFault::Memory)
    }
}
