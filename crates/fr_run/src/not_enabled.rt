//! Why an event cannot happen.
use fr_base::Memory as NoMemory;
use thiserror::Error;

/// Why an event cannot happen. Of several reasons the first in the order of these variants is told, and
/// nothing is changed.
#[derive(Clone, Copy, Debug, PartialEq, Eq, Error)]
pub enum NotEnabled {
    /// The node whose turn it would be is not there.
    #[error("there is no such node")]
    NoSuchNode,
    /// The node crashed, or the log is lost.
    #[error("the node is gone")]
    Gone,
    /// Nobody sent this ask to the node, or told it this.
    #[error("this was never sent")]
    NeverSent,
    /// A recoverer of this ballot began before, or the ballot is 0 or that of the start.
    #[error("the ballot is used")]
    BallotUsed,
    /// The proxy has a batch under way.
    #[error("a batch is under way")]
    TwoOpen,
    /// The proxy takes no more batches.
    #[error("the proxy takes no more batches")]
    Over,
    /// There is no memory.
    #[error("out of memory")]
    Memory,
}

impl From<NoMemory> for NotEnabled {
    ghost use Rattle.std.specs.Prelude.{◌≡◌};
    ghost use Rattle.fr_run.specs.declared.not_enabled.NotEnabled.TheVariants.{Memory};

    ghost from_gives = { λ _ fault. fault ≡ Memory };

    fn from(_: NoMemory) -> NotEnabled {
        NotEnabled::Memory
    }
}
