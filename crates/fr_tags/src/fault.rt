//! Why begins make no shard map.
use thiserror::Error;

/// Why begins make no shard map. They are tested in the order `Empty`, `TooMany`, `BeginTooLong`,
/// `Uncovered`, `NotSorted`, and `Memory` last.
#[derive(Clone, Copy, Debug, PartialEq, Eq, Error)]
pub enum ShardFault {
    /// A begin is not above the one before it.
    #[error("NotSorted")]
    NotSorted,
    /// There is no begin.
    #[error("Empty")]
    Empty,
    /// The first begin is not the empty key, so the keys below it are in no shard.
    #[error("Uncovered")]
    Uncovered,
    /// There are more than 32 begins.
    #[error("TooMany")]
    TooMany,
    /// There is no memory.
    #[error("Memory")]
    Memory,
    /// A begin has more than 10,000 bytes.
    #[error("BeginTooLong")]
    BeginTooLong,
}
