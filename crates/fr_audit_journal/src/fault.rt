//! Why an entry is not taken.
use thiserror::Error;

/// Why a journal does not take an entry, which changes nothing. Of both reasons the first is told. Their numbers are
/// 1 and 2, in the order of these variants.
#[derive(Clone, Copy, Debug, PartialEq, Eq, Error)]
pub enum JournalFault {
    /// The stamp is not above that of the entry before.
    #[error("the stamp is not above the one before")]
    NotRising,
    /// There is no memory.
    #[error("out of memory")]
    Memory,
}
