//! The end of an epoch, from the replies of its logs.

use fr_base::Version;
use thiserror::Error;

/// The end of an epoch: what is at most `pev` is known to be committed, and nothing above `rv` is.
#[derive(Clone, Copy, Debug, PartialEq, Eq)]
pub struct EpochEnd {
    pub pev: Version,
    pub rv: Version,
}

/// Why a reply was not counted. They are tested in the order of these variants.
#[derive(Clone, Copy, Debug, PartialEq, Eq, Error)]
pub enum ReplyFault {
    /// The generation has no log of this number.
    #[error("Stranger")]
    Stranger,
    /// The log replied otherwise before, which a locked log never does.
    #[error("Differs")]
    Differs,
}

/// A log knows a version to be committed that another one does not hold.
#[derive(Clone, Copy, Debug, PartialEq, Eq, Error)]
#[error("inconsistent")]
pub struct Inconsistent;
