//! What a log keeps of a push beside its bodies.
use fr_base::{Epoch, Version};
use fr_state::CoordState;

/// A push but for its bodies.
#[derive(Clone, Debug, Drop)]
pub(crate) struct PushHeader {
    pub(crate) epoch: Epoch,
    pub(crate) prev: Version,
    pub(crate) version: Version,
    pub(crate) known: Version,
    pub(crate) mark: Option<CoordState>,
}

/// The numbers of a push that a log holds, each below 2^62: the version before it in the chain, its own, and the
/// greatest one that it told to be committed.
#[derive(Clone, Copy, Debug, PartialEq, Eq)]
pub struct PushNumbers {
    pub prev: u64,
    pub version: u64,
    pub known: u64,
}
