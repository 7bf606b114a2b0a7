//! The ask that met a fault.
use fr_base::{NodeId, Stamp};

/// An ask that met a fault of its node's device, and its stamp, which is entered if the node is found to have taken it.
#[derive(Debug, Drop)]
pub struct AskInDoubt<A> {
    pub stamp: Stamp,
    pub from: NodeId,
    pub ask: A,
    pub found: bool,
}
