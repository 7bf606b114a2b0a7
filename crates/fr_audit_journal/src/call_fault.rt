//! Why a call of a node with its journal is refused.
use fr_base::NodeFault;
use thiserror::Error;

/// Why a call is refused. Their numbers are those of a node's fault, 1 to 5, then 6 and 7.
#[derive(Clone, Copy, Debug, PartialEq, Eq, Error)]
pub enum CallFault {
    /// The node answered with a fault.
    #[error("{0}")]
    Node(NodeFault),
    /// There is no stamp above those of the journal, of the caller and of the ask that met a fault.
    #[error("the stamps are spent")]
    StampsSpent,
    /// The node is a log that is lost, or a sequencer that crashed.
    #[error("the node is lost")]
    Lost,
}
