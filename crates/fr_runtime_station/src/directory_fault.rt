//! Why a node of a directory answers nothing.
use fr_audit_journal::CallFault;

/// Why a node that a directory is asked for answers nothing.
#[derive(Clone, Copy, Debug, PartialEq, Eq)]
pub enum DirectoryFault {
    /// The ask is not one of the node's kind, or the node is one that asks.
    NotAsked,
    /// There is no such node, or not yet.
    NotThere,
    /// The node was called and refused, or failed.
    Call(CallFault),
}
