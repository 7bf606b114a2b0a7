//! The names of nodes.
ghost use Rattle.std.specs.Prelude.{◌≡◌, string_bytes, IfOk};
ghost use Rattle.fr_audit_journal.specs.Names as names;

use fr_base::NodeId;
use std::alloc::{AllocError, Global};

/// The name by which a node is written to: its kind, and its numbers.
pub fn node_text(alloc: Global, node: NodeId) -> Result<String, AllocError>
    ensures { IfOk result (λ text. string_bytes text ≡ names.node_text node) }
{
    match node {
        NodeId::Cell { index } => format!(in alloc; "cell {index}"),
        NodeId::Log { epoch, index } => {
            let epoch = epoch.get();
            format!(in alloc; "log {epoch} {index}")
        }
        NodeId::Sequencer { epoch } => {
            let epoch = epoch.get();
            format!(in alloc; "sequencer {epoch}")
        }
        NodeId::Proxy { epoch, number } => {
            let epoch = epoch.get();
            format!(in alloc; "proxy {epoch} {number}")
        }
        NodeId::Recoverer { ballot } => {
            let ballot = ballot.get();
            format!(in alloc; "recoverer {ballot}")
        }
        NodeId::Storage { tag } => {
            let tag = tag.get();
            format!(in alloc; "storage {tag}")
        }
    }
}
