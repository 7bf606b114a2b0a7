//! The lines of faults.
ghost use Rattle.std.specs.Prelude.{◌≡◌, string_bytes, IfOk};
ghost use Rattle.fr_cli_audit.specs.Lines as lines;

use fr_audit::AuditFault;
use fr_audit_journal::node_text;
use std::alloc::{AllocError, Global};

/// The line of a fault; nothing out of memory.
pub fn fault_text(alloc: Global, fault: &AuditFault) -> Result<String, AllocError>
    ensures { IfOk result (λ text. string_bytes text ≡ lines.fault_line fault.now) }
{
    match fault {
        AuditFault::NotARun { at } => format!(in alloc; "not a run at {at}\n"),
        AuditFault::TellDiffers { at } => format!(in alloc; "tell differs at {at}\n"),
        AuditFault::StateDiffers { node } => {
            let node = node_text(alloc, *node)?;
            format!(in alloc; "state differs at {node}\n")
        }
        AuditFault::Memory => Ok(String::new(alloc)),
    }
}
