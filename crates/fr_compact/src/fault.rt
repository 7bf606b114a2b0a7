//! Faults of files, as nodes tell them.
ghost use Rattle.std.specs.Prelude.{◌≡◌};
ghost use Rattle.fr_record_node.specs.Node.{node_fault};

use fr_base::NodeFault;
use fr_record::RecordFault;

/// The fault of a node whose file has this fault.
pub(crate) fn node_fault(fault: RecordFault) -> NodeFault
    ensures { result ≡ node_fault fault }
{
    match fault {
        RecordFault::Device => NodeFault::Device,
        RecordFault::Full => NodeFault::Full,
        RecordFault::Failed => NodeFault::Failed,
        RecordFault::Memory => NodeFault::Memory,
        RecordFault::Broken => NodeFault::Broken,
    }
}
