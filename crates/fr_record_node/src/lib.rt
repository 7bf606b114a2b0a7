//! Nodes over devices: a machine whose changes are records of a file, and the records of cells.
#![tactic(auto)]

mod cell_file;
mod fault;
mod file_node;
pub mod laws;
mod recorded;

pub use cell_file::CellNode;
pub use fault::RecordReadFault;
pub use file_node::FileNode;
pub use recorded::Recorded;
