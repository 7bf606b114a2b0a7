//! Numbers, byte strings, maps and machines that every crate above speaks of.
#![tactic(auto)]

mod ballot;
mod bytes;
mod machine;
mod memory;
mod node;
mod order;
mod place;
mod shape;
mod version;

pub use ballot::{Ballot, Epoch, Stamp};
pub use bytes::Bytes;
pub use machine::Machine;
pub use memory::Memory;
pub use node::{InMemory, Node, NodeFault, Reopened};
pub use place::{LogId, NodeId, Tag};
pub use shape::Shape;
pub use version::{Step, Version};
