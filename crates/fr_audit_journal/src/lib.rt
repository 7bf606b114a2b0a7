//! Journals: what each node did, act by act, in the order of its stamps; and nodes with theirs: what a node was asked and
//! told, entry by entry, which replays to it.
#![tactic(auto)]

mod act;
mod call_fault;
mod fault;
mod housable;
mod housed;
mod journal;
mod kept;
pub mod laws;
mod machines;
mod merging;
mod names;
mod served;

pub use act::{Act, Entry};
pub use call_fault::CallFault;
pub use fault::JournalFault;
pub use housable::Housable;
pub use housed::Housed;
pub use journal::Journal;
pub use kept::AskInDoubt;
pub use merging::{NodeEntry, merge};
pub use names::node_text;
