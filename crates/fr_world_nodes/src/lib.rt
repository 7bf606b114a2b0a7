//! The nodes of a world as it keeps them, by their names. Here is what each ask and each tell makes of them, what
//! they start as, and what it means that they are those of what happened. Each call makes one turn of one node, and the
//! nodes stay those of a run. A world is made of them in the crate above, which says which event is which turn, or why it
//! is refused.
#![tactic(auto)]

pub mod called;
pub mod cells;
pub mod logs;
mod nodes;
pub mod opened;
pub mod proxies;
pub mod recoverers;
pub mod sequencers;
pub mod start;
pub mod storages;
mod told;

pub use nodes::Nodes;
pub use told::Told;
