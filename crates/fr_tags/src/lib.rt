//! Shards of the keys, and the logs that hold each shard's mutations.
#![tactic(auto)]

mod body;
mod fault;
pub mod laws;
mod map;
mod placement;
mod split;

pub use body::Body;
pub use fault::ShardFault;
pub use map::{MAX_SHARDS, ShardMap, tag_at};
pub use placement::{MAX_LOGS, covers, holders, is_held};
