//! Nodes that a process serves, turn by turn: what each enters in its journal, and what it answers. Cells, logs and
//! sequencers answer asks; proxies, recoverers and storage servers ask others.
#![tactic(auto)]

mod acting;
mod ahead;
mod answering;
mod begun;
mod course;
mod drafts;
mod fault;
mod groups;
mod passive;
mod proxies;
mod pulls;
mod reads;
mod recoverers;
mod reply;
mod stamps;
mod stand;
mod storages;
mod turn;
mod wants;

pub use acting::Acting;
pub use ahead::{Reach, is_ahead};
pub use answering::Answering;
pub use course::Course;
pub use fault::{Crash, NodeTurnFault, TurnRefusal};
pub use groups::{Apart, Grouping, Groups};
pub use passive::{Passive, crash_at};
pub use proxies::ProxyNode;
pub use recoverers::RecovererNode;
pub use reply::{NodeReply, NodeRequest, answer};
pub use stamps::stamp_above;
pub use stand::{Stand, stand_from};
pub use storages::StorageNode;
pub use turn::{Hearing, Kind, Newest, NodeTurn, Round};
pub use wants::Wants;
