//! Asks, tells and last states of all nodes under one type each, the machines whose asks these are,
//! and what sequencers are asked.
#![tactic(auto)]

mod ask;
mod last;
mod laws;
mod named;
mod rows;
mod sequencer;
mod tell;

pub use ask::Ask;
pub use last::Last;
pub use laws::same_law;
pub use named::Named;
pub use rows::Rows;
pub use sequencer::{SeqAsk, SeqRefusal, SeqTell};
pub use tell::Tell;
