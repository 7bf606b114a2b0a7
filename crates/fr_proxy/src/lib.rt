//! Sequencers, which number batches, and proxies, which commit them.
#![tactic(auto)]

mod fault;
mod heeded;
mod laws;
mod number;
mod outcome;
mod proxy;
mod sequencer;
mod under_way;

pub use fault::SubmitFault;
pub use heeded::Heeded;
pub use laws::{account_law, committed_law, growth_law, heard_law, kept_law, stored_law};
pub use number::{Number, Place};
pub use outcome::Outcome;
pub use proxy::Proxy;
pub use sequencer::Sequencer;
