//! The copy of what an epoch takes over from the one before.
#![tactic(auto)]

mod fault;
pub mod laws;
mod part;
mod seeding;
mod tail;

pub use fault::TailFault;
pub use tail::Tail;
