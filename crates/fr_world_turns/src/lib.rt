//! What happened in a world: its turns, kept so that who is gone, what was sent and what was told is found in a
//! logarithm of how much happened.
#![tactic(auto)]

mod entering;
mod finding;
mod keys;
mod places;
mod turn;
mod turns;

pub use turn::Turn;
pub use turns::Turns;
