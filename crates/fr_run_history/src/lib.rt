//! What clients see of a run: that batches are committed in the order of real time, that with reads at settled versions
//! it is strictly serializable, and that it is what one abstract machine would show them.
#![tactic(auto)]

pub mod example;
pub mod laws;
