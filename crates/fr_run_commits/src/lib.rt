//! That commits go on: a batch that is submitted to an epoch that serves comes to be committed, and to be stored by every
//! storage server.
#![tactic(auto)]

pub mod example;
pub mod laws;
