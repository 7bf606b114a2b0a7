//! That recoveries end: a recoverer of which enough nodes answer comes to an end within a number of rounds, whatever else
//! happens in them.
#![tactic(auto)]

pub mod laws;
