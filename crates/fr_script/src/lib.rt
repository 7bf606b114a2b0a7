//! The scripts of `simulate` and of `audit`: a config with steps, or with journals, read from JSON text.
#![tactic(auto)]

pub mod audit;
pub mod simulate;
