//! The command `simulate` of `fdbrec` as a function over a reader and a writer: the steps of a script on a world.
#![tactic(auto)]

mod exchange;
mod lines;
mod names;
mod pending;
mod simulate;
mod steps;

pub use simulate::{run_simulate, simulate_counted};
