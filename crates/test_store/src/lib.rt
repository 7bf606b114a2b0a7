//! A store whose device fails in one call, for tests of what is built on a store.
#![tactic(auto)]

mod failing;

pub use failing::FailsOnce;
