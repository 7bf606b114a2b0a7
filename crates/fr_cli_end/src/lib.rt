//! The command `end` of `fdbrec` as a function over a reader and a writer.
#![tactic(auto)]

mod end;
mod lines;
mod options;
mod script;
mod tokens;
mod tree;

pub use end::{end_counted, run_end};
pub use options::EndOptions;
