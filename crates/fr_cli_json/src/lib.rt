//! What every command of `fdbrec` reads and writes with: a whole input, values of JSON from its tokens and
//! from its tree, and texts. Calls of readers and of writers are counted, so that a fault names what failed.
#![tactic(auto)]

mod calls;
mod fault;
mod hex_text;
mod input;
mod mutations;
mod output;
pub mod tokens;
pub mod tree;

pub use calls::CallCounts;
pub use fault::CliFault;
pub use input::{MAX_READS, READ_SIZE, read_input};
pub use mutations::Mutations;
pub use output::{put, put_bytes};
