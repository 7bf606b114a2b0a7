//! The lines of a process that serves a node: what it is asked, read from a line of JSON, and what it answers, written
//! as one.
#![tactic(auto)]

mod envelope;
mod fault;
mod members;
mod names;
mod reading;
mod writing;

pub use envelope::Envelope;
pub use fault::{BadLine, LineFault, Member};
pub use fr_forms::ScriptFault;
pub use fr_script::simulate::read_config;
pub use reading::{Line, read_line};
pub use writing::{write_error, write_reply};
