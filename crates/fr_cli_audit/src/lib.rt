//! The command `audit` of `fdbrec` as a function over a reader and a writer: whether journals are a run, and what a
//! fault is.
#![tactic(auto)]

mod audits;
mod differing;
mod explained;
mod lines;

pub use audits::{Judged, audit_counted, run_audit};
pub use explained::finding_text;
pub use lines::fault_text;
