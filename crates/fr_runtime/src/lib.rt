//! The running cluster: threads that commit, pull, recover and crash over shared nodes, and the audit of what they did.
#![tactic(auto)]

mod cluster;
mod fault;
mod gathered;
mod handed;
mod job;
mod orders;
mod prepare;
mod spawn;

pub use cluster::{Cluster, Report};
pub use fault::RunFault;
pub use fr_audit::{AuditFault, World};
pub use fr_audit_journal::Journal;
pub use fr_run::Config;
pub use fr_runtime_station::{Blow, Chosen, Faults, NoFaults, Verdict};
pub use fr_runtime_threads::{Order, PlainRack, Rack, Workload};
pub use orders::Orders;
