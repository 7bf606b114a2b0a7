//! The command `cluster` of `fdbrec` as a function over a writer: a cluster that runs in threads, and the audit of what
//! its nodes did.
#![tactic(auto)]

mod cluster;
mod counts;
mod options;
mod progress;
mod report;
mod setting;

pub use cluster::{ClusterPlan, cluster_counted, run_cluster, run_cluster_on};
pub use counts::{Counts, CountsLine};
pub use fr_runtime::{PlainRack, Rack};
pub use fr_runtime_station::{Faults, NoFaults};
pub use fr_runtime_storm::{Frailty, RefusedCalls, Storm};
pub use options::{ClusterOptions, ClusterWords, DEFAULTS};
pub use progress::{ProgressLine, Watcher};
pub use setting::storm_of;
