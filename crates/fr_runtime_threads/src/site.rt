//! What the threads of a cluster share.
use crate::Rack;
use fr_run::Config;
use fr_runtime_station::Directory;
use std::alloc::Global;

/// What each thread of a cluster is lent: the config, the nodes that answer asks, the rack from which the logs of later
/// generations come, and the faults.
#[derive(Drop)]
pub struct Site<'a, K: Rack, F, R> {
    pub rt: &'a R,
    pub alloc: Global,
    pub config: &'a Config,
    pub directory: &'a Directory<K::Cell, K::Log>,
    pub rack: &'a K,
    pub faults: &'a F,
}
