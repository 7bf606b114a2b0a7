//! Why numbers make no config.
use thiserror::Error;

/// Why numbers make no config. Of several reasons the first in the order of these variants is told. In that order
/// their numbers are 1 to 4; 5 is `Memory`, which `Config::new` never answers.
#[derive(Clone, Copy, Debug, PartialEq, Eq, Error)]
pub enum ConfigFault {
    /// There are not 1, 3, 5, 7 or 9 coordinators.
    #[error("there are not 1, 3, 5, 7 or 9 coordinators")]
    Coordinators,
    /// There are not 1 to 16 logs, or not 1 to as many of them hold each tag.
    #[error("there are not 1 to 16 logs of which 1 to all hold each tag")]
    Logs,
    /// The begins make no shard map.
    #[error("the begins cut no keys into shards")]
    Shards,
    /// There are not 1 to 16 proxies.
    #[error("there are not 1 to 16 proxies")]
    Proxies,
    /// There is no memory.
    #[error("out of memory")]
    Memory,
}
