//! Places in the chain of versions.
use fr_base::Version;

/// The place of a batch in the chain: its version, and the version before it.
#[derive(Clone, Copy, Debug, PartialEq, Eq)]
pub struct Place {
    pub prev: Version,
    pub version: Version,
}

/// The number that a proxy's request was given.
#[derive(Clone, Copy, Debug, PartialEq, Eq)]
pub struct Number {
    pub request: u64,
    pub prev: Version,
    pub version: Version,
}
