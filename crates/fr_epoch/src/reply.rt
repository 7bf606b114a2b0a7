//! What a locked log replies.
use fr_base::Version;

/// The reply of a log to its lock: the log's number, the greatest version that it holds, and the
/// greatest version that it knows to be committed.
#[derive(Clone, Copy, Debug, PartialEq, Eq)]
pub struct Reply {
    pub log: u8,
    pub durable: Version,
    pub known: Version,
}
