//! Why JSON is not in its form.
use thiserror::Error;

/// Why no value was read. Their numbers are 1 and 2, in the order of these variants.
#[derive(Clone, Copy, Debug, PartialEq, Eq, Error)]
pub enum ScriptFault {
    /// The text is no JSON, or is not in the form that is read.
    #[error("bad script")]
    BadScript,
    /// There is no memory.
    #[error("out of memory")]
    Memory,
}
