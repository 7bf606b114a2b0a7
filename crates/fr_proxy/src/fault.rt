//! Why a proxy does not take a batch.
use thiserror::Error;

/// Why a proxy does not take a batch. Of several reasons the first in the order of these variants is
/// told; the proxy is then as it was.
#[derive(Clone, Copy, Debug, PartialEq, Eq, Error)]
pub enum SubmitFault {
    /// It has a batch under way.
    #[error("a batch is under way")]
    TwoOpen,
    /// It ended, or its requests are spent: it takes no more batches.
    #[error("the proxy takes no more batches")]
    Over,
    /// There is no memory. A proxy never answers this, since `submit` takes none; a caller that takes
    /// memory around it can.
    #[error("out of memory")]
    Memory,
}
