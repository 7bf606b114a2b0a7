//! Why two files in turn are not opened.
use std::alloc::{AllocError, AllocFailed};
use thiserror::Error;

/// Why two devices were refused as a pair of files. In the order of the variants their numbers are 1 to 5.
#[derive(Clone, Copy, Debug, PartialEq, Eq, Error)]
pub enum OpenFault {
    /// Neither device holds a file: none was made, or a crash came while they were made.
    #[error("the devices hold no files")]
    Unmade,
    /// A file is another owner's.
    #[error("the files are another owner's")]
    Stranger,
    /// A device holds neither nothing nor a file of a pair, or the two are no pair: both files have one number, or a
    /// device beside a file is too short to hold nothing. So bytes are damaged.
    #[error("the bytes are no record file")]
    Broken,
    /// A device failed.
    #[error("the device failed")]
    Device,
    /// A growth of memory was refused.
    #[error("out of memory")]
    Memory,
}
