//! A write that the disk below refused.

/// The range of a write that failed below. The bytes that it was to get are those of the copy.
#[derive(Clone, Copy, Debug, PartialEq, Eq)]
pub(crate) struct Due {
    pub(crate) at: usize,
    pub(crate) end: usize,
    /// Bytes of the file before the write: from here to `at` is the gap that it left, if it began past the end.
    pub(crate) old_len: usize,
}
