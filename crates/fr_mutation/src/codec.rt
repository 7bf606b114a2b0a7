//! Batches as bytes. All numbers are big-endian. The byte of the format, the number of mutations (2
//! bytes), and then each mutation:
//!
//! | Kind | Body |
//! |---|---|
//! | 01 set | key length (2), key, value length (4), value |
//! | 02 clear | begin length (2), begin, end length (2), end |
//! | 03 add, 04 and, 05 or, 06 xor, 07 max, 08 min | as set, the parameter in the value's place |
//! | 09 compare-and-clear | as set |
//!
//! The format is 02 for a batch with a compare-and-clear, and 01, which has no kind 09, for any other.

mod fault;
mod fields;
mod format;
mod kind;
mod laws;
mod reading;
mod writing;

pub use fault::DecodeFault;
pub use laws::{no_spelling_begins_another, one_spelling, read_within_limits, spelling_is_read};
pub use reading::decode;
pub use writing::encode;
