//! The machines of a cluster as one type, for whoever holds any of them in one place: a host, or a caller in another
//! language. For a caller in C also a machine on the heap, and what each call of the library does with it.
#![tactic(auto)]

mod answering;
pub mod calls;
mod fault;
mod handle;
mod hearing;
mod lone;
mod part;
mod reading;
mod said;
mod seat;
mod standing;
mod stores;

pub use fault::{PartFault, ReadRefusal};
pub use handle::Handle;
pub use part::Part;
pub use said::{Heard, Said};
pub use seat::Seat;
