//! Audits: whether journals are a run of a world. Which event an entry of a journal is, what it says of the world's
//! answer, the first fault of some journals with what the rules say there, and that there is none exactly if they are
//! a run. If an audit has no fault, what holds of every run holds of what the journals tell.
#![tactic(auto)]

mod checking;
mod entry;
mod fault;
mod finding;
pub mod laws;
mod numbered;

pub use checking::{audit, examine};
pub use entry::{event_of, says};
pub use fault::AuditFault;
pub use finding::{Cause, Finding};
pub use numbered::entry_at;
/// The world that an audit answers.
pub use fr_world::World;
