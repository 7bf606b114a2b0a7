//! What threads share: nodes with their journals behind locks, which of them are there, and the faults that they meet.
//!
//! # Invariants
//!
//! Lines that rely on one of these cite its number.
//!
//! 1. Whenever the lock of a station is free, its journal replays to its node (the type invariant of `Housed`). So a
//!    turn is taken whole under one lock: request, reply, entry. Were it released in between, the journal would lack
//!    what others saw.
//! 2. No thread holds two of these locks, and nobody is asked for faults or waited for while one is held. No clause
//!    says so, but each call here takes one lock for one statement: with two, threads could wait for each other for
//!    ever.
//! 3. The stamp of a reply is above the caller's, and above the one from which on the node is there (the clauses
//!    `above` and `called`). Otherwise a request could be entered before the seed from which the log answers it, and
//!    the journals would be no run.
//! 4. A node in a place is the node of that place (`named`, `found`). What is under a lock, or is written once, is
//!    known to a contract by its type alone, so the type has to say it.
//! 5. The nodes of a later epoch are published once: what came first stays (`OnceLock`). Threads that found a node
//!    keep it without a lock, so it must not be exchanged.
//! 6. The nodes of the first epoch are there from the start, and only those of later epochs may be lacking
//!    (`must_lack`, `may_lack`). Otherwise a body that always answers NotThere would meet every clause.
//! 7. Every wait ends: after two seconds, at the version, or once nobody pushes it any more. A thread waits for a
//!    version below the one that it is going to push, so no threads wait in a circle. No contract rests on what a
//!    wait answers.
#![tactic(auto)]

mod answering;
mod cells;
mod chosen;
mod closing;
mod directory;
mod directory_fault;
mod epoch_nodes;
mod faults;
mod first_nodes;
mod held;
mod station;

pub use chosen::{Chosen, first_stamp};
pub use directory::Directory;
pub use directory_fault::DirectoryFault;
pub use faults::{Blow, Faults, NoFaults, Verdict};
pub use station::Station;
