//! A store of a shard in SQL, under the contract of every store. What it keeps is in three tables, each
//! call that writes is one transaction, and a crash leaves what was there before a call or what it made.
#![tactic(auto)]

mod restart;
mod sql_store;

pub use restart::{found_law, restart_law};
pub use sql_store::{OpenFault, SEED, SqlStore};
