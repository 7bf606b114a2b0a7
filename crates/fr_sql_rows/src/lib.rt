//! The rows of a shard's store in SQL: its tables, what their rows stand for, and each statement that reads
//! or writes them, with what it does to the keys, the undo rows and the versions. What is found in the tables of a
//! database that was opened is not trusted: its schema is compared with that of a store, and its versions and undo rows
//! are read and checked. What the library says of every database that it opens, that it obeys its own schema, then says
//! that the tables are those of a store.
#![tactic(auto)]

mod backing;
mod fault;
mod found;
pub mod kv;
pub mod meta;
mod open;
mod refused;
pub mod schema;
mod schema_test;
pub mod undo;

pub use backing::{Backing, FaithfulDisk};
pub use fault::fault_of;
pub use found::{Found, find};
pub use open::{has_no_table, open_again, open_over};
pub use refused::{Refusals, Refused, Shut, Trouble, commit, one_more, works};
