//! A store of a shard in the tables of a database in two files, which it opens again after a fault.
#![tactic(auto)]

mod kept;
mod own;
mod shut;
mod sql_file_store;
mod table_store;
mod tables;

pub use fr_sql_store::OpenFault;
pub use kept::Kept;
pub use sql_file_store::SqlFileStore;
pub use table_store::TableStore;
pub use tables::FileTables;
