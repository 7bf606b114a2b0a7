//! The command `node` of `fdbrec` as a function over a reader and a writer: a node that reads lines of JSON and answers
//! each by one line.
#![tactic(auto)]

mod cells;
mod commands;
mod database;
mod fault;
mod files;
mod lines;
mod logs;
mod nodes;
mod pairs;
mod serving;
mod storages;
mod together;
mod waiting;
mod words;

pub use commands::node_command;
pub use fault::NodeEnd;
pub use nodes::run_node;
pub use serving::{MAX_LINE, serve};
pub use words::{Home, LogWords, NodeStart, NodeWords, Opening, StoreFolder, read_node_words};
