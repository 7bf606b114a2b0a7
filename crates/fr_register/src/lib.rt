//! The register that a majority of cells keeps: cells, tallies of what they answer, and the law of what
//! is written after a choice.
#![tactic(auto)]

mod ask;
mod cell;
mod laws;
mod poll;
mod read_tally;
mod value;
mod write_tally;

pub use ask::{CellAsk, CellTell};
pub use cell::Cell;
pub use laws::{answer_law, cell_law, faithful_law, parent_law, register_law, tally_law};
pub use poll::{CellPoll, Progress};
pub use read_tally::ReadTally;
pub use value::CellValue;
pub use write_tally::WriteTally;
