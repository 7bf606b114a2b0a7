//! Two ballots that contend over three cells: each case is a caller of the register's public contracts
//! alone, proved for all values. The first ballot reaches the left and the middle cell, the second the
//! middle and the right one. And a history of three ballots, to which the register's law applies.
#![tactic(auto)]

mod descent;
mod overlap;
mod phases;
mod scenes;
mod sequence;

pub use descent::descended;
pub use overlap::overtaken;
pub use phases::ReadOutcome;
pub use scenes::{Attempt, Cells, SceneEnd};
pub use sequence::in_turn;
