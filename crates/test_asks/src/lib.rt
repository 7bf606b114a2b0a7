//! What a row of a scenario asks, what is given with it, and why it cannot be played.
#![tactic(auto)]

mod asks;
mod wrong;

pub use asks::{RowAsk, items, json_of, read_as};
pub use wrong::{NO_FORM, Wrong, said};
