//! The coordinated state: the generations of logs, which the coordinators keep, and its bytes.
#![tactic(auto)]

mod fault;
mod generation;
mod laws;
mod look_up;
mod reading;
mod spelling;
mod state;

pub use fault::{StateDecodeFault, StateFault};
pub use generation::Generation;
pub use laws::{
    cut_law, drop_law, equal_law, extend_law, front_law, going_law, left_law, next_law, order_law,
    owner_law, source_law, spelling_law,
};
pub use reading::decode;
pub use spelling::encode;
pub use state::CoordState;
