//! Histories: what cells, logs, sequencers, proxies, recoverers and storage servers did, turn by turn, and what is true
//! of every run of them: who is there, what was asked, and which states are chosen. And what a run is told in: what it
//! starts from, its events, and what others see of a node's last state. Of events: which may happen, the turn that each
//! is, what it answers, and lists of events from the start. A list of events either is a run of all nodes, or is refused
//! at the first event that cannot happen. (Cells, logs and sequencers say their last states themselves, as `Named`.)
#![tactic(auto)]

mod answer;
mod config;
mod config_fault;
mod event;
pub mod event_laws;
mod last;
pub mod laws;
mod not_enabled;
mod phase;
mod pulls;
mod told;

pub use answer::Answer;
pub use config::Config;
pub use config_fault::ConfigFault;
pub use event::Event;
pub use last::{last_of_proxy, last_of_recoverer, last_of_storage};
pub use not_enabled::NotEnabled;
pub use phase::{phase_text, why_name};
pub use pulls::{holder_at, log_at, of_epoch};
pub use told::take_told;
