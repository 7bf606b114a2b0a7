//! Storage servers: they pull what is logged, and take back what did not survive.
//!
//! # Invariants
//!
//! Lines that rely on one of these cite its number.
//!
//! 1. While it is not failed, a server keeps beside its store exactly what the store has: the state, the version
//!    applied and the floor (`IsServer`). Requests are answered from what is kept, so a difference would make a
//!    server ask for records that it has, or skip some.
//! 2. A version alone names no commit, since the next epoch numbers again the versions that did not survive. So a
//!    position is (epoch, version), and records count only if their epoch is the source of the version after the one
//!    applied (`peeked_fault`).
//! 3. Records are applied in rising versions, without a hole, and not past the end of their generation
//!    (`new_records`, `position_law`). Past the end the versions belong to the next generation, with other batches.
//! 4. Only a later state lowers the version applied, and only to the cut of the epoch that the server leaves
//!    (`position_law`). Through this cut both epochs have the same commits; below it acknowledged ones would be
//!    undone.
//! 5. The undo comes before the new state is stored (`marked_calls`; the clause `leaves` of `hear_marked`). In the
//!    other order a crash in between would leave a server that names the new epoch and holds commits that did not
//!    survive.
//! 6. The floor rises to the smaller of `known` and the version applied, and never above (`position_law`). Undo rows
//!    above `known` are needed still: these commits may be taken back.
//! 7. If the store refuses a call, the server answers `Store(Failed)` until it is opened again (the clauses `fails`
//!    and `still`). It knows neither how many calls took effect nor, then, its own position.
//! 8. Wherever a hear breaks off, the store is as after some of its calls, in order (`LeavesStages`). Each such state
//!    still follows the server's epoch (`storage_law`), so the same answer can simply be heard again.
//! 9. A refusal that is not the store's comes before its first call, and changes nothing (the clause `same`). Late
//!    and early answers are common, and must not cost a reopening.
#![tactic(auto)]

mod answer;
mod fault;
mod laws;
mod storage;
mod taking;

pub use answer::{LogAnswer, mark_ask};
pub use fault::{ReadFault, StorageFault};
pub use laws::{follow_law, piece_law, position_law, storage_law, store_laws};
pub use storage::Storage;
pub use taking::{take_marked, take_peeked};
