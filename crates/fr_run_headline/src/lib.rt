//! The laws over whole runs: the order of versions, what an epoch issues, that its logs hold exactly their parts of
//! it, what storage servers follow, and what is committed.
//!
//! # Invariants
//!
//! Each holds at every moment of every run, and is a law here. They are in the order in which they rest on one
//! another. Lines that rely on one cite its number.
//!
//! 1. The versions that an epoch numbers are one chain from its mark on (`versions::number_law`). Otherwise two
//!    batches could have one version, or a log could wait for one that nobody gave.
//! 2. A log holds its epoch's mark and numbers through its durable version, and no other push (`logs_law`). So
//!    `durable` alone says which batches it has.
//! 3. What a log replied to a lock stays true of it, and so does what a recoverer counted (`locks_law`). A recovery
//!    decides from replies that are old when it reads them.
//! 4. All logs of an epoch are seeded before its state is written to any cell (`seeded_law`). From then on the state
//!    may be chosen, and a log without its seed would be a hole in what is committed.
//! 5. What is known or acknowledged in an epoch, each of its logs has reached, or it is below the epoch's first
//!    version (`known_law`). A proxy answers Committed only once all m logs hold the version; with fewer, a recovery
//!    that hears only the others would not take it over.
//! 6. Replies that cover agree: `pev` is at most `rv` (`versions::order_law`). Hence no recoverer is lost as
//!    Inconsistent.
//! 7. What every log of an epoch has reached is held by each generation behind it on a line, and by the logs that
//!    reply to any later recoverer (`below_law`, `replied_law`). So each recovery takes over whatever was
//!    acknowledged before.
//! 8. What an epoch issued through a version that it numbered never changes (`contents::issued_law`), and through
//!    each cut of its line it is the same as what the earlier epoch issued (`laws::agree_law`). So a storage server
//!    may keep what it has below the cut.
//! 9. Each seeded log has exactly its tags' parts of what its epoch issues, and peeks and copies are such parts
//!    (`contents_law`). Servers build their maps of nothing else.
//! 10. Each storage server follows its own epoch, which is chosen, also one that ran ahead, skipped epochs or broke
//!     off a hear (`follow_law`). No hear is refused as Stranger or BelowFloor, so a server never has to be made
//!     anew.
//! 11. No floor is above a cut of its epoch, and no log has let go of more than the tag's storage server has for good
//!     (`laws::order_law`, `let_go_law`). Otherwise an undo would lack its rows, or a pull its records.
//! 12. The committed list only grows (`committed_law`), and each acknowledged batch stands in it at its version for
//!     good (`acknowledged_law`, `headline_law`). This is what clients rely on.
#![tactic(auto)]

pub mod contents;
pub mod laws;
pub mod versions;
