//! Recoverers: how an epoch is ended and the next one opened.
//!
//! # Invariants
//!
//! Lines that rely on one of these cite its number.
//!
//! 1. A recoverer is in a phase only if it has what the phase requires (`IsRecoverer`; `laws::kept_law`): a parent
//!    from Locking on, a plan from Copying on, all new logs seeded for Writing and Chosen. Chosen is final
//!    (`RecGrows`). Otherwise a late reply could put it into a phase whose requests it cannot make, or contradict
//!    those already sent.
//! 2. The first set of replies that covers fixes the plan, and nothing changes its state or its generation later
//!    (`PlanGrows`; `laws::recovery_law`). Seeds and writes of two plans under one ballot would give one epoch two
//!    histories.
//! 3. A plan has `pev <= rv`, and `rv + 1` is a version (`IsMadeOf`; `laws::write_law`). Otherwise there would be no
//!    range to copy, or no version for the mark.
//! 4. Replies cover once more than m - k logs of the old generation replied, each counted once (`laws::end_law`;
//!    `IsEnd`). Only then does each tag have a holder among them, so that every version through `rv` can be copied.
//! 5. A log is seeded from a complete copy alone, and each time with the same seed (`SeedIsOfCopied`, `SeedsAreOne`).
//!    A log refuses a second, different seed, so a seed from half a copy would lose records for good.
//! 6. The state is written only after all new logs answered Seeded (`WrittenIsSeeded`). From the first Write on it
//!    may be chosen, whatever becomes of this recoverer, and then the next recovery looks for its records in these
//!    logs alone.
//! 7. Under its ballot it writes one value: what is left of its parent, with the new generation behind it
//!    (`WriteIsParentExtended`). The register is safe only if a ballot has one value (`register_law` of fr_register),
//!    made from what its own majority promised.
//! 8. The mark is pushed only once the state is chosen, and all its pushes are equal (`MarkIsChosen`, `MarksAreOne`).
//!    It tells storage servers to roll back, which nothing could take back.
//! 9. Locks, covering and the copy go by the m and k of the old generation, seeds and marks by those of the new one
//!    (`IsMadeOf`, `seed_for`). With the wrong k too few replies would seem to cover.
//! 10. A generation is dropped only if every tag is shown popped past the versions that it numbered, and never the
//!     last one (`laws::dropping_law`). Otherwise a storage server that is behind would find no log with the records
//!     that it lacks.
//! 11. A hear that runs out of memory changes nothing (the clause `err` of `Recoverer::hear`): the requests are made
//!     first, and the state is changed once nothing can fail. Otherwise a phase could be entered whose requests were
//!     never sent.
//! 12. A recoverer that is lost keeps everything but its phase (`lost` of specs/Hear.antt). Its writes may still be
//!     chosen later, and laws about chosen states read the plan from it.
#![tactic(auto)]

mod asks;
mod draft;
mod end;
mod end_tally;
mod going;
mod hear;
pub mod laws;
mod pending;
mod phase;
mod recoverer;
mod reply;
mod standing;
mod why;

pub use end::{EpochEnd, Inconsistent, ReplyFault};
pub use end_tally::EndTally;
pub use phase::Phase;
pub use recoverer::Recoverer;
pub use reply::Reply;
pub use why::LostWhy;
