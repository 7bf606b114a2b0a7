//! Laws of copies.
ghost use Rattle.fr_tail.specs.Copied.{CompleteIsCopied, HearCopies, NewIsCopied, SeedHasCopied, SeedRises, SeedsAreWhole};
ghost use Rattle.fr_tail.specs.Law.{CompleteStays, HearKeepsEnds};
ghost use Rattle.fr_tail.specs.Refusals.{HoleIsAbove, NotResponderIsFirst, ShortIsEmpty};

/// A copy keeps its ends, and does not change once it is complete.
pub fn tail_law()
    ensures ends { HearKeepsEnds }
    ensures complete { CompleteStays }
{}

/// When an answer is refused, and which of several reasons is told.
pub fn refusal_law()
    ensures not_responder { NotResponderIsFirst }
    ensures hole { HoleIsAbove }
    ensures short { ShortIsEmpty }
{}

/// A copy that hears true answers, as far as they are of responders, has of each tag all records through
/// what is reached. Once it is complete its seeds have exactly the records of the log's tags above `pev`
/// through `rv`, by version and then by tag.
pub fn copy_law()
    ensures start { NewIsCopied }
    ensures hear { HearCopies }
    ensures complete { CompleteIsCopied }
    ensures seeds { SeedHasCopied }
    ensures rising { SeedRises }
    ensures whole { SeedsAreWhole }
{}
