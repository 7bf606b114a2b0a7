//! Laws of the bytes of batches: each batch has one spelling, and no spelling begins another.
ghost use Rattle.fr_mutation.specs.Law.{SpellingIsRead, OneSpelling, ReadWithinLimits, NoSpellingBeginsAnother};

/// The bytes of a batch are read as that batch, all of them, whatever follows.
pub fn spelling_is_read()
    ensures { SpellingIsRead }
{}

/// A batch is read, with so many bytes used, exactly if these bytes are its spelling: there is no
/// second one. What is read is within the limits.
pub fn one_spelling()
    ensures { OneSpelling }
{}

/// No more bytes are used than there are, and what is read is a batch within the limits.
pub fn read_within_limits()
    ensures { ReadWithinLimits }
{}

/// No spelling begins another: a front that spells a batch spells no other one, nor the same one with
/// more bytes.
pub fn no_spelling_begins_another()
    ensures { NoSpellingBeginsAnother }
{}
