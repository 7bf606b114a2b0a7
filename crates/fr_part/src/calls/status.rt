//! What a call says of itself.
ghost use Rattle.std.specs.Prelude.{◌≡◌, ◌↔◌, ◌∷◌, [], false};
ghost use Rattle.fr_part.specs.Calls.{IsAmong, is_answered, is_told};
ghost use Rattle.fr_part.specs.Fault.{IsUnasked, status_of};
ghost use Rattle.fr_part.specs.declared.fault.PartFault.TheVariants.{Kind, Memory, Part, Refused};

use crate::fault::PartFault;

/// It is done.
pub const OK: u32 = 0;
/// Out of memory: all is as it was.
pub const MEMORY: u32 = 1;
/// The handle is empty.
pub const EMPTY: u32 = 2;
/// The turn is done, and its answer did not fit: fetch it, and do not ask again.
pub const SHORT: u32 = 3;
/// Another kind of machine does that: all is as it was.
pub const KIND: u32 = 4;
/// The machine refuses, and is as it was: of a cell or a log `fdbrec_answer` says why. Of an audit: no run.
pub const REFUSED: u32 = 5;
/// A number or a length is not within its limits: all is as it was.
pub const LIMIT: u32 = 6;
/// A text or bytes are not in their form: all is as it was.
pub const BAD_TEXT: u32 = 7;
/// The turn is done, and there was no memory for the text of its answer: fetch it, and do not ask again.
pub const UNTOLD: u32 = 8;
/// A storage server ran out of memory amid an answer, of which it may have taken a front: have it hear the same again.
pub const PART: u32 = 9;
/// A cell holds another value under the ballot of the write, and is as it was.
pub const TWO_VALUES: u32 = 10;
/// The key has no value.
pub const NONE: u32 = 11;
/// The key that is read is not of the shard: all is as it was.
pub const NOT_MINE: u32 = 12;
/// The version that is read is below the floor of the storage server: all is as it was.
pub const TOO_OLD: u32 = 13;
/// The version that is read is above the one that the storage server applied: all is as it was.
pub const FUTURE_VERSION: u32 = 14;

/// The status of a machine that did not do as asked.
pub fn status_of(fault: PartFault) -> u32
    ensures status { result ≡ status_of fault }
    ensures memory { (result ≡ 1) ↔ (fault ≡ Memory) }
    ensures kind { (result ≡ 4) ↔ (fault ≡ Kind) }
    ensures refused { (result ≡ 5) ↔ (fault ≡ Refused) }
    ensures part { (result ≡ 9) ↔ (fault ≡ Part) }
    ensures among { IsAmong (1 ∷ 4 ∷ 5 ∷ 9 ∷ []) result }
    ensures untold { is_told result ≡ false }
    ensures unasked { IsUnasked fault → IsAmong (1 ∷ 4 ∷ []) result × (is_answered result ≡ false) }
{
    match fault {
        PartFault::Memory => MEMORY,
        PartFault::Kind => KIND,
        PartFault::Refused => REFUSED,
        PartFault::Part => PART,
    }
}
