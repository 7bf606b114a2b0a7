//! Logs, in bytes.
ghost use Rattle.std.specs.Prelude.{◌≡◌, ◌≢◌, ◌↔◌, ◌∷◌, [], true, false};
ghost use Rattle.fr_log.specs.declared.ask.LogAsk.TheVariants as log_ask;
ghost use Rattle.fr_ask.specs.declared.ask.Ask.TheVariants as ask;
ghost use Rattle.fr_part.specs.Seat.{seat_after};
ghost use Rattle.fr_part.specs.Answers.{IfBatch, IsHeld, IsLogRefused, IsNoBatch, IsNoPeek, IsNoPush, IsPeekedShort, IsPeekedWhole, push_of, push_status};
ghost use Rattle.fr_part.specs.Calls.{IsTurn, Over, IsAmong, is_answered};
ghost use Rattle.fr_part.specs.Turn.{is_log};

use fr_part::Handle;
use fr_part::calls::logs::{PeekNumbers, PushNumbers, give_peeked, peek_tag, push_body};
use std::alloc::Global;

/// Pushes the batch of one tag to a log. `held` is the version that the log answers to hold. A push of several tags is
/// a line of `fdbrec_ask`.
#[unsafe(no_mangle)]
pub extern "C" fn fdbrec_log_push(
    alloc: Global,
    of: &mut Handle,
    at: &PushNumbers,
    batch: &[u8],
    held: &mut u64,
) -> u32
    ensures turn { Over of.old.value of.new.value result (λ old new. IsTurn (is_answered result) old new
        (IfBatch batch.now (λ ms.
        new ≡ seat_after old (ask.Log (log_ask.Push (push_of at.now ms)))))) }
    ensures ok { Over of.old.value of.new.value result (λ old new. result ≡ 0 → IsHeld new.said held.new) }
    ensures bad_text { Over of.old.value of.new.value result (λ old new. result ≡ 7 → IsNoBatch batch.now) }
    ensures limit { Over of.old.value of.new.value result
        (λ old new. result ≢ 1 → result ≢ 7 → ((result ≡ 6) ↔ IsNoPush at.now)) }
    ensures kind { Over of.old.value of.new.value result
        (λ old new. result ≢ 1 → result ≢ 6 → result ≢ 7 → ((result ≡ 4) ↔ (is_log old.part ≡ false))) }
    ensures answered { Over of.old.value of.new.value result (λ old new. is_answered result ≡ true → result ≡ push_status new.said) }
    ensures among { IsAmong (0 ∷ 1 ∷ 2 ∷ 4 ∷ 5 ∷ 6 ∷ 7 ∷ []) result }
{
    with_seat!(alloc, of, seat => push_body(alloc, &mut seat, at, batch, held))
}

/// Peeks a log for the records of a tag above a version, at most as many as it says.
#[unsafe(no_mangle)]
pub extern "C" fn fdbrec_log_peek(
    alloc: Global,
    of: &mut Handle,
    at: &PeekNumbers,
    out: &mut [u8],
    len: &mut usize,
    upto: &mut u64,
    known: &mut u64,
) -> u32
    ensures turn { Over of.old.value of.new.value result
        (λ old new. IsTurn (is_answered result) old new
        (new ≡ seat_after old (ask.Log (log_ask.Peek at.now.epoch at.now.tag at.now.after at.now.most)))) }
    ensures ok { Over of.old.value of.new.value result
        (λ old new. result ≡ 0 → IsPeekedWhole new.said out.new len.new upto.new known.new) }
    ensures short { Over of.old.value of.new.value result
        (λ old new. result ≡ 3 → IsPeekedShort new.said out.new len.new upto.new known.new) }
    ensures limit { Over of.old.value of.new.value result (λ old new. (result ≡ 6) ↔ IsNoPeek at.now) }
    ensures kind { Over of.old.value of.new.value result
        (λ old new. result ≢ 1 → result ≢ 6 → ((result ≡ 4) ↔ (is_log old.part ≡ false))) }
    ensures refused { Over of.old.value of.new.value result
        (λ old new. is_answered result ≡ true → ((result ≡ 5) ↔ IsLogRefused new.said)) }
    ensures among { IsAmong (0 ∷ 1 ∷ 2 ∷ 3 ∷ 4 ∷ 5 ∷ 6 ∷ 8 ∷ []) result }
{
    with_seat!(alloc, of, seat => peek_tag(alloc, &mut seat, at, out, len, upto, known))
}

/// Gives the answer of the last peek again. It is no turn.
#[unsafe(no_mangle)]
pub extern "C" fn fdbrec_log_answer(
    alloc: Global,
    of: &mut Handle,
    out: &mut [u8],
    len: &mut usize,
    upto: &mut u64,
    known: &mut u64,
) -> u32
    ensures same { of.new.value ≡ of.old.value }
    ensures ok { Over of.old.value of.new.value result
        (λ old new. result ≡ 0 → IsPeekedWhole new.said out.new len.new upto.new known.new) }
    ensures short { Over of.old.value of.new.value result
        (λ old new. result ≡ 3 → IsPeekedShort new.said out.new len.new upto.new known.new) }
    ensures refused { Over of.old.value of.new.value result (λ old new. (result ≡ 5) ↔ IsLogRefused new.said) }
    ensures among { IsAmong (0 ∷ 2 ∷ 3 ∷ 5 ∷ 8 ∷ []) result }
{
    with_seat!(alloc, of, seat => give_peeked(alloc, &seat.said, out, len, upto, known))
}
