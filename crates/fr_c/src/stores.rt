//! Stores in memory, in bytes.
ghost use Rattle.std.specs.Prelude.{◌≡◌, ◌≢◌, ◌<◌, ◌≤◌, ◌^◌, ◌↔◌, ◌∷◌, [], true, false, None};
ghost use Rattle.std.specs.FinMap as map;
ghost use Rattle.fr_undo.specs.Undo.{extended, undone, forgotten};
ghost use Rattle.fr_part.specs.Store.{BecomesStore, IfStore, is_store};
ghost use Rattle.fr_part.specs.Answers.{IfBatch, IsGiven, IsNoBatch, IsShort};
ghost use Rattle.fr_part.specs.Calls.{IfFound, Over, IsAmong};

use fr_part::Handle;
use fr_part::calls::stores::{apply_to, forget_in, get_in, undo_in};
use std::alloc::Global;

/// Applies a batch to a store at a version, which is to be above the one applied.
#[unsafe(no_mangle)]
pub extern "C" fn fdbrec_store_apply(
    alloc: Global,
    of: &mut Handle,
    version: u64,
    batch: &[u8],
) -> u32
    ensures done { Over of.old.value of.new.value result
        (λ old new. result ≡ 0 → IfBatch batch.now
        (λ ms. BecomesStore old.part new.part (λ s. extended s version ms))) }
    ensures limit { Over of.old.value of.new.value result (λ old new. (result ≡ 6) ↔ (2 ^ 62 ≤ version)) }
    ensures bad_text { Over of.old.value of.new.value result (λ old new. result ≡ 7 → IsNoBatch batch.now) }
    ensures kind { Over of.old.value of.new.value result
        (λ old new. result ≢ 1 → result ≢ 6 → result ≢ 7 → ((result ≡ 4) ↔ (is_store old.part ≡ false))) }
    ensures refused { Over of.old.value of.new.value result (λ old new. result ≢ 1 → result ≢ 6 → result ≢ 7
        → ((result ≡ 5) ↔ IfStore old.part (λ s. version ≤ s.applied))) }
    ensures among { IsAmong (0 ∷ 1 ∷ 2 ∷ 4 ∷ 5 ∷ 6 ∷ 7 ∷ []) result }
    ensures kept { Over of.old.value of.new.value result (λ old new. result ≢ 0 → new ≡ old) }
{
    with_seat!(alloc, of, seat => apply_to(alloc, &mut seat.part, version, batch))
}

/// Undoes all versions of a store above one, which is not to be below the floor.
#[unsafe(no_mangle)]
pub extern "C" fn fdbrec_store_undo(alloc: Global, of: &mut Handle, version: u64) -> u32
    ensures done { Over of.old.value of.new.value result
        (λ old new. result ≡ 0 → BecomesStore old.part new.part (λ s. undone s version)) }
    ensures limit { Over of.old.value of.new.value result (λ old new. (result ≡ 6) ↔ (2 ^ 62 ≤ version)) }
    ensures kind { Over of.old.value of.new.value result
        (λ old new. result ≢ 1 → result ≢ 6 → ((result ≡ 4) ↔ (is_store old.part ≡ false))) }
    ensures refused { Over of.old.value of.new.value result (λ old new. result ≢ 1 → result ≢ 6
        → ((result ≡ 5) ↔ IfStore old.part (λ s. version < s.floor))) }
    ensures among { IsAmong (0 ∷ 1 ∷ 2 ∷ 4 ∷ 5 ∷ 6 ∷ []) result }
    ensures kept { Over of.old.value of.new.value result (λ old new. result ≢ 0 → new ≡ old) }
{
    with_seat!(alloc, of, seat => undo_in(alloc, &mut seat.part, version))
}

/// Has a store forget how to undo below a version.
#[unsafe(no_mangle)]
pub extern "C" fn fdbrec_store_forget(alloc: Global, of: &mut Handle, version: u64) -> u32
    ensures done { Over of.old.value of.new.value result
        (λ old new. result ≡ 0 → BecomesStore old.part new.part (λ s. forgotten s version)) }
    ensures limit { Over of.old.value of.new.value result (λ old new. (result ≡ 6) ↔ (2 ^ 62 ≤ version)) }
    ensures kind { Over of.old.value of.new.value result
        (λ old new. result ≢ 1 → result ≢ 6 → ((result ≡ 4) ↔ (is_store old.part ≡ false))) }
    ensures refused { Over of.old.value of.new.value result (λ old new. result ≢ 1 → result ≢ 6
        → ((result ≡ 5) ↔ IfStore old.part (λ s. s.applied < version))) }
    ensures among { IsAmong (0 ∷ 1 ∷ 2 ∷ 4 ∷ 5 ∷ 6 ∷ []) result }
    ensures kept { Over of.old.value of.new.value result (λ old new. result ≢ 0 → new ≡ old) }
{
    with_seat!(alloc, of, seat => forget_in(alloc, &mut seat.part, version))
}

/// Gives the value of a key of a store.
#[unsafe(no_mangle)]
pub extern "C" fn fdbrec_store_get(
    alloc: Global,
    of: &mut Handle,
    key: &[u8],
    out: &mut [u8],
    len: &mut usize,
) -> u32
    ensures same { of.new.value ≡ of.old.value }
    ensures ok { Over of.old.value of.new.value result
        (λ old new. result ≡ 0 → IfStore new.part
        (λ s. IfFound (map.get s.contents key.now) (λ value. IsGiven value out.new len.new))) }
    ensures short { Over of.old.value of.new.value result
        (λ old new. result ≡ 3 → IfStore new.part
        (λ s. IfFound (map.get s.contents key.now) (λ value. IsShort value out.new len.new))) }
    ensures none { Over of.old.value of.new.value result
        (λ old new. result ≡ 11 → IfStore new.part (λ s. map.get s.contents key.now ≡ None)) }
    ensures kind { Over of.old.value of.new.value result (λ old new. result ≢ 1 → ((result ≡ 4) ↔ (is_store old.part ≡ false))) }
    ensures among { IsAmong (0 ∷ 1 ∷ 2 ∷ 3 ∷ 4 ∷ 11 ∷ []) result }
{
    with_seat!(alloc, of, seat => get_in(alloc, &seat.part, key, out, len))
}
