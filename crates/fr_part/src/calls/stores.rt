//! Stores in memory, in bytes.
ghost use Rattle.std.specs.Prelude.{◌≡◌, ◌≢◌, ◌<◌, ◌≤◌, ◌^◌, ◌↔◌, ◌∷◌, [], true, false, None, Err, IsErr, IsOk};
ghost use Rattle.std.specs.FinMap as map;
ghost use Rattle.fr_undo.specs.Undo.{extended, undone, forgotten};
ghost use Rattle.fr_part.specs.Store.{BecomesStore, IfStore, is_store};
ghost use Rattle.fr_part.specs.Answers.{IfBatch, IsGiven, IsNoBatch, IsShort};
ghost use Rattle.fr_part.specs.Calls.{IfFound, IsAmong};
ghost use Rattle.fr_part.specs.declared.fault.PartFault.TheVariants.{Kind, Part as PartOnly, Refused};

use crate::calls::giving::give;
use crate::calls::reading::read_batch;
use crate::calls::status::{BAD_TEXT, LIMIT, MEMORY, NONE, OK, SHORT, status_of};
use crate::fault::PartFault;
use crate::part::Part;
use fr_base::{Bytes, Version};
use fr_forms::ScriptFault;
use std::alloc::Global;

/// Applies a batch to a store at a version.
pub fn apply_to(alloc: Global, part: &mut Part, version: u64, batch: &[u8]) -> u32
    ensures done { result ≡ 0 → IfBatch batch.now (λ ms. BecomesStore part.old part.new (λ s. extended s version ms)) }
    ensures limit { (result ≡ 6) ↔ (2 ^ 62 ≤ version) }
    ensures bad_text { result ≡ 7 → IsNoBatch batch.now }
    ensures kind { result ≢ 1 → result ≢ 6 → result ≢ 7 → ((result ≡ 4) ↔ (is_store part.old ≡ false)) }
    ensures refused { result ≢ 1 → result ≢ 6 → result ≢ 7
        → ((result ≡ 5) ↔ IfStore part.old (λ s. version ≤ s.applied)) }
    ensures among { IsAmong (0 ∷ 1 ∷ 4 ∷ 5 ∷ 6 ∷ 7 ∷ []) result }
    ensures kept { result ≢ 0 → part.new ≡ part.old }
{
    let Some(version) = Version::new(version) else {
        return LIMIT;
    };
    let batch = match read_batch(alloc, batch) {
        Ok(batch) => batch,
        Err(ScriptFault::BadScript) => return BAD_TEXT,
        Err(ScriptFault::Memory) => return MEMORY,
    };
    of_call(part.apply(alloc, version, &batch))
}

/// Undoes all versions of a store above one.
pub fn undo_in(alloc: Global, part: &mut Part, version: u64) -> u32
    ensures done { result ≡ 0 → BecomesStore part.old part.new (λ s. undone s version) }
    ensures limit { (result ≡ 6) ↔ (2 ^ 62 ≤ version) }
    ensures kind { result ≢ 1 → result ≢ 6 → ((result ≡ 4) ↔ (is_store part.old ≡ false)) }
    ensures refused { result ≢ 1 → result ≢ 6 → ((result ≡ 5) ↔ IfStore part.old (λ s. version < s.floor)) }
    ensures among { IsAmong (0 ∷ 1 ∷ 4 ∷ 5 ∷ 6 ∷ []) result }
    ensures kept { result ≢ 0 → part.new ≡ part.old }
{
    match Version::new(version) {
        Some(version) => of_call(part.undo_to(alloc, version)),
        None => LIMIT,
    }
}

/// Has a store forget how to undo below a version.
pub fn forget_in(alloc: Global, part: &mut Part, version: u64) -> u32
    ensures done { result ≡ 0 → BecomesStore part.old part.new (λ s. forgotten s version) }
    ensures limit { (result ≡ 6) ↔ (2 ^ 62 ≤ version) }
    ensures kind { result ≢ 1 → result ≢ 6 → ((result ≡ 4) ↔ (is_store part.old ≡ false)) }
    ensures refused { result ≢ 1 → result ≢ 6 → ((result ≡ 5) ↔ IfStore part.old (λ s. s.applied < version)) }
    ensures among { IsAmong (0 ∷ 1 ∷ 4 ∷ 5 ∷ 6 ∷ []) result }
    ensures kept { result ≢ 0 → part.new ≡ part.old }
{
    match Version::new(version) {
        Some(version) => of_call(part.forget_through(alloc, version)),
        None => LIMIT,
    }
}

/// The status of a call of a store.
fn of_call(called: Result<(), PartFault>) -> u32
    ensures kept { result ≢ 0 → IsErr called }
    ensures done { result ≡ 0 → IsOk called }
    ensures kind { (result ≡ 4) ↔ (called ≡ Err Kind) }
    ensures refused { (result ≡ 5) ↔ (called ≡ Err Refused) }
    ensures among { called ≢ Err PartOnly → IsAmong (0 ∷ 1 ∷ 4 ∷ 5 ∷ []) result }
{
    match called {
        Ok(()) => OK,
        Err(fault) => status_of(fault),
    }
}

/// Gives the value of a key of a store.
pub fn get_in(alloc: Global, part: &Part, key: &[u8], out: &mut [u8], len: &mut usize) -> u32
    ensures ok { result ≡ 0 → IfStore part.now
        (λ s. IfFound (map.get s.contents key.now) (λ value. IsGiven value out.new len.new)) }
    ensures short { result ≡ 3 → IfStore part.now
        (λ s. IfFound (map.get s.contents key.now) (λ value. IsShort value out.new len.new)) }
    ensures none { result ≡ 11 → IfStore part.now (λ s. map.get s.contents key.now ≡ None) }
    ensures kind { result ≢ 1 → ((result ≡ 4) ↔ (is_store part.now ≡ false)) }
    ensures among { IsAmong (0 ∷ 1 ∷ 3 ∷ 4 ∷ 11 ∷ []) result }
{
    let Ok(key) = Bytes::from_slice(alloc, key) else {
        return MEMORY;
    };
    match part.value_at(&key) {
        Ok(Some(value)) => if give(value.as_slice(), out, len) {
            OK
        } else {
            SHORT
        },
        Ok(None) => NONE,
        Err(fault) => status_of(fault),
    }
}
