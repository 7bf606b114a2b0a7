//! Bytes that go into the memory of a caller.
ghost use Rattle.std.specs.Prelude.{◌≡◌, ◌<◌, ◌↔◌, ◌∷◌, [], false, true, length, take, Err, IfOk, IfErr, if◌then◌else◌};
ghost use Rattle.fr_part.specs.Answers.{IsGiven, IsJson, IsShort, room_status};
ghost use Rattle.fr_part.specs.Calls.{IsAmong, is_told};
ghost use Rattle.fr_part.specs.Fault.{IsUnasked};
ghost use Rattle.fr_part.specs.declared.fault.PartFault.TheVariants.{Kind};

use crate::calls::lines::write_said;
use crate::calls::status::{OK, SHORT, UNTOLD, status_of};
use crate::fault::PartFault;
use crate::said::Said;
use std::alloc::Global;

/// Copies bytes if there is room for them, and says in any case how many they are.
pub fn give(bytes: &[u8], out: &mut [u8], len: &mut usize) -> bool
    ensures given { result ≡ true → IsGiven bytes.now out.new len.new }
    ensures short { result ≡ false → IsShort bytes.now out.new len.new }
    ensures fits { room_status bytes.now out.old ≡ (if result then 0 else 3) }
{
    let size = bytes.len();
    *len = size;
    if size > out.len() {
        return false;
    }
    out[..size].copy_from_slice(bytes);
    true
}

/// Gives what a machine said in its last turn as a line of JSON.
pub fn give_said(alloc: Global, said: &Said, out: &mut [u8], len: &mut usize) -> u32
    ensures ok { result ≡ 0 → IsJson (take len.new out.new) }
    ensures short { result ≡ 3 → length out.new < len.new }
    ensures told { is_told result ≡ true }
    ensures among { IsAmong (0 ∷ 3 ∷ 8 ∷ []) result }
{
    match write_said(alloc, said) {
        Ok(text) => if give(&text, out, len) { OK } else { SHORT },
        Err(_) => UNTOLD,
    }
}

/// Gives a line of JSON that a machine has, or tells why it has none.
pub fn give_line(line: Result<Vec<u8>, PartFault>, out: &mut [u8], len: &mut usize) -> u32
    requires json { IfOk line (λ text. IsJson text.items) }
    ensures ok { result ≡ 0 → IsJson (take len.new out.new) }
    ensures short { result ≡ 3 → length out.new < len.new }
    ensures kind { result ≡ 4 ↔ line ≡ Err Kind }
    ensures among { IfErr line IsUnasked → IsAmong (0 ∷ 1 ∷ 3 ∷ 4 ∷ []) result }
{
    match line {
        Ok(text) => if give(&text, out, len) { OK } else { SHORT },
        Err(fault) => status_of(fault),
    }
}
