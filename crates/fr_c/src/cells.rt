//! Cells, in bytes.
ghost use Rattle.std.specs.Prelude.{◌≡◌, ◌≢◌, ◌<◌, ◌↔◌, ◌⊎◌, ◌∷◌, [], true, false, length};
ghost use Rattle.fr_register.specs.declared.ask.CellAsk.TheVariants as cell_ask;
ghost use Rattle.fr_part.specs.Answers.{IsCellRefused, IsNoBallot, IsPromised, IsPromisedShort, IsTwoValues, IsWritten, read_status, write_status};
ghost use Rattle.fr_part.specs.Calls.{Over, IsAmong, is_answered};
ghost use Rattle.fr_part.specs.Turn.{is_cell};
ghost use Rattle.fr_c.specs.Turns.{IsCellTurn};

use fr_part::Handle;
use fr_part::calls::cells::{give_read, read_cell, write_cell};
use std::alloc::Global;

/// Reads a cell at a ballot. `number` is the ballot of the last write, or if refused the one promised.
#[unsafe(no_mangle)]
pub extern "C" fn fdbrec_cell_read(
    alloc: Global,
    of: &mut Handle,
    ballot: u64,
    number: &mut u64,
    out: &mut [u8],
    len: &mut usize,
) -> u32
    ensures turn { IsCellTurn of.old.value of.new.value result (cell_ask.Read ballot) }
    ensures ok { Over of.old.value of.new.value result
        (λ old new. result ≡ 0 → IsPromised new.said number.new out.new len.new) }
    ensures short { Over of.old.value of.new.value result
        (λ old new. result ≡ 3 → IsPromisedShort new.said number.new out.new len.new) }
    ensures refused { Over of.old.value of.new.value result
        (λ old new. result ≡ 5 → IsCellRefused new.said number.new) }
    ensures limit { Over of.old.value of.new.value result (λ old new. (result ≡ 6) ↔ IsNoBallot ballot) }
    ensures kind { Over of.old.value of.new.value result
        (λ old new. result ≢ 1 → result ≢ 6 → ((result ≡ 4) ↔ (is_cell old.part ≡ false))) }
    ensures answered { Over of.old.value of.new.value result
        (λ old new. is_answered result ≡ true → result ≡ read_status new.said out.old) }
    ensures among { IsAmong (0 ∷ 1 ∷ 2 ∷ 3 ∷ 4 ∷ 5 ∷ 6 ∷ 8 ∷ []) result }
{
    with_seat!(alloc, of, seat => read_cell(alloc, &mut seat, ballot, number, out, len))
}

/// Gives the answer of the last read again. It is no turn.
#[unsafe(no_mangle)]
pub extern "C" fn fdbrec_cell_answer(
    alloc: Global,
    of: &mut Handle,
    number: &mut u64,
    out: &mut [u8],
    len: &mut usize,
) -> u32
    ensures same { of.new.value ≡ of.old.value }
    ensures ok { Over of.old.value of.new.value result
        (λ old new. result ≡ 0 → IsPromised new.said number.new out.new len.new) }
    ensures short { Over of.old.value of.new.value result
        (λ old new. result ≡ 3 → IsPromisedShort new.said number.new out.new len.new) }
    ensures refused { Over of.old.value of.new.value result
        (λ old new. result ≡ 5 → IsCellRefused new.said number.new) }
    ensures status { Over of.old.value of.new.value result (λ old new. result ≡ read_status new.said out.old) }
{
    with_seat!(alloc, of, seat => give_read(&seat.said, number, out, len))
}

/// Writes a value into a cell under a ballot. `number` is that ballot, or if refused the one promised.
#[unsafe(no_mangle)]
pub extern "C" fn fdbrec_cell_write(
    alloc: Global,
    of: &mut Handle,
    ballot: u64,
    value: &[u8],
    number: &mut u64,
) -> u32
    ensures turn { IsCellTurn of.old.value of.new.value result (cell_ask.Write ballot value.now) }
    ensures ok { Over of.old.value of.new.value result (λ old new. result ≡ 0 → IsWritten new.said number.new) }
    ensures refused { Over of.old.value of.new.value result
        (λ old new. result ≡ 5 → IsCellRefused new.said number.new) }
    ensures two_values { Over of.old.value of.new.value result (λ old new. result ≡ 10 → IsTwoValues new.said) }
    ensures limit { Over of.old.value of.new.value result
        (λ old new. (result ≡ 6) ↔ (IsNoBallot ballot ⊎ (4096 < length value.now))) }
    ensures kind { Over of.old.value of.new.value result
        (λ old new. result ≢ 1 → result ≢ 6 → ((result ≡ 4) ↔ (is_cell old.part ≡ false))) }
    ensures answered { Over of.old.value of.new.value result
        (λ old new. is_answered result ≡ true → result ≡ write_status new.said) }
    ensures among { IsAmong (0 ∷ 1 ∷ 2 ∷ 4 ∷ 5 ∷ 6 ∷ 8 ∷ 10 ∷ []) result }
{
    with_seat!(alloc, of, seat => write_cell(alloc, &mut seat, ballot, value, number))
}
