//! Cells, in bytes.
ghost use Rattle.std.specs.Prelude.{◌≡◌, ◌≢◌, ◌<◌, ◌↔◌, ◌⊎◌, ◌∷◌, [], true, false, length};
ghost use Rattle.fr_register.specs.declared.ask.CellAsk.TheVariants as cell_ask;
ghost use Rattle.fr_ask.specs.declared.ask.Ask.TheVariants as ask;
ghost use Rattle.fr_part.specs.Seat.{seat_after};
ghost use Rattle.fr_part.specs.Turn.{is_cell};
ghost use Rattle.fr_part.specs.Answers.{IsCellRefused, IsNoBallot, IsPromised, IsPromisedShort, IsTwoValues, IsWritten, read_status, write_status};
ghost use Rattle.fr_part.specs.Calls.{IsTurn, IsAmong, is_answered};

use crate::calls::asking::ask_cell;
use crate::calls::status::{LIMIT, MEMORY, OK, REFUSED, SHORT, TWO_VALUES, UNTOLD, status_of};
use crate::said::Said;
use crate::seat::Seat;
use fr_ask::Tell;
use fr_base::Ballot;
use fr_register::{CellAsk, CellTell, CellValue};
use std::alloc::Global;

/// The greatest length of the value of a cell.
const MAX_VALUE: usize = 4096;

/// Reads a cell at a ballot.
pub fn read_cell(
    alloc: Global,
    seat: &mut Seat,
    ballot: u64,
    number: &mut u64,
    out: &mut [u8],
    len: &mut usize,
) -> u32
    ensures turn { IsTurn (is_answered result) seat.old seat.new
        (seat.new ≡ seat_after seat.old (ask.Cell (cell_ask.Read ballot))) }
    ensures ok { result ≡ 0 → IsPromised seat.new.said number.new out.new len.new }
    ensures short { result ≡ 3 → IsPromisedShort seat.new.said number.new out.new len.new }
    ensures refused { result ≡ 5 → IsCellRefused seat.new.said number.new }
    ensures limit { (result ≡ 6) ↔ IsNoBallot ballot }
    ensures kind { result ≢ 1 → result ≢ 6 → ((result ≡ 4) ↔ (is_cell seat.old.part ≡ false)) }
    ensures answered { is_answered result ≡ true → result ≡ read_status seat.new.said out.old }
    ensures among { IsAmong (0 ∷ 1 ∷ 3 ∷ 4 ∷ 5 ∷ 6 ∷ 8 ∷ []) result }
{
    let Some(ballot) = Ballot::new(ballot) else {
        return LIMIT;
    };
    match ask_cell(alloc, seat, CellAsk::Read { ballot }) {
        Ok(()) => give_read(&seat.said, number, out, len),
        Err(fault) => status_of(fault),
    }
}

/// Gives the answer of a read, if it fits.
pub fn give_read(said: &Said, number: &mut u64, out: &mut [u8], len: &mut usize) -> u32
    ensures ok { result ≡ 0 → IsPromised said.now number.new out.new len.new }
    ensures short { result ≡ 3 → IsPromisedShort said.now number.new out.new len.new }
    ensures refused { result ≡ 5 → IsCellRefused said.now number.new }
    ensures status { result ≡ read_status said.now out.old }
    ensures among { IsAmong (0 ∷ 3 ∷ 5 ∷ 8 ∷ []) result }
    ensures answered { is_answered result ≡ true }
{
    match said {
        Said::Told(Tell::Cell(CellTell::Promise { written, value })) => {
            let bytes = value.as_slice();
            *number = written.get();
            *len = bytes.len();
            if bytes.len() > out.len() {
                return SHORT;
            }
            out[..bytes.len()].copy_from_slice(bytes);
            OK
        }
        Said::Told(Tell::Cell(CellTell::Refused { promised })) => {
            *number = promised.get();
            REFUSED
        }
        Said::Told(Tell::Cell(CellTell::Written { .. })) => UNTOLD,
        Said::Told(Tell::Cell(CellTell::TwoValues)) => UNTOLD,
        Said::Told(Tell::Log(_)) => UNTOLD,
        Said::Told(Tell::Seq(_)) => UNTOLD,
        Said::Heard(_) => UNTOLD,
        Said::Nothing => UNTOLD,
    }
}

/// Writes a value into a cell under a ballot.
pub fn write_cell(
    alloc: Global,
    seat: &mut Seat,
    ballot: u64,
    value: &[u8],
    number: &mut u64,
) -> u32
    ensures turn { IsTurn (is_answered result) seat.old seat.new
        (seat.new ≡ seat_after seat.old (ask.Cell (cell_ask.Write ballot value.now))) }
    ensures ok { result ≡ 0 → IsWritten seat.new.said number.new }
    ensures refused { result ≡ 5 → IsCellRefused seat.new.said number.new }
    ensures two_values { result ≡ 10 → IsTwoValues seat.new.said }
    ensures limit { (result ≡ 6) ↔ (IsNoBallot ballot ⊎ (4096 < length value.now)) }
    ensures kind { result ≢ 1 → result ≢ 6 → ((result ≡ 4) ↔ (is_cell seat.old.part ≡ false)) }
    ensures answered { is_answered result ≡ true → result ≡ write_status seat.new.said }
    ensures among { IsAmong (0 ∷ 1 ∷ 4 ∷ 5 ∷ 6 ∷ 8 ∷ 10 ∷ []) result }
{
    let Some(ballot) = Ballot::new(ballot) else {
        return LIMIT;
    };
    if value.len() > MAX_VALUE {
        return LIMIT;
    }
    let Ok(bytes) = value.to_vec(alloc) else {
        return MEMORY;
    };
    let Some(value) = CellValue::new(bytes) else {
        return LIMIT;
    };
    match ask_cell(alloc, seat, CellAsk::Write { ballot, value }) {
        Ok(()) => written_into(&seat.said, number),
        Err(fault) => status_of(fault),
    }
}

/// Gives the ballot that the answer to a write names.
fn written_into(said: &Said, number: &mut u64) -> u32
    ensures ok { result ≡ 0 → IsWritten said.now number.new }
    ensures refused { result ≡ 5 → IsCellRefused said.now number.new }
    ensures two_values { result ≡ 10 → IsTwoValues said.now }
    ensures status { result ≡ write_status said.now }
    ensures among { IsAmong (0 ∷ 5 ∷ 8 ∷ 10 ∷ []) result }
    ensures answered { is_answered result ≡ true }
{
    match said {
        Said::Told(Tell::Cell(CellTell::Written { ballot })) => {
            *number = ballot.get();
            OK
        }
        Said::Told(Tell::Cell(CellTell::Refused { promised })) => {
            *number = promised.get();
            REFUSED
        }
        Said::Told(Tell::Cell(CellTell::TwoValues)) => TWO_VALUES,
        Said::Told(Tell::Cell(CellTell::Promise { .. })) => UNTOLD,
        Said::Told(Tell::Log(_)) => UNTOLD,
        Said::Told(Tell::Seq(_)) => UNTOLD,
        Said::Heard(_) => UNTOLD,
        Said::Nothing => UNTOLD,
    }
}
