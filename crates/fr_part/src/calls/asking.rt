//! Asks of one kind: another machine is none of their kind.
ghost use Rattle.std.specs.Prelude.{◌≡◌, ◌↔◌, false, Err, IfErr, OnOk, OnErr};
ghost use Rattle.fr_ask.specs.declared.ask.Ask.TheVariants as asked;
ghost use Rattle.fr_part.specs.Fault.{IsUnasked};
ghost use Rattle.fr_part.specs.Seat.{seat_after};
ghost use Rattle.fr_part.specs.Turn.{is_cell, is_log};
ghost use Rattle.fr_part.specs.declared.fault.PartFault.TheVariants.{Kind};

use crate::fault::PartFault;
use crate::seat::Seat;
use fr_ask::Ask;
use fr_log::LogAsk;
use fr_register::CellAsk;
use std::alloc::Global;

/// Asks a cell.
pub fn ask_cell(alloc: Global, seat: &mut Seat, ask: CellAsk) -> Result<(), PartFault>
    ensures after { OnOk result (seat.new ≡ seat_after seat.old (asked.Cell ask)) }
    ensures err { OnErr result (seat.new ≡ seat.old) }
    ensures kind { result ≡ Err Kind ↔ is_cell seat.old.part ≡ false }
    ensures faults { IfErr result IsUnasked }
{
    seat.ask(alloc, Ask::Cell(ask))
}

/// Asks a log.
pub fn ask_log(alloc: Global, seat: &mut Seat, ask: LogAsk) -> Result<(), PartFault>
    ensures after { OnOk result (seat.new ≡ seat_after seat.old (asked.Log ask)) }
    ensures err { OnErr result (seat.new ≡ seat.old) }
    ensures kind { result ≡ Err Kind ↔ is_log seat.old.part ≡ false }
    ensures faults { IfErr result IsUnasked }
{
    seat.ask(alloc, Ask::Log(ask))
}
