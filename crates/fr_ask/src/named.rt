//! Machines whose asks, tells and states are among those of all nodes.
ghost use Rattle.std.specs.Prelude.{◌≡◌, Some, IfOk};

use crate::ask::Ask;
use crate::last::Last;
use crate::tell::Tell;
use fr_base::{Machine, Memory};
use fr_log::Log;
use fr_register::Cell;
use std::alloc::Global;

/// A machine whose asks, tells and last state each have their own variant among those of all nodes.
/// Taking a wrapped ask or tell apart gives it back, so two different ones never wrap to one.
pub trait Named: Machine {
    ghost use Rattle.std.specs.Prelude.{Option};
    ghost use Rattle.fr_ask.specs.declared.ask.Ask.{Ask};
    ghost use Rattle.fr_ask.specs.declared.tell.Tell.{Tell};
    ghost use Rattle.fr_ask.specs.declared.last.Last.{Last};

    /// An ask of it among all asks.
    ghost wrapped: { Self.Ask → Ask };

    /// This ask as one of the machine's own; none if it is another kind's.
    ghost unwrapped: { Ask → Option Self.Ask };

    /// A tell of it among all tells.
    ghost wrapped_tell: { Self.Tell → Tell };

    /// This tell as one of the machine's own; none if it is another kind's.
    ghost unwrapped_tell: { Tell → Option Self.Tell };

    /// Its state as others see it at last.
    ghost last_of: { Self → Last };

    /// An ask of it as one of all asks. It takes no memory.
    fn wrap(ask: Self::Ask) -> Ask
        ensures value { result ≡ wrapped ask }
        ensures back { unwrapped result ≡ Some ask };

    /// A tell of it as one of all tells. It takes no memory.
    fn wrap_tell(tell: Self::Tell) -> Tell
        ensures value { result ≡ wrapped_tell tell }
        ensures back { unwrapped_tell result ≡ Some tell };

    /// Its state as others see it at last.
    fn last(&self, alloc: Global) -> Result<Last, Memory>
        ensures { IfOk result (λ last. last ≡ last_of self.now) };
}

impl Named for Cell {
    ghost use Rattle.fr_ask.specs.Named.{cell_ask_of, cell_tell_of, last_of_cell};
    ghost use Rattle.fr_ask.specs.declared.ask.Ask.TheVariants as ask;
    ghost use Rattle.fr_ask.specs.declared.tell.Tell.TheVariants as tell;

    ghost wrapped = { λ a. ask.Cell a };

    ghost unwrapped = { cell_ask_of };

    ghost wrapped_tell = { λ t. tell.Cell t };

    ghost unwrapped_tell = { cell_tell_of };

    ghost last_of = { last_of_cell };

    fn wrap(ask: Self::Ask) -> Ask {
        Ask::Cell(ask)
    }

    fn wrap_tell(tell: Self::Tell) -> Tell {
        Tell::Cell(tell)
    }

    fn last(&self, _alloc: Global) -> Result<Last, Memory> {
        Ok(Last::Cell {
            promised: self.promised(),
            written: self.written(),
            value: self.value().copy()?,
        })
    }
}

impl Named for Log {
    ghost use Rattle.fr_ask.specs.Named.{log_ask_of, log_tell_of, last_of_log};
    ghost use Rattle.fr_ask.specs.declared.ask.Ask.TheVariants as ask;
    ghost use Rattle.fr_ask.specs.declared.tell.Tell.TheVariants as tell;

    ghost wrapped = { λ a. ask.Log a };

    ghost unwrapped = { log_ask_of };

    ghost wrapped_tell = { λ t. tell.Log t };

    ghost unwrapped_tell = { log_tell_of };

    ghost last_of = { last_of_log };

    fn wrap(ask: Self::Ask) -> Ask {
        Ask::Log(ask)
    }

    fn wrap_tell(tell: Self::Tell) -> Tell {
        Tell::Log(tell)
    }

    fn last(&self, _alloc: Global) -> Result<Last, Memory> {
        Ok(Last::Log {
            seeded: self.seeded(),
            durable: self.durable(),
            known: self.known(),
            stopped: self.stopped(),
            popped: self.popped().copy()?,
        })
    }
}
