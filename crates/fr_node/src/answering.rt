//! Machines of nodes that answer asks: cells, logs and sequencers.
ghost use Rattle.std.specs.Prelude.{◌≡◌, None, Some, IfSome};
ghost use Rattle.fr_node.specs.Ahead.{ballot_in, version_in};

use fr_ask::{Ask, SeqAsk};
use fr_audit_journal::Housable;
use fr_base::Ballot;
use fr_log::{Log, LogAsk};
use fr_proxy::Sequencer;
use fr_register::{Cell, CellAsk};

/// A machine that can tell its own asks among those of all kinds.
pub trait Answering: Housable {
    /// This ask as one of the machine's own; none if it is another kind's. It takes no memory.
    fn unwrap(ask: Ask) -> Option<Self::Ask>
        ensures value { result ≡ Self.unwrapped ask }
        ensures back { IfSome result (λ own. Self.wrapped own ≡ ask) };

    /// The ballot that it promised, if it is a cell. None of these machines applies versions.
    fn promise(&self) -> Option<Ballot>
        ensures value { result ≡ ballot_in (Self.last_of self.now) }
        ensures no_version { version_in (Self.last_of self.now) ≡ None };
}

impl Answering for Cell {
    fn unwrap(ask: Ask) -> Option<CellAsk> {
        match ask {
            Ask::Cell(ask) => Some(ask),
            Ask::Log(_) => None,
            Ask::Seq(_) => None,
        }
    }

    fn promise(&self) -> Option<Ballot> {
        Some(self.promised())
    }
}

impl Answering for Log {
    fn unwrap(ask: Ask) -> Option<LogAsk> {
        match ask {
            Ask::Cell(_) => None,
            Ask::Log(ask) => Some(ask),
            Ask::Seq(_) => None,
        }
    }

    fn promise(&self) -> Option<Ballot> {
        None
    }
}

impl Answering for Sequencer {
    fn unwrap(ask: Ask) -> Option<SeqAsk> {
        match ask {
            Ask::Cell(_) => None,
            Ask::Log(_) => None,
            Ask::Seq(ask) => Some(ask),
        }
    }

    fn promise(&self) -> Option<Ballot> {
        None
    }
}
