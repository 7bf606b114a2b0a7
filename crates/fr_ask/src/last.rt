//! The last state of every node, as far as others can see it.
ghost use Rattle.std.specs.Prelude.{◌≡◌, IfOk};

use crate::rows::Rows;
use fr_base::{Ballot, Bytes, Epoch, Memory, Version};
use fr_log::PoppedTags;
use fr_register::CellValue;

/// The last state of a node.
#[derive(Debug, Drop, PartialEq, Eq)]
pub enum Last {
    /// The ballot that a cell promised, the ballot of its last write, and the value of that.
    Cell {
        promised: Ballot,
        written: Ballot,
        value: CellValue,
    },
    /// Whether a log has a seed, the greatest version that it holds and the greatest that it knows to be
    /// committed (both 0 without a seed), whether it was locked, and how far its tags are popped.
    Log {
        seeded: bool,
        durable: Version,
        known: Version,
        stopped: bool,
        popped: PoppedTags,
    },
    /// The last version that a sequencer gave.
    Sequencer {
        last: Version,
    },
    /// The last version that a proxy knows to be committed.
    Proxy {
        known: Version,
    },
    /// The phase of a recoverer, as the bytes of a text: a journal may have any text there.
    Recoverer {
        phase: Bytes,
    },
    /// The position of a storage server, the version through which it forgot its undo rows, and its rows
    /// in key order.
    Storage {
        epoch: Epoch,
        version: Version,
        floor: Version,
        rows: Rows,
    },
}

impl Last {
    /// An equal state.
    pub fn copy(&self) -> Result<Self, Memory>
        ensures { IfOk result (λ last. last ≡ self.now) }
    {
        Ok(match self {
            Last::Cell {
                promised,
                written,
                value,
            } => Last::Cell {
                promised: *promised,
                written: *written,
                value: value.copy()?,
            },
            Last::Log {
                seeded,
                durable,
                known,
                stopped,
                popped,
            } => Last::Log {
                seeded: *seeded,
                durable: *durable,
                known: *known,
                stopped: *stopped,
                popped: popped.copy()?,
            },
            Last::Sequencer { last } => Last::Sequencer { last: *last },
            Last::Proxy { known } => Last::Proxy { known: *known },
            Last::Recoverer { phase } => Last::Recoverer {
                phase: phase.copy()?,
            },
            Last::Storage {
                epoch,
                version,
                floor,
                rows,
            } => Last::Storage {
                epoch: *epoch,
                version: *version,
                floor: *floor,
                rows: rows.copy()?,
            },
        })
    }
}
