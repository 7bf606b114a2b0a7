//! The types that have a row in the table.
use crate::kind;
use crate::object::{Object, text_value};
use crate::row::{Formed, Row};
use fr_ask::{Ask, Last, SeqAsk, SeqRefusal, SeqTell, Tell};
use fr_base::{Memory, NodeId};
use fr_cli_json::tokens::Unread;
use fr_log::{LogAsk, LogRefusal, LogTell, Peeked, PeekedRecord, PoppedTag, Seed, SeedRecord};
use fr_proxy::Outcome;
use fr_register::{CellAsk, CellTell};
use fr_state::Generation;
use fr_tags::Body;
use serde_json::Value;
use std::alloc::Global;

impl Formed for NodeId {
    fn from_row(alloc: Global, row: Row<'_>) -> Result<Self, Unread> {
        kind!(NodeId read alloc row)
    }

    fn to_value(&self, alloc: Global) -> Result<Value, Memory> {
        kind!(NodeId write self alloc)
    }
}

impl Formed for Ask {
    fn from_row(alloc: Global, row: Row<'_>) -> Result<Self, Unread> {
        kind!(Ask read alloc row)
    }

    fn to_value(&self, alloc: Global) -> Result<Value, Memory> {
        kind!(Ask write self alloc)
    }
}

impl Formed for Tell {
    fn from_row(alloc: Global, row: Row<'_>) -> Result<Self, Unread> {
        kind!(Tell read alloc row)
    }

    fn to_value(&self, alloc: Global) -> Result<Value, Memory> {
        kind!(Tell write self alloc)
    }
}

impl Formed for CellAsk {
    fn from_row(alloc: Global, row: Row<'_>) -> Result<Self, Unread> {
        kind!(CellAsk read alloc row)
    }

    fn to_value(&self, alloc: Global) -> Result<Value, Memory> {
        kind!(CellAsk write self alloc)
    }
}

impl Formed for CellTell {
    fn from_row(alloc: Global, row: Row<'_>) -> Result<Self, Unread> {
        kind!(CellTell read alloc row)
    }

    fn to_value(&self, alloc: Global) -> Result<Value, Memory> {
        kind!(CellTell write self alloc)
    }
}

impl Formed for LogAsk {
    fn from_row(alloc: Global, row: Row<'_>) -> Result<Self, Unread> {
        kind!(LogAsk read alloc row)
    }

    fn to_value(&self, alloc: Global) -> Result<Value, Memory> {
        kind!(LogAsk write self alloc)
    }
}

impl Formed for Seed {
    fn from_row(alloc: Global, row: Row<'_>) -> Result<Self, Unread> {
        kind!(Seed read alloc row)
    }

    fn to_value(&self, alloc: Global) -> Result<Value, Memory> {
        kind!(Seed write self alloc)
    }
}

impl Formed for SeedRecord {
    fn from_row(alloc: Global, row: Row<'_>) -> Result<Self, Unread> {
        kind!(SeedRecord read alloc row)
    }

    fn to_value(&self, alloc: Global) -> Result<Value, Memory> {
        kind!(SeedRecord write self alloc)
    }
}

impl Formed for Body {
    fn from_row(alloc: Global, row: Row<'_>) -> Result<Self, Unread> {
        kind!(Body read alloc row)
    }

    fn to_value(&self, alloc: Global) -> Result<Value, Memory> {
        kind!(Body write self alloc)
    }
}

impl Formed for LogTell {
    fn from_row(alloc: Global, row: Row<'_>) -> Result<Self, Unread> {
        kind!(LogTell read alloc row)
    }

    fn to_value(&self, alloc: Global) -> Result<Value, Memory> {
        kind!(LogTell write self alloc)
    }
}

impl Formed for PoppedTag {
    fn from_row(alloc: Global, row: Row<'_>) -> Result<Self, Unread> {
        kind!(PoppedTag read alloc row)
    }

    fn to_value(&self, alloc: Global) -> Result<Value, Memory> {
        kind!(PoppedTag write self alloc)
    }
}

impl Formed for Peeked {
    fn from_row(alloc: Global, row: Row<'_>) -> Result<Self, Unread> {
        kind!(Peeked read alloc row)
    }

    fn to_value(&self, alloc: Global) -> Result<Value, Memory> {
        kind!(Peeked write self alloc)
    }
}

impl Formed for PeekedRecord {
    fn from_row(alloc: Global, row: Row<'_>) -> Result<Self, Unread> {
        kind!(PeekedRecord read alloc row)
    }

    fn to_value(&self, alloc: Global) -> Result<Value, Memory> {
        kind!(PeekedRecord write self alloc)
    }
}

impl Formed for LogRefusal {
    fn from_row(alloc: Global, row: Row<'_>) -> Result<Self, Unread> {
        kind!(LogRefusal read alloc row)
    }

    fn to_value(&self, alloc: Global) -> Result<Value, Memory> {
        kind!(LogRefusal write self alloc)
    }
}

impl Formed for SeqAsk {
    fn from_row(alloc: Global, row: Row<'_>) -> Result<Self, Unread> {
        kind!(SeqAsk read alloc row)
    }

    fn to_value(&self, alloc: Global) -> Result<Value, Memory> {
        kind!(SeqAsk write self alloc)
    }
}

impl Formed for SeqTell {
    fn from_row(alloc: Global, row: Row<'_>) -> Result<Self, Unread> {
        kind!(SeqTell read alloc row)
    }

    fn to_value(&self, alloc: Global) -> Result<Value, Memory> {
        kind!(SeqTell write self alloc)
    }
}

impl Formed for SeqRefusal {
    fn from_row(alloc: Global, row: Row<'_>) -> Result<Self, Unread> {
        kind!(SeqRefusal read alloc row)
    }

    fn to_value(&self, alloc: Global) -> Result<Value, Memory> {
        kind!(SeqRefusal write self alloc)
    }
}

impl Formed for Generation {
    fn from_row(alloc: Global, row: Row<'_>) -> Result<Self, Unread> {
        kind!(Generation read alloc row)
    }

    fn to_value(&self, alloc: Global) -> Result<Value, Memory> {
        kind!(Generation write self alloc)
    }
}

impl Formed for Outcome {
    fn from_row(alloc: Global, row: Row<'_>) -> Result<Self, Unread> {
        kind!(Outcome read alloc row)
    }

    fn to_value(&self, alloc: Global) -> Result<Value, Memory> {
        kind!(Outcome write self alloc)
    }
}

/// A phase that is no text, which no world gives, is written as the empty one.
impl Formed for Last {
    fn from_row(alloc: Global, row: Row<'_>) -> Result<Self, Unread> {
        kind!(Last read alloc row)
    }

    fn to_value(&self, alloc: Global) -> Result<Value, Memory> {
        match self {
            Last::Recoverer { phase } => {
                let phase = std::str::from_utf8(phase.as_slice()).unwrap_or("");
                Object::new(alloc)
                    .put("phase", text_value(alloc, phase))?
                    .named("recoverer")
            }
            _ => kind!(Last write self alloc),
        }
    }
}
