//! Why a row does not hold.
use fr_base::{Memory, NodeFault};
use fr_forms::ScriptFault;
use std::alloc::{AllocError, AllocFailed, Global};

/// Why a row does not hold.
#[derive(Drop)]
pub enum Wrong {
    /// There is no memory, and nothing was done: the row may be played again.
    Memory,
    /// There was no memory for a part of what the row does. Played again it goes on there.
    InPart,
    /// The row was done, and there was no memory to say so. Played again it would tell something else.
    Unsaid,
    /// The row is no row; what is wrong with it.
    Form(&'static str),
    /// A row for which there was no memory changed what its subject shows.
    Changed { before: Vec<u8>, now: Vec<u8> },
}

/// What is said of something that is not to be done again, as it is if there is memory to say it.
pub fn said<T: Drop>(value: Result<T, Wrong>) -> Result<T, Wrong> {
    match value {
        Err(Wrong::Memory) => Err(Wrong::Unsaid),
        value => value,
    }
}

/// What is wrong with what is in no form that is known.
pub const NO_FORM: Wrong = Wrong::Form(
    "this is not in the form that scenarios/README.md or docs/FORMATS.md gives it",
);

impl From<Memory> for Wrong {
    fn from(_: Memory) -> Wrong {
        Wrong::Memory
    }
}

/// Of a node that is made, opened or asked if the row says nothing of a fault.
impl From<NodeFault> for Wrong {
    fn from(fault: NodeFault) -> Wrong {
        match fault {
            NodeFault::Memory => Wrong::Memory,
            NodeFault::Device | NodeFault::Full | NodeFault::Failed | NodeFault::Broken => {
                Wrong::Form("a node met a fault that no row says")
            }
        }
    }
}

impl From<AllocError> for Wrong {
    fn from(_: AllocError) -> Wrong {
        Wrong::Memory
    }
}

impl<T: Drop> From<AllocFailed<T>> for Wrong {
    fn from(_: AllocFailed<T>) -> Wrong {
        Wrong::Memory
    }
}

impl From<ScriptFault> for Wrong {
    fn from(fault: ScriptFault) -> Wrong {
        match fault {
            ScriptFault::Memory => Wrong::Memory,
            ScriptFault::BadScript => NO_FORM,
        }
    }
}
