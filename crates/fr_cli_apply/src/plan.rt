//! The operations of a script, as they are run.
ghost use Rattle.std.specs.Prelude.{◌≡◌};
ghost use Rattle.fr_cli_apply.specs.Plan.{plan};

use crate::script::Operation;
use fr_base::Version;
use fr_mutation::{Batch, BatchFault};

/// An operation as it is run. Of a batch that breaks a limit only the limit is kept.
#[derive(Debug, Drop)]
pub(crate) enum Planned {
    /// Applies a batch at a version.
    Apply { version: Version, batch: Batch },
    /// Refuses a batch by the limit that it breaks.
    Beyond { fault: BatchFault },
    /// Undoes all versions above one.
    Undo { to: Version },
    /// Forgets how to undo below a version.
    Forget { through: Version },
    /// Moves the version applied, with nothing else changed.
    Advance { version: Version },
}

impl Planned {
    /// The operation as it is run. A batch beyond its limits is let go.
    pub(crate) fn new(operation: Operation) -> Self
        ensures { result ≡ plan operation }
    {
        match operation {
            Operation::Apply { version, batch } => match Batch::new(batch.into_vec()) {
                Ok(batch) => Planned::Apply { version, batch },
                Err(fault) => Planned::Beyond { fault },
            },
            Operation::Undo { to } => Planned::Undo { to },
            Operation::Forget { through } => Planned::Forget { through },
            Operation::Advance { version } => Planned::Advance { version },
        }
    }

    /// The version that it asks for. A batch that breaks a limit asks for none that counts.
    pub(crate) fn asked(&self) -> Version {
        match self {
            Planned::Apply { version, .. } | Planned::Advance { version } => *version,
            Planned::Undo { to } => *to,
            Planned::Forget { through } => *through,
            Planned::Beyond { .. } => Version::ZERO,
        }
    }
}
