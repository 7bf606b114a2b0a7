//! The script of `apply`.
ghost use Rattle.std.specs.Prelude.{◌≡◌, ◌⊎◌, None, Some, IfOk, IfErr};
ghost use Rattle.fr_cli_apply.specs.Plan.{plan_of};

mod tokens;
mod tree;

use crate::plan::Planned;
use fr_base::Version;
use fr_cli_json::tokens::Unread;
use fr_cli_json::{CliFault, Mutations};
use std::alloc::Global;

/// An operation of a script.
#[derive(Debug, Drop)]
pub enum Operation {
    /// Applies a batch at a version.
    Apply { version: Version, batch: Mutations },
    /// Undoes all versions above one.
    Undo { to: Version },
    /// Forgets how to undo below a version.
    Forget { through: Version },
    /// Moves the version applied, with nothing else changed.
    Advance { version: Version },
}

/// Reads the script that an input is: from its tokens, if it has the usual form, and else from the tree of its JSON,
/// which alone knows that it is none.
pub(crate) fn read_script(alloc: Global, input: Vec<u8>) -> Result<Vec<Planned>, CliFault>
    ensures ok { IfOk result (λ script. plan_of input.items ≡ Some script.items) }
    ensures bad { result ≡ Err CliFault.BadScript → plan_of input.items ≡ None }
    ensures fault { IfErr result (λ e. (e ≡ CliFault.BadScript) ⊎ (e ≡ CliFault.Memory)) }
{
    match tokens::read_script(alloc, input.as_slice()) {
        Ok(script) => Ok(script),
        Err(Unread::Memory) => Err(CliFault::Memory),
        Err(Unread::Unusual) => tree::read_script(alloc, input),
    }
}
