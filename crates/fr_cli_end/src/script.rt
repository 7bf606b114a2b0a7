//! The script of `end`.
ghost use Rattle.std.specs.Prelude.{◌≡◌, ◌⊎◌, Err, None, Some, IfOk, IfErr};
ghost use Rattle.fr_cli_end.specs.Script.{replies_of};

use crate::{tokens, tree};
use fr_cli_json::CliFault;
use fr_cli_json::tokens::Unread;
use fr_cli_json::tree::read_value;
use fr_epoch::Reply;
use std::alloc::Global;

/// Reads the script that an input is: from its tokens, if it has the usual form, and else from the tree of its JSON,
/// which alone knows that it is none.
pub(crate) fn read_script(alloc: Global, input: Vec<u8>) -> Result<Vec<Reply>, CliFault>
    ensures ok { IfOk result (λ replies. replies_of input.items ≡ Some replies.items) }
    ensures bad { result ≡ Err CliFault.BadScript → replies_of input.items ≡ None }
    ensures fault { IfErr result (λ e. (e ≡ CliFault.BadScript) ⊎ (e ≡ CliFault.Memory)) }
{
    match tokens::read_script(alloc, input.as_slice()) {
        Ok(replies) => Ok(replies),
        Err(Unread::Memory) => Err(CliFault::Memory),
        // The input is let go before the replies are made.
        Err(Unread::Unusual) => tree::read_replies(alloc, read_value(alloc, input)?),
    }
}
