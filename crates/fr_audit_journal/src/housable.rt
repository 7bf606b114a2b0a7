//! Machines that are kept with a journal.
ghost use Rattle.std.specs.Prelude.{◌≡◌, IfOk};

use fr_ask::Named;
use fr_base::{Machine, Memory};

/// A machine whose asks are copied, so that one is entered and the other served.
pub trait Housable: Named {
    /// An equal ask.
    fn copy_ask(ask: &Self::Ask) -> Result<Self::Ask, Memory>
        ensures { IfOk result (λ copy. copy ≡ ask.now) };

    /// Every machine is in a state to which asks can bring it.
    fn stands(&self)
        ensures { Self.IsReached self.now };
}

/// The laws of a machine on which a node with its journal rests.
pub(crate) fn repeat_law<M: Machine>()
    ensures stays { (s : M) (a : M.Ask) → M.IsReached s → M.IsReached (M.after s a) }
    ensures told { (s : M) (a : M.Ask) → M.IsReached s → M.told (M.after s a) a ≡ M.told s a }
    ensures after { (s : M) (a : M.Ask) → M.IsReached s → M.after (M.after s a) a ≡ M.after s a }
{}
