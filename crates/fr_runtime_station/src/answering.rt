//! What lies under the lock of a station.
ghost use Rattle.std.specs.Prelude.{◌≡◌, ◌<◌, IfErr, IfOk, true};
ghost use Rattle.fr_audit_journal.specs.Replays.{steps};
ghost use Rattle.fr_audit_journal.specs.Housing.{IsStruck, IsTrouble};
ghost use Rattle.fr_runtime_station.specs.Answering.{IsToldBy, answers};
ghost use Rattle.fr_audit_journal.specs.declared.act.Act.TheVariants as act;
ghost use Rattle.fr_runtime_station.specs.Called.{IsAsked};

use fr_ask::Tell;
use fr_audit_journal::{CallFault, Housable, Housed};
use fr_base::{Machine, Node, NodeId, Stamp};
use std::alloc::Global;

/// A cell, a log or a sequencer, with its journal.
#[derive(Drop)]
pub(crate) struct Answering<N: Node>
where
    N::Plain: Housable,
{
    housed: Housed<N>,
    ghost place: { answers housed.place ≡ true },
}

impl<N: Node> Answering<N>
where
    N::Plain: Housable,
    <N::Plain as Machine>::Ask: Drop,
{
    pub(crate) fn new(housed: Housed<N>) -> Self
        requires place { answers housed.place ≡ true }
    {
        Answering { housed }
    }

    /// Asks the node, as [`Housed::ask`] does.
    pub(crate) fn ask(
        &mut self,
        alloc: Global,
        stamp: Stamp,
        from: NodeId,
        ask: <N::Plain as Machine>::Ask,
    ) -> Result<(Stamp, Tell), CallFault>
    where
        N: Drop,
        ensures asked { IsAsked
            (steps N.Plain.wrapped N.Plain.unwrapped N.Plain.wrapped_tell N.Plain.told N.Plain.after)
            self.old.housed self.new.housed stamp from ask result }
        ensures above { IfOk result (λ told. stamp < told.0) }
        ensures told { IfOk result (λ got. IsToldBy N.Plain.wrapped_tell N.Plain.told ask got.1) }
        ensures trouble { IfErr result (IsTrouble N.CanMeet) }
    {
        self.housed.ask(alloc, stamp, from, ask)
    }

    /// Crashes the node, as [`Housed::crash`] does.
    pub(crate) fn crash(&mut self, alloc: Global, stamp: Stamp) -> Result<Stamp, CallFault>
    where
        N: Drop,
        ensures crashed { IsStruck act.Crashed
            (steps N.Plain.wrapped N.Plain.unwrapped N.Plain.wrapped_tell N.Plain.told N.Plain.after)
            self.old.housed self.new.housed stamp result }
        ensures above { IfOk result (λ at. stamp < at) }
        ensures trouble { IfErr result (IsTrouble N.CanMeet) }
    {
        self.housed.crash(alloc, stamp)
    }

    /// The node is lost, as [`Housed::lose`] does.
    pub(crate) fn lose(&mut self, alloc: Global, stamp: Stamp) -> Result<Stamp, CallFault>
    where
        N: Drop,
        ensures lost { IsStruck act.Lost
            (steps N.Plain.wrapped N.Plain.unwrapped N.Plain.wrapped_tell N.Plain.told N.Plain.after)
            self.old.housed self.new.housed stamp result }
        ensures above { IfOk result (λ at. stamp < at) }
        ensures trouble { IfErr result (IsTrouble N.CanMeet) }
    {
        self.housed.lose(alloc, stamp)
    }

    pub(crate) fn into_housed(self) -> Housed<N>
        ensures place { answers result.place ≡ true }
    {
        let Answering { housed, .. } = self;
        housed
    }
}
