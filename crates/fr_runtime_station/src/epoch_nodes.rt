//! The logs and the sequencer of an epoch that may come.
ghost use Rattle.std.specs.Prelude.{◌≡◌, ◌≤◌, length, map, IfErr, IfOk, IfSome, OnOk, true};
ghost use Rattle.fr_base.specs.declared.place.NodeId.TheVariants as node;
ghost use Rattle.fr_runtime_station.specs.Answering.{IsClosingTrouble, all_answer};
ghost use Rattle.fr_runtime_station.specs.Named.{logs_named};

use crate::chosen::Chosen;
use crate::closing::{close_all, put_closed};
use crate::station::Station;
use fr_audit_journal::Journal;
use fr_base::{Epoch, InMemory, LogId, Memory, Node, NodeFault, Stamp};
use fr_log::Log;
use fr_proxy::Sequencer;
use std::alloc::Global;
use std::sync::{OnceLock, Wait};

/// The logs of an epoch, each in its place, and the stamp from which on they are there.
#[derive(Drop)]
struct Logs<L: Node<Plain = Log>> {
    epoch: Epoch,
    stations: Vec<Station<L>>,
    stamp: Stamp,
    ghost named: { map (λ log. log.place) stations.items ≡ logs_named epoch (length stations.items) },
}

impl<L: Node<Plain = Log>> Logs<L> {
    fn get(&self, index: u8) -> Option<&Station<L>>
        ensures { IfSome result (λ log. log.now.place ≡ node.Log self.now.epoch index) }
    {
        self.stations.get(usize::from(index))
    }
}

/// The sequencer of a generation whose state is chosen.
#[derive(Drop)]
struct Opened {
    sequencer: Station<InMemory<Sequencer>>,
    chosen: Chosen,
    ghost named: { sequencer.place ≡ node.Sequencer chosen.generation.epoch },
}

/// The logs of an epoch that may come, as many as its generation has, and its sequencer. Each come once: until then no
/// thread finds them, and from then on each does, and waits for nobody. What comes says itself of which epoch it is,
/// and is looked for only there: a contract knows nothing of what is written once, but what is true of all of its type.
///
/// The places are made before the threads start, the nodes by the recoverer, who knows how many logs its generation
/// has. So a look-up takes no lock round all that is published, and an epoch that never comes costs nothing.
#[derive(Drop)]
pub(crate) struct EpochNodes<L: Node<Plain = Log>> {
    epoch: Epoch,
    logs: OnceLock<Logs<L>>,
    opened: OnceLock<Opened>,
}

/// Those of epochs that may come, in their order.
pub(crate) fn all_to_come<L: Node<Plain = Log> + Drop>(
    alloc: Global,
    epochs: &[Epoch],
) -> Result<Vec<EpochNodes<L>>, Memory>
    ensures { IfOk result (λ all. map (λ nodes. nodes.epoch) all.items ≡ epochs.now) }
{
    let mut all = Vec::with_capacity(alloc, epochs.len())?;
    for epoch in epochs {
        all.push(EpochNodes::to_come(*epoch))?;
    }
    Ok(all)
}

impl<L: Node<Plain = Log> + Drop> EpochNodes<L> {
    /// Those of an epoch that may come, of which none is there.
    pub(crate) fn to_come(epoch: Epoch) -> Self
        ensures { result.epoch ≡ epoch }
    {
        EpochNodes {
            epoch,
            logs: OnceLock::new(),
            opened: OnceLock::new(),
        }
    }

    pub(crate) fn epoch(&self) -> Epoch
        ensures { result ≡ self.now.epoch }
    {
        self.epoch
    }

    /// The logs of the epoch are there from this stamp on. If others came before, those stay, and these are dropped.
    pub(crate) fn put_logs<R: Wait>(
        &self,
        rt: &R,
        epoch: Epoch,
        stations: Vec<Station<L>>,
        stamp: Stamp,
    )
        requires named { map (λ log. log.place) stations.items ≡ logs_named epoch (length stations.items) }
    {
        // The second set is refused, and its stations are dropped: other threads may have found the first (invariant
        // 5).
        let _ = self.logs.set(
            rt,
            Logs {
                epoch,
                stations,
                stamp,
            },
        );
    }

    /// The state of the generation is chosen, and its sequencer is there. If another came before, that one stays, and
    /// this one is dropped.
    pub(crate) fn open<R: Wait>(
        &self,
        rt: &R,
        sequencer: Station<InMemory<Sequencer>>,
        chosen: Chosen,
    )
        requires named { sequencer.place ≡ node.Sequencer chosen.generation.epoch }
    {
        // As for the logs (invariant 5): a second sequencer of an epoch would give the same versions again.
        let _ = self.opened.set(rt, Opened { sequencer, chosen });
    }

    /// This log, once it is there, with the stamp from which on it is.
    pub(crate) fn log(&self, id: LogId) -> Option<(&Station<L>, Stamp)>
        ensures found { IfSome result (λ found. found.0.now.place ≡ node.Log id.epoch id.index) }
    {
        let logs = self.logs.get()?;
        // Never so, but a contract knows of what is written once only what is true of all of its type (invariant 4).
        if logs.epoch != id.epoch {
            return None;
        }
        let log = logs.get(id.index)?;
        Some((log, logs.stamp))
    }

    /// The sequencer of this epoch, once it is there, with the stamp from which on it is.
    pub(crate) fn sequencer(&self, epoch: Epoch) -> Option<(&Station<InMemory<Sequencer>>, Stamp)>
        ensures found { IfSome result (λ found. found.0.now.place ≡ node.Sequencer epoch) }
    {
        let opened = self.opened.get()?;
        // As for the logs (invariant 4).
        if opened.chosen.generation.epoch() != epoch {
            return None;
        }
        Some((&opened.sequencer, opened.chosen.stamp))
    }

    /// The generation, once its state is chosen.
    pub(crate) fn chosen(&self) -> Option<Chosen> {
        let opened = self.opened.get()?;
        Some(opened.chosen)
    }

    /// Nobody is to wait for these logs any more, once they are there.
    pub(crate) fn let_go(&self) {
        // Before they are there nobody waits for them: `wait_for` answers false at once.
        if let Some(logs) = self.logs.get() {
            for log in &logs.stations {
                log.let_go();
            }
        }
    }

    /// Puts the closed journals of those that came behind others, if something was entered.
    pub(crate) fn close(self, alloc: Global, journals: &mut Vec<Journal>) -> Result<(), NodeFault>
        requires before { all_answer journals.old.items ≡ true }
        ensures answers { OnOk result (all_answer journals.new.items ≡ true) }
        ensures more { OnOk result (length journals.old.items ≤ length journals.new.items) }
        ensures trouble { IfErr result (IsClosingTrouble L.CanMeet) }
    {
        let EpochNodes {
            epoch: _,
            logs,
            opened,
        } = self;
        // An epoch that never came has no node, and so no journal.
        if let Some(logs) = logs.into_inner() {
            close_all(alloc, logs.stations, false, journals)?;
        }
        if let Some(opened) = opened.into_inner() {
            put_closed(journals, opened.sequencer.close(alloc)?, false)?;
        }
        Ok(())
    }
}
