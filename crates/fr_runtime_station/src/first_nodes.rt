//! The logs and the sequencer of the first generation.
ghost use Rattle.std.specs.Prelude.{◌≡◌, ◌≤◌, ◌+◌, ◌↔◌, length, map, IfErr, IfSome, None, OnOk, true};
ghost use Rattle.fr_base.specs.declared.place.NodeId.TheVariants as node;
ghost use Rattle.fr_runtime_station.specs.Answering.{IsClosingTrouble, all_answer};
ghost use Rattle.fr_runtime_station.specs.Named.{logs_named};

use crate::chosen::Chosen;
use crate::closing::{close_all, put_closed};
use crate::station::Station;
use fr_audit_journal::Journal;
use fr_base::{InMemory, Node, NodeFault};
use fr_log::Log;
use fr_proxy::Sequencer;
use std::alloc::Global;

/// The logs and the sequencer of the generation with which a cluster starts, each in its place. They are there from the
/// start, so nothing is written here while threads run.
#[derive(Drop)]
pub(crate) struct FirstNodes<L: Node<Plain = Log>> {
    chosen: Chosen,
    logs: Vec<Station<L>>,
    sequencer: Station<InMemory<Sequencer>>,
    ghost logs_named: { map (λ log. log.place) logs.items
        ≡ logs_named chosen.generation.epoch (length logs.items) },
    ghost sequencer_named: { sequencer.place ≡ node.Sequencer chosen.generation.epoch },
}

impl<L: Node<Plain = Log> + Drop> FirstNodes<L> {
    /// Those of a generation that is chosen from the start.
    pub(crate) fn new(
        chosen: Chosen,
        logs: Vec<Station<L>>,
        sequencer: Station<InMemory<Sequencer>>,
    ) -> Self
        requires logs { map (λ log. log.place) logs.items ≡ logs_named chosen.generation.epoch (length logs.items) }
        requires sequencer { sequencer.place ≡ node.Sequencer chosen.generation.epoch }
        ensures chosen { result.chosen ≡ chosen }
        ensures logs { result.logs.items ≡ logs.items }
    {
        FirstNodes {
            chosen,
            logs,
            sequencer,
        }
    }

    pub(crate) fn chosen(&self) -> Chosen
        ensures { result ≡ self.now.chosen }
    {
        self.chosen
    }

    pub(crate) fn log(&self, index: u8) -> Option<&Station<L>>
        ensures there { (result ≡ None) ↔ (length self.now.logs.items ≤ index) }
        ensures found { IfSome result (λ log. log.now.place ≡ node.Log self.now.chosen.generation.epoch index) }
    {
        self.logs.get(usize::from(index))
    }

    pub(crate) fn sequencer(&self) -> &Station<InMemory<Sequencer>>
        ensures { result.now.place ≡ node.Sequencer self.now.chosen.generation.epoch }
    {
        &self.sequencer
    }

    /// Nobody is to wait for these logs any more.
    pub(crate) fn let_go(&self) {
        // Each log, since a push goes to all of them (invariant 7).
        for log in &self.logs {
            log.let_go();
        }
    }

    /// Puts their closed journals behind others, of each one.
    pub(crate) fn close(self, alloc: Global, journals: &mut Vec<Journal>) -> Result<(), NodeFault>
        requires before { all_answer journals.old.items ≡ true }
        ensures answers { OnOk result (all_answer journals.new.items ≡ true) }
        ensures each { OnOk result (length journals.new.items
            ≡ length journals.old.items + (length self.logs.items + 1)) }
        ensures trouble { IfErr result (IsClosingTrouble L.CanMeet) }
    {
        let FirstNodes {
            chosen: _,
            logs,
            sequencer,
            ..
        } = self;
        close_all(alloc, logs, true, journals)?;
        // Each of them, whether something was entered or not: an audit wants the journals of all nodes of the start.
        put_closed(journals, sequencer.close(alloc)?, true)?;
        Ok(())
    }
}
