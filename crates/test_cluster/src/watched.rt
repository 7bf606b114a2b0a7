//! Logs that are watched: with which numbers they are made, whether two threads are in two of them at once, and how often
//! one is opened again.
ghost use Rattle.std.specs.Prelude.{◌≡◌};

use crate::script::Script;
use fr_base::{LogId, Node, NodeFault, Reopened, Tag};
use fr_log::{Log, LogAsk, LogTell};
use fr_runtime::Rack;
use fr_undo::StoreFault;
use std::alloc::Global;
use std::sync::Wait;

/// A log that is watched.
#[derive(Drop)]
pub(crate) struct WatchedLog<'a, N, R> {
    log: N,
    id: LogId,
    script: &'a Script<'a, R>,
}

impl<N: Node<Plain = Log>, R: Wait> Node for WatchedLog<'_, N, R> {
    type Plain = Log;

    ghost state = { λ n. N.state n.log };

    ghost is_failed = { λ n. N.is_failed n.log };

    ghost owed = { λ n. N.owed n.log };

    ghost failures = { λ n. N.failures n.log };

    ghost LacksRoom = { λ n ask. N.LacksRoom n.log ask };

    ghost Throughout = { λ P n later. N.Throughout P n.log later.log };

    ghost CanMeet = { N.CanMeet };

    fn serve(&mut self, alloc: Global, ask: LogAsk) -> Result<LogTell, NodeFault> {
        self.script.serves(self.id, &ask);
        self.log.serve(alloc, ask)
    }

    fn reopen(&mut self, alloc: Global) -> Result<Reopened, NodeFault> {
        self.script.reopens(self.id);
        self.log.reopen(alloc)
    }

    fn plain(&self) -> &Log {
        self.log.plain()
    }
}

/// The nodes of a rack, with logs that are watched.
#[derive(Drop)]
pub(crate) struct WatchedRack<'a, K, R> {
    pub(crate) rack: K,
    pub(crate) script: &'a Script<'a, R>,
}

impl<'a, K: Rack, R: Wait + Sync> Rack for WatchedRack<'a, K, R> {
    type Cell = K::Cell;

    type Log = WatchedLog<'a, K::Log, R>;

    type Store = K::Store;

    ghost CanRefuse = { λ r fault. K.CanRefuse r.rack fault };

    ghost CanRefuseStore = { λ r fault. K.CanRefuseStore r.rack fault };

    fn cell(&self, alloc: Global, index: u8) -> Result<K::Cell, NodeFault> {
        self.rack.cell(alloc, index)
    }

    fn log(
        &self,
        alloc: Global,
        id: LogId,
        m: u8,
        k: u8,
    ) -> Result<WatchedLog<'a, K::Log, R>, NodeFault> {
        let LogId { epoch, index } = id;
        self.script.makes(epoch.get(), m, k);
        Ok(WatchedLog {
            log: self.rack.log(alloc, id, m, k)?,
            id: LogId { epoch, index },
            script: self.script,
        })
    }

    fn store(&self, alloc: Global, tag: Tag) -> Result<K::Store, StoreFault> {
        self.rack.store(alloc, tag)
    }
}
