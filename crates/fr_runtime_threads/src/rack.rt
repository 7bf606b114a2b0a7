//! Where the nodes and stores of a cluster come from.
ghost use Rattle.std.specs.Prelude.{◌≡◌, ◌≤◌, ◌<◌, IfErr, IfOk, false, None};
ghost use Rattle.fr_log.specs.LogState.{fresh_log};
ghost use Rattle.fr_register.specs.CellState.{fresh_cell};
ghost use Rattle.fr_undo.specs.State.{fresh};

use fr_base::{InMemory, LogId, Node, NodeFault, Tag};
use fr_log::Log;
use fr_register::Cell;
use fr_undo::{MapStore, ShardStore, StoreFault};
use std::alloc::Global;

/// Where the nodes and stores of a cluster come from, each fresh.
pub trait Rack {
    ghost use Rattle.fr_base.specs.declared.node.NodeFault.{NodeFault};
    ghost use Rattle.fr_undo.specs.declared.fault.StoreFault.{StoreFault};

    /// A coordinator's cell, over whatever the rack keeps it on.
    type Cell: Node<Plain = Cell> + Send + Drop;

    /// A log, over whatever the rack keeps it on.
    type Log: Node<Plain = Log> + Send + Drop;

    /// The store of a storage server.
    type Store: ShardStore + Send + Drop;

    /// The faults with which a cell or a log may be refused: so a rack in memory that gives up does not pass.
    ghost CanRefuse: { Self → NodeFault → Type 0 };

    /// Those with which a store may be.
    ghost CanRefuseStore: { Self → StoreFault → Type 0 };

    /// The cell of this number, fresh: never asked, with promised and written 0.
    fn cell(&self, alloc: Global, index: u8) -> Result<Self::Cell, NodeFault>
        ensures works { IfOk result (λ node. Self.Cell.is_failed node ≡ false) }
        ensures free { IfOk result (λ node. Self.Cell.owed node ≡ None) }
        ensures fresh { IfOk result (λ node. Self.Cell.state node ≡ fresh_cell) }
        ensures refused { IfErr result (CanRefuse self.now) };

    /// A log of a generation of `m` logs, of which `k` hold each tag.
    fn log(&self, alloc: Global, id: LogId, m: u8, k: u8) -> Result<Self::Log, NodeFault>
        requires some { 1 ≤ k }
        requires fits { k ≤ m }
        requires limit { m ≤ 16 }
        requires place { id.index < m }
        ensures works { IfOk result (λ node. Self.Log.is_failed node ≡ false) }
        ensures free { IfOk result (λ node. Self.Log.owed node ≡ None) }
        ensures fresh { IfOk result (λ node. Self.Log.state node ≡ fresh_log id.epoch id.index m k) }
        ensures refused { IfErr result (CanRefuse self.now) };

    /// The store of this tag, fresh: empty, at version 0.
    fn store(&self, alloc: Global, tag: Tag) -> Result<Self::Store, StoreFault>
        ensures works { IfOk result (λ store. Self.Store.is_failed store ≡ false) }
        ensures fresh { IfOk result (λ store. Self.Store.state store ≡ fresh) }
        ensures refused { IfErr result (CanRefuseStore self.now) };
}

/// All in memory, with no device that could fail: nothing is refused.
#[derive(Clone, Copy, Debug)]
pub struct PlainRack;

impl Rack for PlainRack {
    type Cell = InMemory<Cell>;

    type Log = InMemory<Log>;

    type Store = MapStore;

    ghost CanRefuse = { λ rack fault. ⊥ };

    ghost CanRefuseStore = { λ rack fault. ⊥ };

    fn cell(&self, alloc: Global, _index: u8) -> Result<InMemory<Cell>, NodeFault> {
        // In memory all cells are made alike: the number matters to a device alone.
        Ok(InMemory::new(Cell::new(alloc)))
    }

    fn log(&self, alloc: Global, id: LogId, m: u8, k: u8) -> Result<InMemory<Log>, NodeFault> {
        Ok(InMemory::new(Log::new(alloc, id, m, k)))
    }

    fn store(&self, alloc: Global, _tag: Tag) -> Result<MapStore, StoreFault> {
        Ok(MapStore::new(alloc))
    }
}
