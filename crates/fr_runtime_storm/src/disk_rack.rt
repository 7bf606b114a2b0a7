//! Cells and logs over devices, and stores in tables.
ghost use Rattle.std.specs.Prelude.{◌≡◌, ◌≤◌, ◌<◌, [], None, false, IfErr, IfOk};
ghost use Rattle.fr_log.specs.LogState.{fresh_log};
ghost use Rattle.fr_register.specs.CellState.{fresh_cell};
ghost use Rattle.fr_runtime_storm.specs.Refusal.{IsRefusal};

use crate::devices::{Devices, MemoryDevices};
use fr_base::{LogId, NodeFault, Tag};
use fr_record_log::LogNode;
use fr_record_node::CellNode;
use fr_register::Cell;
use fr_runtime_threads::Rack;
use fr_sql_store::SqlStore;
use fr_undo::StoreFault;
use sqlite::MemStore;
use std::alloc::Global;

/// Cells and logs are record files, each on a device of its own, and each store is a database in memory. A cell or a log
/// whose device is full takes no ask more that would change it.
#[derive(Drop)]
pub struct FileRack<V: Devices> {
    devices: V,
}

/// Record files on devices in memory, each with room for 16,777,216 bytes, and databases in memory. What a device has
/// room for is taken when it is made, so the logs of an epoch cost their memory once its recoverer has a plan.
pub type DiskRack = FileRack<MemoryDevices>;

impl<V: Devices> FileRack<V> {
    /// Nodes on these devices.
    pub fn on(devices: V) -> Self
        ensures { result.devices ≡ devices }
    {
        FileRack { devices }
    }
}

impl FileRack<MemoryDevices> {
    /// Nodes on devices in memory.
    pub fn new() -> Self {
        FileRack::on(MemoryDevices)
    }
}

impl<V: Devices> Rack for FileRack<V> {
    ghost use Rattle.fr_runtime_storm.specs.Refusal.{IsRefusal};
    ghost use Rattle.fr_undo.specs.Calls.{IsTrouble};

    type Cell = CellNode<V::Device>;

    type Log = LogNode<V::Device>;

    type Store = SqlStore<MemStore>;

    ghost CanRefuse = { λ rack fault. IsRefusal (V.CanRefuse rack.devices) V.Device.failures_of (V.room rack.devices) fault };

    ghost CanRefuseStore = { λ rack fault. IsTrouble (λ any. Unit {0}) fault };

    fn cell(&self, alloc: Global, index: u8) -> Result<CellNode<V::Device>, NodeFault>
        ensures works { IfOk result (λ node. node.is_failed ≡ false) }
        ensures free { IfOk result (λ node. node.owed ≡ None) }
        ensures fresh { IfOk result (λ node. node.machine ≡ fresh_cell) }
        ensures records { IfOk result (λ node. node.records ≡ []) }
        ensures device { IfOk result (λ node. V.Device.capacity_of node.device ≡ V.room self.now.devices) }
        ensures refused { IfErr result (IsRefusal (V.CanRefuse self.now.devices) V.Device.failures_of (V.room self.now.devices)) }
    {
        let device = self.devices.cell(alloc, index)?;
        CellNode::format(alloc, device, Cell::new(alloc))
    }

    fn log(&self, alloc: Global, id: LogId, m: u8, k: u8) -> Result<LogNode<V::Device>, NodeFault>
        requires some { 1 ≤ k }
        requires fits { k ≤ m }
        requires limit { m ≤ 16 }
        requires place { id.index < m }
        ensures works { IfOk result (λ node. node.is_failed ≡ false) }
        ensures free { IfOk result (λ node. node.owed ≡ None) }
        ensures fresh { IfOk result (λ node. node.machine ≡ fresh_log id.epoch id.index m k) }
        ensures records { IfOk result (λ node. node.records ≡ []) }
        ensures device { IfOk result (λ node. V.Device.capacity_of node.device ≡ V.room self.now.devices) }
        ensures refused { IfErr result (IsRefusal (V.CanRefuse self.now.devices) V.Device.failures_of (V.room self.now.devices)) }
    {
        let device = self.devices.log(alloc, &id)?;
        LogNode::format(alloc, device, id, m, k)
    }

    fn store(&self, alloc: Global, _tag: Tag) -> Result<SqlStore<MemStore>, StoreFault> {
        SqlStore::in_memory(alloc)
    }
}
