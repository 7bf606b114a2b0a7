//! Racks of which a cell or a store fails once, a device fails, or a part is refused, by their names.
ghost use Rattle.std.specs.Prelude.{◌≡◌};

use crate::events::{Counts, count};
use crate::rows::RackWord;
use fr_base::{InMemory, LogId, Node, NodeFault, Reopened, Tag};
use fr_log::Log;
use fr_record::{Device, FaultyDevice};
use fr_register::{Cell, CellAsk, CellTell};
use fr_runtime::Rack;
use fr_runtime_storm::{Devices, FileRack, MemoryDevices};
use fr_undo::StoreFault;
use std::alloc::Global;
use test_store::FailsOnce;

/// A cell in memory which, if it is frail, fails at each write of ballot 513, that leaves nothing.
#[derive(Drop)]
pub(crate) struct FrailCell<'a> {
    cell: InMemory<Cell>,
    is_frail: bool,
    held: Option<CellAsk>,
    failures: u64,
    counts: &'a Counts,
}

fn is_write(ask: &CellAsk) -> bool {
    match ask {
        CellAsk::Write { ballot, .. } => ballot.get() == 513,
        _ => false,
    }
}

impl Node for FrailCell<'_> {
    ghost use Rattle.std.specs.Prelude.{◌≡◌, ◌⊎◌, is_some, option_map};
    ghost use Rattle.fr_base.specs.declared.node.NodeFault.TheVariants.{Memory, Device};
    ghost use Rattle.fr_register.specs.Cell.{next_of};

    type Plain = Cell;

    ghost state = { λ n. n.cell.machine };

    ghost is_failed = { λ n. is_some n.held };

    ghost owed = { λ n. option_map (λ ask. next_of n.cell.machine ask) n.held };

    ghost failures = { λ n. n.failures };

    ghost LacksRoom = { λ n ask. ⊥ };

    ghost Throughout = { λ P n later. P n.cell.machine × P later.cell.machine };

    ghost CanMeet = { λ fault. (fault ≡ Memory) ⊎ (fault ≡ Device) };

    fn serve(&mut self, alloc: Global, ask: CellAsk) -> Result<CellTell, NodeFault> {
        if self.held.is_some() {
            return Err(NodeFault::Failed);
        }
        if self.is_frail && is_write(&ask) {
            self.failures = self.failures.saturating_add(1);
            self.held = Some(ask);
            return Err(NodeFault::Device);
        }
        self.cell.serve(alloc, ask)
    }

    fn reopen(&mut self, _alloc: Global) -> Result<Reopened, NodeFault> {
        if self.is_frail {
            count(&self.counts.frail);
        }
        self.held = None;
        Ok(Reopened::Before)
    }

    fn plain(&self) -> &Cell {
        self.cell.plain()
    }
}

/// All in memory, but for what a word says to fail or to be refused.
#[derive(Drop)]
pub(crate) struct FrailRack<'a> {
    pub(crate) word: RackWord,
    pub(crate) counts: &'a Counts,
}

impl<'a> Rack for FrailRack<'a> {
    type Cell = FrailCell<'a>;

    type Log = InMemory<Log>;

    type Store = FailsOnce;

    ghost CanRefuse = { λ rack fault. Unit {0} };

    ghost CanRefuseStore = { λ rack fault. Unit {0} };

    fn cell(&self, alloc: Global, index: u8) -> Result<FrailCell<'a>, NodeFault> {
        match self.word {
            RackWord::CellRefused(other) if other == index => Err(NodeFault::Device),
            RackWord::CellUnfit(other) if other == index => Err(NodeFault::Memory),
            word => Ok(FrailCell {
                cell: InMemory::new(Cell::new(alloc)),
                is_frail: matches!(word, RackWord::CellFails(other) if other == index),
                held: None,
                failures: 0,
                counts: self.counts,
            }),
        }
    }

    fn log(&self, alloc: Global, id: LogId, m: u8, k: u8) -> Result<InMemory<Log>, NodeFault> {
        match (self.word, id.epoch.get()) {
            (RackWord::LogFull(other), 257) if other == id.index => Err(NodeFault::Full),
            (RackWord::LogRefused(other), 513) if other == id.index => Err(NodeFault::Device),
            (RackWord::LogUnfit(other), 513) if other == id.index => Err(NodeFault::Memory),
            _ => Ok(InMemory::new(Log::new(alloc, id, m, k))),
        }
    }

    fn store(&self, alloc: Global, tag: Tag) -> Result<FailsOnce, StoreFault> {
        match self.word {
            RackWord::StoreRefused(other) if other == tag.get() => Err(StoreFault::Device),
            RackWord::StoreUnfit(other) if other == tag.get() => Err(StoreFault::Memory),
            RackWord::Breaks(call) => Ok(FailsOnce::new(alloc, call, false)),
            RackWord::BreaksDone(call) => Ok(FailsOnce::new(alloc, call, true)),
            _ => Ok(FailsOnce::new(alloc, u32::MAX, false)),
        }
    }
}

/// Devices of which that of log (257, 0) fails as a word says, and the others work.
#[derive(Drop)]
pub(crate) struct FrailDevices<V: Devices> {
    devices: V,
    word: RackWord,
}

fn failing<D: Device + Drop>(device: D, word: RackWord) -> FaultyDevice<D>
    ensures { result.device ≡ device }
{
    match word {
        RackWord::LogOnce(call) => FaultyDevice::once(device, call),
        RackWord::LogFrom(call) => FaultyDevice::from(device, call),
        _ => FaultyDevice::once(device, 0),
    }
}

impl<V: Devices> Devices for FrailDevices<V> {
    type Device = FaultyDevice<V::Device>;

    ghost room = { λ d. V.room d.devices };

    ghost CanRefuse = { λ d fault. V.CanRefuse d.devices fault };

    fn cell(&self, alloc: Global, index: u8) -> Result<FaultyDevice<V::Device>, NodeFault> {
        Ok(failing(self.devices.cell(alloc, index)?, RackWord::Map))
    }

    fn log(&self, alloc: Global, id: &LogId) -> Result<FaultyDevice<V::Device>, NodeFault> {
        let is_frail = id.epoch.get() == 257 && id.index == 0;
        let word = if is_frail { self.word } else { RackWord::Map };
        Ok(failing(self.devices.log(alloc, id)?, word))
    }
}

/// Record files on such devices in memory.
pub(crate) fn files(word: RackWord) -> FileRack<FrailDevices<MemoryDevices>> {
    FileRack::on(FrailDevices {
        devices: MemoryDevices,
        word,
    })
}
