//! Where the devices of cells and logs come from.
ghost use Rattle.std.specs.Prelude.{◌≡◌, ◌≤◌, IfErr, IfOk};
ghost use Rattle.fr_base.specs.declared.node.NodeFault.TheVariants.{Memory};

use fr_base::{LogId, NodeFault};
use fr_record::{Device, MemoryDevice};
use std::alloc::Global;

/// Where the devices of cells and logs come from, each used by nothing else.
pub trait Devices {
    ghost use Rattle.std.specs.Prelude.{ℕ};
    ghost use Rattle.fr_base.specs.declared.node.NodeFault.{NodeFault};

    /// A device.
    type Device: Device + Send + Drop;

    /// How many bytes each has room for.
    ghost room: { Self → ℕ };

    /// The faults with which one may be refused.
    ghost CanRefuse: { Self → NodeFault → Type 0 };

    /// The device of the cell of this number.
    fn cell(&self, alloc: Global, index: u8) -> Result<Self::Device, NodeFault>
        ensures capacity { IfOk result (λ device. Self.Device.capacity_of device ≡ room self.now) }
        ensures refused { IfErr result (CanRefuse self.now) };

    /// The device of a log.
    fn log(&self, alloc: Global, id: &LogId) -> Result<Self::Device, NodeFault>
        ensures capacity { IfOk result (λ device. Self.Device.capacity_of device ≡ room self.now) }
        ensures refused { IfErr result (CanRefuse self.now) };
}

/// How many bytes a device in memory has room for.
const CAPACITY: usize = 16_777_216;

/// Devices in memory with room for 16,777,216 bytes, which they take when they are made. None of them fails.
#[derive(Clone, Copy, Debug)]
pub struct MemoryDevices;

impl Devices for MemoryDevices {
    ghost use Rattle.std.specs.Prelude.{◌≡◌};
    ghost use Rattle.fr_base.specs.declared.node.NodeFault.TheVariants.{Memory};

    type Device = MemoryDevice;

    ghost room = { λ d. 16777216 };

    ghost CanRefuse = { λ d fault. fault ≡ Memory };

    fn cell(&self, alloc: Global, _index: u8) -> Result<MemoryDevice, NodeFault>
        ensures capacity { IfOk result (λ device. device.capacity ≡ 16777216) }
        ensures only_memory { IfErr result (λ fault. fault ≡ Memory) }
    {
        Ok(MemoryDevice::new(alloc, CAPACITY)?)
    }

    fn log(&self, alloc: Global, _id: &LogId) -> Result<MemoryDevice, NodeFault>
        ensures capacity { IfOk result (λ device. device.capacity ≡ 16777216) }
        ensures only_memory { IfErr result (λ fault. fault ≡ Memory) }
    {
        Ok(MemoryDevice::new(alloc, CAPACITY)?)
    }
}
