//! A device that counts its syncs.
use fr_record::{Device, DeviceFault};

/// A device that passes all calls on and counts the syncs.
#[derive(Drop)]
pub(crate) struct Counting<D: Device> {
    device: D,
    syncs: u64,
}

impl<D: Device> Counting<D> {
    pub(crate) fn new(device: D) -> Self {
        Counting { device, syncs: 0 }
    }

    pub(crate) fn syncs(&self) -> u64 {
        self.syncs
    }

    pub(crate) fn into_inner(self) -> D {
        self.device
    }
}

impl<D: Device> Device for Counting<D> {
    ghost disk = { λ c. D.disk c.device };

    ghost capacity_of = { λ c. D.capacity_of c.device };

    ghost failures_of = { λ c. D.failures_of c.device };

    ghost Led = { λ c d. D.Led c.device d.device };

    fn read_at(&mut self, at: usize, buffer: &mut [u8]) -> Result<(), DeviceFault> {
        self.device.read_at(at, buffer)
    }

    fn write_at(&mut self, at: usize, bytes: &[u8]) -> Result<(), DeviceFault> {
        self.device.write_at(at, bytes)
    }

    fn sync(&mut self) -> Result<(), DeviceFault> {
        self.syncs = self.syncs.saturating_add(1);
        self.device.sync()
    }

    fn len(&mut self) -> Result<usize, DeviceFault> {
        self.device.len()
    }

    fn capacity(&self) -> usize {
        self.device.capacity()
    }

    fn failures(&self) -> u64 {
        self.device.failures()
    }
}
