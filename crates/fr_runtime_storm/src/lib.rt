//! Storms: asks that are lost, repeated or late, nodes that crash or are lost, and batches, each drawn from a seed. Beside
//! them stand racks that keep all they have on devices and in tables: cells and logs in record files, and the stores of
//! storage servers in databases. In one of these each device and each disk refuses a call again and again, and passes so
//! many on between two of them as a seed draws.
#![tactic(auto)]

mod device;
mod devices;
mod disk;
mod disk_rack;
mod draws;
mod frailty;
mod orders;
mod rack;
mod store;
mod storm;

pub use device::FrailDevice;
pub use devices::{Devices, MemoryDevices};
pub use disk::FrailDisk;
pub use disk_rack::{DiskRack, FileRack};
pub use draws::{Draws, word_of};
pub use fr_runtime_threads::Rack;
pub use frailty::{Frailty, Fuse, RefusedCalls};
pub use orders::DrawnOrders;
pub use rack::{FrailDevices, FrailRack};
pub use store::FrailStore;
pub use storm::Storm;
