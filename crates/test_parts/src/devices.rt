//! Devices in memory, and such that fail when they are told to.
ghost use Rattle.std.specs.Prelude.{◌≤◌, length};

use fr_base::Memory;
use fr_record::{Device, FaultyDevice, MemoryDevice};
use std::process::Abort;
use std::test::Fail;

const ROOM: usize = 64;

fn first_byte<D: Device>(device: &mut D) -> Option<u8>
    requires { 1 ≤ length (D.disk device.old).content }
{
    let mut byte = [0];
    match device.read_at(0, &mut byte) {
        Ok(()) => Some(byte[0]),
        Err(_) => None,
    }
}

/// Whether the second call fails, and no other; `capacity` and `failures` are no calls.
fn fails_once(device: &mut FaultyDevice<MemoryDevice>) -> bool {
    device.write_at(0, &[7]).is_ok()
        && device.sync().is_err()
        && device.calls() == 2
        && device.failures() == 1
        && device.sync().is_ok()
        && device.len() == Ok(1)
        && device.capacity() == ROOM
}

/// The device in memory below one that failed in each call.
fn unread(rt: &impl Abort, inner: MemoryDevice) -> MemoryDevice
    requires { 1 ≤ length inner.bytes }
{
    let mut device = FaultyDevice::from(inner, 1);
    assert!(rt; first_byte(&mut device).is_none() && device.len().is_err());
    assert!(rt; device.failures() == 2);
    device.into_inner()
}

/// Whether the device in memory has this byte, and gives it once the device above it failed in each call.
fn keeps(rt: &impl Abort, inner: MemoryDevice, byte: u8) -> bool {
    if inner.bytes().is_empty() {
        return false;
    }
    let mut inner = unread(rt, inner);
    !inner.bytes().is_empty() && first_byte(&mut inner) == Some(byte)
}

#[test]
fn a_device_that_fails(rt: HostRuntime) -> Result<(), Fail> {
    let mut device = FaultyDevice::once(MemoryDevice::new(rt.alloc(), ROOM)?, 2);
    assert!(rt; fails_once(&mut device));
    assert!(rt; keeps(&rt, device.into_inner(), 7));
    Ok(())
}

/// A device of more bytes than there can be is not made.
#[test]
fn a_device_without_memory(rt: HostRuntime) {
    assert!(rt; MemoryDevice::new(rt.alloc(), usize::MAX).err() == Some(Memory));
}
