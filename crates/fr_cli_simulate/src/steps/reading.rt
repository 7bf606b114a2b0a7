//! The step `read`: a storage server answers a read at a version, and nothing happens in the world.
use crate::names::event_name;
use fr_base::{Bytes, Memory};
use fr_run::NotEnabled;
use fr_script::simulate::Read;
use fr_storage::ReadFault;
use fr_world::World;
use std::alloc::Global;

/// Has a storage server answer a read.
pub(crate) fn line_of(alloc: Global, world: &mut World, read: &Read) -> Result<String, Memory> {
    match world.read(alloc, read.storage, &read.key, read.version) {
        Some(Ok(value)) => value_line(alloc, read, value.as_ref()),
        Some(Err(ReadFault::NotMine)) => refused_line(alloc, read, "NotMine"),
        Some(Err(ReadFault::TooOld)) => refused_line(alloc, read, "TooOld"),
        Some(Err(ReadFault::FutureVersion)) => refused_line(alloc, read, "FutureVersion"),
        // Its store, in memory, has no other fault than to want that.
        Some(Err(ReadFault::Store(_))) => Err(Memory),
        None => refused_line(alloc, read, event_name(NotEnabled::NoSuchNode)),
    }
}

/// The line of the value that the key had; none if it had none.
fn value_line(alloc: Global, read: &Read, value: Option<&Bytes>) -> Result<String, Memory> {
    let tag = read.storage.get();
    let version = read.version.get();
    let value = value_text(alloc, value)?;
    let value = value.as_str();
    Ok(format!(in alloc; "read {tag} {version} {value}\n")?)
}

/// A value in hex, `-` for no bytes, and `none` for no value.
fn value_text(alloc: Global, value: Option<&Bytes>) -> Result<String, Memory> {
    match value {
        Some(value) if value.as_slice().is_empty() => Ok(String::from_str(alloc, "-")?),
        Some(value) => Ok(hex::encode(alloc, value.as_slice())?),
        None => Ok(String::from_str(alloc, "none")?),
    }
}

/// The line of a read that the server refused.
fn refused_line(alloc: Global, read: &Read, name: &str) -> Result<String, Memory> {
    let tag = read.storage.get();
    let version = read.version.get();
    Ok(format!(in alloc; "read {tag} {version} refused {name}\n")?)
}
