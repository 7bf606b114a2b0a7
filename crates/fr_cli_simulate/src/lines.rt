//! The lines of storage servers.
ghost use Rattle.std.specs.Prelude.{◌≡◌, IfErr, OnOk};
ghost use Rattle.fr_cli_json.specs.Calls.{IsWriteFault};

use fr_ask::{Last, Rows};
use fr_base::{Epoch, NodeId, Tag, Version};
use fr_cli_apply::put_rows;
use fr_cli_json::{CallCounts, CliFault, put};
use fr_world::World;
use std::alloc::Global;
use std::io::Write;

/// No tag is as great.
const MAX_TAGS: u8 = 32;

/// Writes the state of each storage server, and its rows by key.
pub(crate) fn put_storages<W: Write>(
    alloc: Global,
    world: &World,
    calls: &mut CallCounts,
    writer: &mut W,
) -> Result<(), CliFault>
    ensures fault { IfErr result (λ e. IsWriteFault calls.new e) }
    ensures done { OnOk result (calls.new ≡ calls.old) }
{
    for number in 0..MAX_TAGS {
        if let Some(tag) = Tag::new(number) {
            put_storage(alloc, world, tag, calls, writer)?;
        }
    }
    Ok(())
}

/// Writes the state of the storage server of a tag, if there is one.
fn put_storage<W: Write>(
    alloc: Global,
    world: &World,
    tag: Tag,
    calls: &mut CallCounts,
    writer: &mut W,
) -> Result<(), CliFault>
    ensures fault { IfErr result (λ e. IsWriteFault calls.new e) }
    ensures done { OnOk result (calls.new ≡ calls.old) }
{
    match world.last_of(alloc, NodeId::Storage { tag }) {
        Ok(Some(last)) => put_last(alloc, tag, last, calls, writer),
        Ok(None) => Ok(()),
        Err(_) => Err(CliFault::Memory),
    }
}

/// Writes the last state of a storage server.
fn put_last<W: Write>(
    alloc: Global,
    tag: Tag,
    last: Last,
    calls: &mut CallCounts,
    writer: &mut W,
) -> Result<(), CliFault>
    ensures fault { IfErr result (λ e. IsWriteFault calls.new e) }
    ensures done { OnOk result (calls.new ≡ calls.old) }
{
    match last {
        Last::Storage {
            epoch,
            version,
            floor,
            rows,
        } => {
            let head = Head {
                tag,
                epoch,
                version,
                floor,
                count: rows.len(),
            };
            put_server(alloc, head, rows, calls, writer)
        }
        _ => Ok(()),
    }
}

/// The state of a storage server, and how many rows it has.
#[derive(Clone, Copy)]
struct Head {
    tag: Tag,
    epoch: Epoch,
    version: Version,
    floor: Version,
    count: usize,
}

/// Writes the state of a storage server, and its rows.
fn put_server<W: Write>(
    alloc: Global,
    head: Head,
    rows: Rows,
    calls: &mut CallCounts,
    writer: &mut W,
) -> Result<(), CliFault>
    ensures fault { IfErr result (λ e. IsWriteFault calls.new e) }
    ensures done { OnOk result (calls.new ≡ calls.old) }
{
    put_head(alloc, head, calls, writer)?;
    put_rows(alloc, rows.into_vec(), calls, writer)
}

/// Writes the state of a storage server.
fn put_head<W: Write>(
    alloc: Global,
    head: Head,
    calls: &mut CallCounts,
    writer: &mut W,
) -> Result<(), CliFault>
    ensures fault { IfErr result (λ e. IsWriteFault calls.new e) }
    ensures done { OnOk result (calls.new ≡ calls.old) }
{
    let tag = head.tag.get();
    let epoch = head.epoch.get();
    let version = head.version.get();
    let floor = head.floor.get();
    let count = head.count;
    let line = format!(in alloc; "storage {tag} {epoch} {version} floor {floor} rows {count}\n")?;
    put(calls, writer, line.as_str())
}
