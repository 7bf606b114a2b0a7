//! The storage servers that words name.
ghost use Rattle.std.specs.Prelude.{◌≡◌, false};

use crate::database::store_files;
use crate::fault::NodeEnd;
use crate::files::storage_over;
use crate::nodes::config_in;
use crate::serving::{MAX_LINE, serve};
use crate::words::StoreFolder;
use fr_base::Tag;
use fr_mutation::Shard;
use fr_node::StorageNode;
use fr_run::Config;
use fr_sql_rows::FaithfulDisk;
use fr_storage::Storage;
use fr_undo::ShardStore;
use fr_world_nodes::start;
use sqlite_disk::Files;
use std::alloc::Global;
use std::io::{Read, Write};

/// Serves the storage server of a tag, over files in a folder if one is named, else in memory.
pub(crate) fn storage<R: Read, W: Write>(
    host: &HostRuntime,
    alloc: Global,
    tag: Tag,
    config: &str,
    folder: &Option<StoreFolder>,
    ahead: u64,
    reader: &mut R,
    writer: &mut W,
) -> Result<(), NodeEnd> {
    let config = config_in(host, alloc, config)?;
    let Some(shard) = config.map().shard_of(alloc, tag)? else {
        return Err(NodeEnd::NotThere);
    };
    match folder {
        Some(folder) => {
            let files = store_files(host, alloc, folder, tag, &shard)?;
            storage_in(alloc, files, tag, &config, shard, ahead, reader, writer)
        }
        None => {
            let storage = start::storage(alloc, &config, tag)?;
            serve_storage(alloc, storage, shard, false, ahead, reader, writer)
        }
    }
}

/// Serves the storage server of a tag over its files.
fn storage_in<D: FaithfulDisk + Drop, R: Read, W: Write>(
    alloc: Global,
    files: Files<D>,
    tag: Tag,
    config: &Config,
    shard: Shard,
    ahead: u64,
    reader: &mut R,
    writer: &mut W,
) -> Result<(), NodeEnd> {
    let storage = storage_over(alloc, files, tag, config)?;
    serve_storage(alloc, storage, shard, true, ahead, reader, writer)
}

/// Serves the storage server of a shard, over a store that outlasts the process if it has files.
fn serve_storage<S: ShardStore + Drop, R: Read, W: Write>(
    alloc: Global,
    storage: Storage<S>,
    shard: Shard,
    has_files: bool,
    ahead: u64,
    reader: &mut R,
    writer: &mut W,
) -> Result<(), NodeEnd>
    requires works { storage.failed ≡ false }
{
    let mut storage = StorageNode::new(alloc, storage, shard, has_files);
    serve(alloc, MAX_LINE, &mut storage, ahead, reader, writer)
}
