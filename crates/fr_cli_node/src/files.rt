//! Cells, logs and storage servers over files.
ghost use Rattle.std.specs.Prelude.{◌≡◌, ◌<◌, false, IfOk};

use crate::fault::NodeEnd;
use fr_base::{Bytes, LogId, Node, Shape, Tag, Version};
use fr_cli_json::CliFault;
use fr_compact::{CompactLog, CompactNode};
use fr_log::{Log, LogAsk, Push, Seed};
use fr_node::Crash;
use fr_register::{Cell, CellAsk};
use fr_run::Config;
use fr_segment::GroupFile;
use fr_sql_files::{OpenFault, SqlFileStore};
use fr_sql_rows::FaithfulDisk;
use fr_storage::{Storage, StorageFault};
use fr_undo::{ShardStore, StoreFault};
use fr_world_nodes::start;
use sqlite_disk::Files;
use std::alloc::Global;

/// The cell that a file has, which is one that was never asked if the file has no records. One with a config is as a
/// world starts with it: a cell that is further is left as it is.
pub(crate) fn cell_over<F: GroupFile>(
    alloc: Global,
    file: F,
    config: &Option<Config>,
) -> Result<CompactNode<Cell, F>, NodeEnd>
    requires works { F.is_failed file ≡ false }
    ensures works { IfOk result (λ node. F.is_failed node.file ≡ false) }
{
    let node = CompactNode::read(alloc, file, Cell::new(alloc))?;
    match config {
        Some(config) => started_cell(alloc, node, config),
        None => Ok(node),
    }
}

/// The log that a file has, as [`cell_over`] has a cell.
pub(crate) fn log_over<F: GroupFile>(
    alloc: Global,
    file: F,
    id: LogId,
    shape: &Shape,
    is_started: bool,
) -> Result<CompactLog<F>, NodeEnd>
    requires place { id.index < shape.now.m }
    requires works { F.is_failed file ≡ false }
    ensures works { IfOk result (λ node. F.is_failed node.file ≡ false) }
{
    let _within = shape.k();
    let node = CompactLog::open(alloc, file, id, shape.m(), shape.k())?;
    if is_started {
        started_log(alloc, node, shape)
    } else {
        Ok(node)
    }
}

/// A cell that was asked to hold the first state. If it holds a later one this changes nothing.
fn started_cell<N: Node<Plain = Cell> + Drop>(
    alloc: Global,
    node: N,
    config: &Config,
) -> Result<N, NodeEnd>
    requires works { N.is_failed node ≡ false }
    ensures works { IfOk result (λ node. N.is_failed node ≡ false) }
{
    let mut node = node;
    let first = start::cell(alloc, config)?;
    let value = first.value().copy()?;
    let ballot = first.written();
    let _told = node.serve(alloc, CellAsk::Write { ballot, value })?;
    Ok(node)
}

/// A log that was asked to take the first seed and the first mark. If it has them this changes nothing.
fn started_log<N: Node<Plain = Log> + Drop>(
    alloc: Global,
    node: N,
    shape: &Shape,
) -> Result<N, NodeEnd>
    requires works { N.is_failed node ≡ false }
    ensures works { IfOk result (λ node. N.is_failed node ≡ false) }
{
    let mut node = node;
    let epoch = start::first_epoch();
    let Some(seed) = Seed::new(epoch, start::version_one(), Version::ZERO, Vec::new(alloc)) else {
        unreachable!();
    };
    let _seeded = node.serve(alloc, LogAsk::Seed(seed))?;
    let mut begins = Vec::with_capacity(alloc, 1)?;
    begins.push(Bytes::empty(alloc))?;
    let Ok(config) = Config::new(1, shape.m(), shape.k(), begins, 1) else {
        return Err(NodeEnd::NotThere);
    };
    let state = start::state(alloc, &config)?;
    let Some(mark) = Push::mark(alloc, epoch, Version::ZERO, Version::ZERO, state) else {
        unreachable!();
    };
    let _marked = node.serve(alloc, LogAsk::Push(mark))?;
    Ok(node)
}

/// The storage server that files have, or one as the world of a config starts with it if they have none.
pub(crate) fn storage_over<D: FaithfulDisk + Drop>(
    alloc: Global,
    files: Files<D>,
    tag: Tag,
    config: &Config,
) -> Result<Storage<SqlFileStore<D>>, NodeEnd>
    ensures works { IfOk result (λ storage. storage.failed ≡ false) }
{
    let mut store = match SqlFileStore::open_or_create(alloc, files) {
        Ok(store) => store,
        Err(fault) => return Err(unopened(fault)),
    };
    let bytes = match store.state_bytes(alloc) {
        Ok(bytes) => bytes,
        Err(fault) => return Err(of_store(fault)),
    };
    let opened = if bytes.as_slice().is_empty() {
        Storage::start(alloc, store, tag, start::state(alloc, config)?)
    } else {
        Storage::adopt(alloc, store, tag)
    };
    match opened {
        Ok(storage) => Ok(storage),
        Err(StorageFault::Store(fault)) => Err(of_store(fault)),
        Err(_) => Err(NodeEnd::Crashed(Crash::Broken)),
    }
}

/// Why files have no store.
pub(crate) fn unopened(fault: OpenFault) -> NodeEnd {
    match fault {
        OpenFault::NoStore => NodeEnd::Crashed(Crash::Broken),
        OpenFault::Fault(fault) => of_store(fault),
    }
}

/// Why a store cannot go on.
pub(crate) fn of_store(fault: StoreFault) -> NodeEnd {
    match fault {
        StoreFault::Memory => NodeEnd::Command(CliFault::Memory),
        _ => NodeEnd::Crashed(Crash::Store),
    }
}
