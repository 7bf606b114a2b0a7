//! The cells that words name.
use crate::fault::NodeEnd;
use crate::files::cell_over;
use crate::nodes::{config_in, serve_kept};
use crate::pairs::cell_files;
use crate::serving::{MAX_LINE, serve};
use crate::words::Home;
use fr_base::{InMemory, NodeId};
use fr_node::{Apart, Passive};
use fr_register::Cell;
use fr_run::Config;
use fr_world_nodes::start;
use std::alloc::Global;
use std::io::{Read, Write};

/// Serves a cell, over its files if it has a home, else in memory.
pub(crate) fn cell<R: Read, W: Write>(
    host: &HostRuntime,
    alloc: Global,
    home: &Option<Home>,
    index: u8,
    config: &Option<String>,
    ahead: u64,
    reader: &mut R,
    writer: &mut W,
) -> Result<(), NodeEnd> {
    match home {
        Some(home) => cell_in(host, alloc, home, index, config, ahead, reader, writer),
        None => cell_in_memory(host, alloc, index, config, ahead, reader, writer),
    }
}

/// Serves a cell in memory, as the world of a config starts with it if one is named, or fresh.
fn cell_in_memory<R: Read, W: Write>(
    host: &HostRuntime,
    alloc: Global,
    index: u8,
    config: &Option<String>,
    ahead: u64,
    reader: &mut R,
    writer: &mut W,
) -> Result<(), NodeEnd> {
    match config {
        Some(name) => {
            let config = config_in(host, alloc, name.as_str())?;
            serve_started_cell(alloc, index, &config, ahead, reader, writer)
        }
        None => serve_cell(alloc, index, Cell::new(alloc), ahead, reader, writer),
    }
}

/// Serves a cell as the world of a config starts with it.
fn serve_started_cell<R: Read, W: Write>(
    alloc: Global,
    index: u8,
    config: &Config,
    ahead: u64,
    reader: &mut R,
    writer: &mut W,
) -> Result<(), NodeEnd> {
    if index >= config.coordinators() {
        return Err(NodeEnd::NotThere);
    }
    serve_cell(
        alloc,
        index,
        start::cell(alloc, config)?,
        ahead,
        reader,
        writer,
    )
}

fn serve_cell<R: Read, W: Write>(
    alloc: Global,
    index: u8,
    cell: Cell,
    ahead: u64,
    reader: &mut R,
    writer: &mut W,
) -> Result<(), NodeEnd> {
    let node = InMemory::new(cell);
    let mut cell: Passive<_, Apart> = Passive::new(alloc, node, NodeId::Cell { index }, false);
    serve(alloc, MAX_LINE, &mut cell, ahead, reader, writer)
}

/// The config of a file, if one is named.
fn config_if(
    host: &HostRuntime,
    alloc: Global,
    name: &Option<String>,
) -> Result<Option<Config>, NodeEnd> {
    match name {
        Some(name) => Ok(Some(config_in(host, alloc, name.as_str())?)),
        None => Ok(None),
    }
}

/// Serves a cell over its files, as the world of a config starts with it if one is named.
fn cell_in<R: Read, W: Write>(
    host: &HostRuntime,
    alloc: Global,
    home: &Home,
    index: u8,
    config: &Option<String>,
    ahead: u64,
    reader: &mut R,
    writer: &mut W,
) -> Result<(), NodeEnd> {
    let config = config_if(host, alloc, config)?;
    if !has_cell(&config, index) {
        return Err(NodeEnd::NotThere);
    }
    let pair = cell_files(host, alloc, home, index)?;
    let node = cell_over(alloc, pair, &config)?;
    serve_kept::<_, Apart, _, _>(alloc, node, NodeId::Cell { index }, ahead, reader, writer)
}

/// Whether a config, if there is one, has so many cells.
fn has_cell(config: &Option<Config>, index: u8) -> bool {
    match config {
        Some(config) => index < config.coordinators(),
        None => true,
    }
}
