//! The logs that words name.
use crate::fault::NodeEnd;
use crate::files::log_over;
use crate::nodes::serve_kept;
use crate::pairs::log_files;
use crate::serving::{MAX_LINE, serve};
use crate::together::Together;
use crate::words::{Home, LogWords};
use fr_base::{Bytes, Epoch, InMemory, LogId, NodeId, Shape};
use fr_log::Log;
use fr_node::{Apart, Passive};
use fr_run::Config;
use fr_world_nodes::start;
use std::alloc::Global;
use std::io::{Read, Write};

/// Serves a log, over its files if it has a home, else in memory.
pub(crate) fn log<R: Read, W: Write>(
    host: &HostRuntime,
    alloc: Global,
    words: &LogWords,
    ahead: u64,
    reader: &mut R,
    writer: &mut W,
) -> Result<(), NodeEnd> {
    match &words.home {
        Some(home) => log_in(host, alloc, home, words, ahead, reader, writer),
        None => log_in_memory(alloc, words, ahead, reader, writer),
    }
}

/// Serves a log in memory, as a world starts with it or fresh.
fn log_in_memory<R: Read, W: Write>(
    alloc: Global,
    words: &LogWords,
    ahead: u64,
    reader: &mut R,
    writer: &mut W,
) -> Result<(), NodeEnd> {
    let LogId { epoch, index } = words.id;
    let log = if words.is_started {
        started_log(alloc, epoch, index, &words.shape)?
    } else {
        fresh_log(alloc, epoch, index, &words.shape)?
    };
    let place = NodeId::Log { epoch, index };
    let mut log: Passive<_, Apart> = Passive::new(alloc, InMemory::new(log), place, false);
    serve(alloc, MAX_LINE, &mut log, ahead, reader, writer)
}

/// A log that was never asked, of a generation of this shape.
fn fresh_log(alloc: Global, epoch: Epoch, index: u8, shape: &Shape) -> Result<Log, NodeEnd> {
    if index >= shape.m() {
        return Err(NodeEnd::NotThere);
    }
    let _within = shape.k();
    let id = LogId { epoch, index };
    Ok(Log::new(alloc, id, shape.m(), shape.k()))
}

/// A log as a world starts with it, whose first generation has this shape.
fn started_log(alloc: Global, epoch: Epoch, index: u8, shape: &Shape) -> Result<Log, NodeEnd> {
    if epoch != start::first_epoch() {
        return Err(NodeEnd::NotThere);
    }
    let mut begins = Vec::with_capacity(alloc, 1)?;
    begins.push(Bytes::empty(alloc))?;
    match Config::new(1, shape.m(), shape.k(), begins, 1) {
        Ok(config) => first_log(alloc, &config, index),
        Err(_) => Err(NodeEnd::NotThere),
    }
}

/// A log as the world of a config starts with it, if it has so many.
fn first_log(alloc: Global, config: &Config, index: u8) -> Result<Log, NodeEnd> {
    if index < config.logs() {
        Ok(start::log(alloc, config, index)?)
    } else {
        Err(NodeEnd::NotThere)
    }
}

/// Serves a log over its files, as a world starts with it or fresh.
fn log_in<R: Read, W: Write>(
    host: &HostRuntime,
    alloc: Global,
    home: &Home,
    words: &LogWords,
    ahead: u64,
    reader: &mut R,
    writer: &mut W,
) -> Result<(), NodeEnd> {
    let LogId { epoch, index } = words.id;
    if index >= words.shape.m() || words.is_started && epoch != start::first_epoch() {
        return Err(NodeEnd::NotThere);
    }
    let pair = log_files(host, alloc, home, words.id, &words.shape)?;
    let node = log_over(alloc, pair, words.id, &words.shape, words.is_started)?;
    serve_kept::<_, Together, _, _>(
        alloc,
        node,
        NodeId::Log { epoch, index },
        ahead,
        reader,
        writer,
    )
}
