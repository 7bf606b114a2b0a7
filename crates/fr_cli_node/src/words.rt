//! Which node the words of the command `node` name.
use crate::commands::node_command;
use clap::ArgMatches;
use clap::error::{Error, ErrorKind};
use fr_base::{Ballot, Epoch, LogId, Shape, Tag, Version};
use fr_cli_apply::bad_words;
use std::alloc::{AllocError, Global};

/// What the words say: which node is served, and how far ahead numbers of lines may be, in rounds, stamps, or versions
/// of so many commits.
#[derive(Debug, Drop, PartialEq, Eq)]
pub struct NodeStart {
    pub node: NodeWords,
    pub most_ahead: u64,
}

/// Which node the words name, and how it begins.
#[derive(Debug, Drop, PartialEq, Eq)]
pub enum NodeWords {
    /// A coordinator's cell: with a config as its world starts with it, else fresh. With a home it keeps a file there,
    /// else it is in memory.
    Cell {
        index: u8,
        config: Option<String>,
        home: Option<Home>,
    },
    /// A log: if it is started one that a world starts with, else fresh. With a home it keeps a file there, else it is
    /// in memory.
    Log(LogWords),
    /// A sequencer, which gave this version last.
    Sequencer {
        epoch: Epoch,
        last: Version,
    },
    /// A storage server, as the world of a config starts with it. With a folder it keeps its store in files there, else
    /// in memory.
    Storage {
        tag: Tag,
        config: String,
        folder: Option<StoreFolder>,
    },
    /// A proxy of an epoch, of the shape of its generation, or of that of the first one.
    Proxy {
        epoch: Epoch,
        number: u8,
        known: Version,
        shape: Option<Shape>,
        config: String,
    },
    /// A recoverer, with the shape of the generation that it is to open, if one is given.
    Recoverer {
        ballot: Ballot,
        shape: Option<Shape>,
        config: String,
    },
}

/// Which log the words name: its place, the shape of its generation, and whether a world starts with it; over a file in
/// its home, or in memory.
#[derive(Debug, Drop, PartialEq, Eq)]
pub struct LogWords {
    pub id: LogId,
    pub shape: Shape,
    pub is_started: bool,
    pub home: Option<Home>,
}

/// Where a cell or a log has its two files: the folder, how many bytes each may have, and the cluster whose they are, by
/// a name that is filled up with zeros.
#[derive(Debug, Drop, PartialEq, Eq)]
pub struct Home {
    pub folder: String,
    pub room: usize,
    pub cluster: [u8; 16],
    pub how: Opening,
}

/// How a node comes by its files. Which of these it is the caller has to say: a node whose files are gone would
/// otherwise begin again as one that was never asked, and what it had promised would be lost in silence.
#[derive(Clone, Copy, Debug, PartialEq, Eq)]
pub enum Opening {
    /// They are there.
    Open,
    /// They are not there, and are made.
    Make,
    /// They are not there, and are made from its file of version 0.2.
    Adopt,
}

/// The folder of a storage server's database, and the cluster whose it is, as [`Home`] has it.
#[derive(Debug, Drop, PartialEq, Eq)]
pub struct StoreFolder {
    pub name: String,
    pub cluster: [u8; 16],
    pub how: Opening,
}

/// The name of the folder, if it is there.
fn read_folder(alloc: Global, matches: &ArgMatches<'_>) -> Result<Option<String>, AllocError> {
    match matches.get_str("dir") {
        Some(name) => Ok(Some(String::from_str(alloc, name)?)),
        None => Ok(None),
    }
}

/// How files are come by; None if two ways are named.
fn read_opening(matches: &ArgMatches<'_>) -> Option<Opening> {
    match (matches.get_flag("make"), matches.get_flag("adopt")) {
        (false, false) => Some(Opening::Open),
        (true, false) => Some(Opening::Make),
        (false, true) => Some(Opening::Adopt),
        (true, true) => None,
    }
}

/// The name of a cluster, 1 to 16 bytes, filled up with zeros.
fn read_cluster(name: &str) -> Option<[u8; 16]> {
    let name = name.as_bytes();
    if name.is_empty() || name.len() > 16 {
        return None;
    }
    let mut cluster = [0; 16];
    cluster[..name.len()].copy_from_slice(name);
    Some(cluster)
}

/// The folder of a node's files, if it has one; None if the words about its files do not go together.
fn read_store(
    alloc: Global,
    matches: &ArgMatches<'_>,
) -> Result<Option<Option<StoreFolder>>, AllocError> {
    let cluster = read_cluster(matches.get_str("cluster").unwrap_or(""));
    match (read_folder(alloc, matches)?, read_opening(matches), cluster) {
        (Some(name), Some(how), Some(cluster)) => {
            Ok(Some(Some(StoreFolder { name, cluster, how })))
        }
        // Without a folder there is nothing to make.
        (None, Some(Opening::Open), Some(_)) => Ok(Some(None)),
        _ => Ok(None),
    }
}

/// A folder whose files have so much room each.
fn home_in(store: StoreFolder, room: usize) -> Home {
    let cluster = store.cluster;
    Home {
        folder: store.name,
        room,
        cluster,
        how: store.how,
    }
}

/// The home of a cell or a log, as [`read_store`] reads the folder of a node.
fn read_home(alloc: Global, matches: &ArgMatches<'_>) -> Result<Option<Option<Home>>, AllocError> {
    let room = matches.get_one::<u64>("room").unwrap_or(0);
    let Some(folder) = read_store(alloc, matches)? else {
        return Ok(None);
    };
    match folder {
        Some(store) => Ok(Some(Some(home_in(store, room as usize)))),
        None => Ok(Some(None)),
    }
}

/// Reads which node the words of `node` name. clap has refused most mistakes before. Left are a number beyond the
/// limits of its type, a degree above the number of logs or one of these two without the other, a cell with only one of
/// its start and its config, and words about files without a folder.
pub fn read_node_words(alloc: Global, matches: &ArgMatches<'_>) -> Result<NodeStart, Error> {
    match read_kind(alloc, matches)? {
        Some(node) => Ok(NodeStart {
            node,
            most_ahead: read_ahead(matches),
        }),
        None => {
            let message =
                "a number is beyond its limits, or a word is there without the one that goes with it";
            let node = node_command(alloc)?;
            Err(bad_words(node, "fdbrec node", ErrorKind::ValueValidation, message)?)
        }
    }
}

/// How far ahead numbers may be, which has a default for each kind.
fn read_ahead(matches: &ArgMatches<'_>) -> u64 {
    match matches.subcommand() {
        Some((_, words)) => words.get_one::<u64>("most-ahead").unwrap_or(0),
        None => 0,
    }
}

fn read_kind(alloc: Global, matches: &ArgMatches<'_>) -> Result<Option<NodeWords>, AllocError> {
    if let Some(cell) = matches.subcommand_matches("cell") {
        return read_cell(alloc, cell);
    }
    if let Some(log) = matches.subcommand_matches("log") {
        return read_log(alloc, log);
    }
    if let Some(sequencer) = matches.subcommand_matches("sequencer") {
        return Ok(read_sequencer(sequencer));
    }
    if let Some(storage) = matches.subcommand_matches("storage") {
        return read_storage(alloc, storage);
    }
    if let Some(proxy) = matches.subcommand_matches("proxy") {
        return read_proxy(alloc, proxy);
    }
    match matches.subcommand_matches("recoverer") {
        Some(recoverer) => read_recoverer(alloc, recoverer),
        None => Ok(None),
    }
}

/// The shape that two words name, or that they name none; None if they are no shape.
fn read_shape(matches: &ArgMatches<'_>) -> Option<Option<Shape>> {
    match (
        matches.get_one::<u8>("logs"),
        matches.get_one::<u8>("degree"),
    ) {
        (None, None) => Some(None),
        (Some(logs), Some(degree)) => match Shape::new(logs, degree) {
            Some(shape) => Some(Some(shape)),
            None => None,
        },
        _ => None,
    }
}

/// A cell is as a world starts with it if both its config and `start` are there.
fn read_cell(alloc: Global, matches: &ArgMatches<'_>) -> Result<Option<NodeWords>, AllocError> {
    let index = matches.get_one::<u8>("index").unwrap_or(0);
    let Some(home) = read_home(alloc, matches)? else {
        return Ok(None);
    };
    let config = match matches.get_str("config") {
        Some(name) => Some(String::from_str(alloc, name)?),
        None => None,
    };
    if config.is_some() == matches.get_flag("start") {
        Ok(Some(NodeWords::Cell {
            index,
            config,
            home,
        }))
    } else {
        Ok(None)
    }
}

fn read_log(alloc: Global, matches: &ArgMatches<'_>) -> Result<Option<NodeWords>, AllocError> {
    let Some(home) = read_home(alloc, matches)? else {
        return Ok(None);
    };
    let index = matches.get_one::<u8>("index").unwrap_or(0);
    let is_started = matches.get_flag("start");
    match (read_epoch(matches), read_shape(matches)) {
        (Some(epoch), Some(Some(shape))) if index < shape.m() => Ok(Some(NodeWords::Log(
            LogWords {
                id: LogId { epoch, index },
                shape,
                is_started,
                home,
            },
        ))),
        _ => Ok(None),
    }
}

fn read_epoch(matches: &ArgMatches<'_>) -> Option<Epoch> {
    Epoch::new(matches.get_one::<u64>("epoch").unwrap_or(0))
}

fn read_version(matches: &ArgMatches<'_>, name: &str) -> Option<Version> {
    Version::new(matches.get_one::<u64>(name).unwrap_or(u64::MAX))
}

fn read_sequencer(matches: &ArgMatches<'_>) -> Option<NodeWords> {
    Some(NodeWords::Sequencer {
        epoch: read_epoch(matches)?,
        last: read_version(matches, "last")?,
    })
}

/// The name of a file, which is there if the words were taken.
fn read_config(alloc: Global, matches: &ArgMatches<'_>) -> Result<String, AllocError> {
    String::from_str(alloc, matches.get_str("config").unwrap_or(""))
}

fn read_storage(alloc: Global, matches: &ArgMatches<'_>) -> Result<Option<NodeWords>, AllocError> {
    let config = read_config(alloc, matches)?;
    let Some(folder) = read_store(alloc, matches)? else {
        return Ok(None);
    };
    match Tag::new(matches.get_one::<u8>("tag").unwrap_or(0)) {
        Some(tag) => Ok(Some(NodeWords::Storage {
            tag,
            config,
            folder,
        })),
        None => Ok(None),
    }
}

fn read_proxy(alloc: Global, matches: &ArgMatches<'_>) -> Result<Option<NodeWords>, AllocError> {
    let config = read_config(alloc, matches)?;
    let number = matches.get_one::<u8>("number").unwrap_or(0);
    match (
        read_epoch(matches),
        read_version(matches, "known"),
        read_shape(matches),
    ) {
        (Some(epoch), Some(known), Some(shape)) => Ok(Some(NodeWords::Proxy {
            epoch,
            number,
            known,
            shape,
            config,
        })),
        _ => Ok(None),
    }
}

fn read_recoverer(
    alloc: Global,
    matches: &ArgMatches<'_>,
) -> Result<Option<NodeWords>, AllocError> {
    let config = read_config(alloc, matches)?;
    let ballot = Ballot::new(matches.get_one::<u64>("ballot").unwrap_or(0));
    match (ballot, read_shape(matches)) {
        (Some(ballot), Some(shape)) if ballot.epoch().is_some() => {
            Ok(Some(NodeWords::Recoverer {
                ballot,
                shape,
                config,
            }))
        }
        _ => Ok(None),
    }
}
