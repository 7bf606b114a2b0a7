//! Cells and logs over record files.
use crate::forms::{read_log, write_last_state};
use crate::place::{Disk, Kept};
use crate::telling::{RowTold, named, no_such_word, told};
use fr_ask::Named;
use fr_base::{Machine, Node, NodeFault};
use fr_forms::Formed;
use fr_log::Log;
use fr_record_log::LogNode;
use fr_record_node::FileNode;
use fr_register::Cell;
use std::alloc::Global;
use test_asks::{RowAsk, Wrong};

/// A cell over a file.
#[derive(Drop)]
pub(crate) struct CellFile;

type CellNode = FileNode<Cell, Disk>;

impl Kept for CellFile {
    type File = CellNode;

    fn read(_row: &mut RowAsk) -> Result<Self, Wrong> {
        Ok(CellFile)
    }

    fn format(&self, alloc: Global, disk: Disk) -> Result<CellNode, NodeFault> {
        FileNode::format(alloc, disk, Cell::new(alloc))
    }

    fn open(&self, alloc: Global, disk: Disk) -> Result<CellNode, NodeFault> {
        FileNode::open(alloc, disk, Cell::new(alloc))
    }

    fn into_disk(file: CellNode) -> Disk {
        file.into_device()
    }

    fn play(&self, file: &mut CellNode, row: &mut RowAsk) -> RowTold {
        match row.word {
            "ask_all" => told(row.alloc, file.serve_all(row.alloc, row.read("cell_asks")?)),
            _ => play_node(file, row, "cell_ask"),
        }
    }
}

/// A row of a node over a file that is asked one of a kind.
fn play_node<N: Node>(node: &mut N, row: &mut RowAsk, kind: &str) -> RowTold
where
    N::Plain: Named,
    <N::Plain as Machine>::Ask: Formed,
    <N::Plain as Machine>::Tell: Formed,
{
    match row.word {
        "ask" => told(row.alloc, node.serve(row.alloc, row.read(kind)?)),
        "reopen" => match node.reopen(row.alloc) {
            Ok(found) => named(row.alloc, &found),
            Err(fault) => named(row.alloc, &fault),
        },
        "state" => write_last_state(row.alloc, node.plain().last(row.alloc)),
        _ => no_such_word(
            "rows of a cell or a log over a file: ask, ask_all, reopen, state, close, read, calls, syncs",
        ),
    }
}

/// A log over a file, by the log that was never asked.
#[derive(Drop)]
pub(crate) struct LogFile {
    fresh: Log,
}

impl Kept for LogFile {
    type File = LogNode<Disk>;

    fn read(row: &mut RowAsk) -> Result<Self, Wrong> {
        let index = row.get("index")?;
        let fresh = read_log(row, index)?;
        Ok(LogFile { fresh })
    }

    fn format(&self, alloc: Global, disk: Disk) -> Result<LogNode<Disk>, NodeFault> {
        LogNode::format(alloc, disk, self.fresh.id(), self.fresh.m(), self.fresh.k())
    }

    fn open(&self, alloc: Global, disk: Disk) -> Result<LogNode<Disk>, NodeFault> {
        LogNode::open(alloc, disk, self.fresh.id(), self.fresh.m(), self.fresh.k())
    }

    fn into_disk(file: LogNode<Disk>) -> Disk {
        file.into_device()
    }

    fn play(&self, file: &mut LogNode<Disk>, row: &mut RowAsk) -> RowTold {
        match row.word {
            "ask_all" => told(row.alloc, file.serve_all(row.alloc, row.read("log_asks")?)),
            _ => play_node(file, row, "log_ask"),
        }
    }
}
