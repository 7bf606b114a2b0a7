//! The command `node` of `fdbrec` as a program of its own.
#![tactic(auto)]

use clap::error::Error;
use fr_cli_apply::{Ending, own_words, program_command, show};
use fr_cli_json::CliFault;
use fr_cli_node::{NodeEnd, NodeStart, node_command, read_node_words, run_node};
use std::alloc::Global;
use std::io;
use std::io::{BufWriter, Read, Write};
use std::process::ExitCode;

fn main(rt: HostRuntime) -> ExitCode {
    let alloc = rt.alloc();
    let words = match own_words(&rt, alloc) {
        Ok(words) => words,
        Err(status) => return status,
    };
    let Ok(mut writer) = BufWriter::new(alloc, io::writer(&rt)) else {
        return Ending::Fault(CliFault::Memory).say(&rt);
    };
    let mut reader = rt.reader();
    run_program(&rt, alloc, words.as_slice(), &mut reader, &mut writer).say(&rt)
}

/// Serves the node that the words name, or shows what they ask for.
fn run_program<R: Read, W: Write>(
    rt: &HostRuntime,
    alloc: Global,
    words: &[String],
    reader: &mut R,
    writer: &mut W,
) -> Ending {
    let node = match read_words(alloc, words) {
        Ok(node) => node,
        Err(error) => return show(alloc, error, writer),
    };
    match run_node(rt, alloc, &node, reader, writer) {
        Ok(()) => Ending::Done(0),
        Err(NodeEnd::Command(fault)) => Ending::Fault(fault),
        Err(end) => Ending::Named(end.text(), end.status()),
    }
}

/// Reads the words, the first of which is the program's name.
fn read_words(alloc: Global, words: &[String]) -> Result<NodeStart, Error> {
    let program = program_command(alloc).after_help("This program has one command of fdbrec.");
    let program = program.subcommand(node_command(alloc)?)?;
    let matches = program.try_get_matches_from(words)?;
    match matches.subcommand_matches("node") {
        Some(node) => read_node_words(alloc, node),
        None => read_node_words(alloc, &matches),
    }
}
