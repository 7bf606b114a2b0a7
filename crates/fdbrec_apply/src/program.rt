//! The program over its words, a reader and a writer.
use clap::error::{Error, ErrorKind};
use fr_cli_apply::{
    ApplyOptions, Ending, SaidRefusals, StoreWord, apply_command, apply_noted, bad_words,
    program_command, read_store, show,
};
use fr_cli_json::CallCounts;
use std::alloc::Global;
use std::io::{Eprint, Read, Write};

/// Runs a script on an empty store in memory, or shows what the words ask for. Why operations are refused is said to
/// `errors`.
pub(crate) fn run_program<E: Eprint, R: Read, W: Write>(
    errors: &E,
    alloc: Global,
    words: &[String],
    reader: &mut R,
    writer: &mut W,
) -> Ending {
    let options = match read_words(alloc, words) {
        Ok(options) => options,
        Err(error) => return show(alloc, error, writer),
    };
    let mut calls = CallCounts::new();
    let mut notes = SaidRefusals::new(errors);
    match apply_noted(alloc, options, &mut calls, &mut notes, reader, writer) {
        Ok(status) => Ending::Done(status),
        Err(fault) => Ending::Fault(fault),
    }
}

/// Reads the words, the first of which is the program's name. A store in tables is refused.
fn read_words(alloc: Global, words: &[String]) -> Result<ApplyOptions, Error> {
    match read_kind(alloc, words)? {
        StoreWord::Map => Ok(ApplyOptions {
            store: fr_cli_apply::StoreKind::Map,
        }),
        StoreWord::Sql => {
            let message = "this program has no store in tables: the whole program has";
            let apply = apply_command(alloc)?;
            Err(bad_words(apply, "fdbrec apply", ErrorKind::InvalidValue, message)?)
        }
    }
}

/// The kind of store that the words name, else a map. A file is one of tables.
fn read_kind(alloc: Global, words: &[String]) -> Result<StoreWord, Error> {
    let matches = command(alloc)?.try_get_matches_from(words)?;
    match matches.subcommand_matches("apply") {
        Some(apply) if apply.get_str("db").is_some() => Ok(StoreWord::Sql),
        Some(apply) => Ok(read_store(apply)),
        None => Ok(StoreWord::Map),
    }
}

fn command<'a>(alloc: Global) -> Result<clap::Command<'a>, Error> {
    let apply = apply_command(alloc)?;
    let command = program_command(alloc).after_help(
        "This program has one command of fdbrec, on a store in memory.",
    );
    Ok(command.subcommand(apply)?)
}
