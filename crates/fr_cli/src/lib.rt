//! The program `fdbrec` as a library: its words choose a command, which reads a script and prints lines.
//! Each command is also a function over a reader and a writer, handed on here.
//! `fdbrec` runs it over the words of its command line.
#![tactic(auto)]

mod apply;
mod cluster;
mod help;
mod kept;
mod program;
mod shapes;
mod words;

use fr_cli_apply::{Causes, NotedReader, NotedWriter, own_words};
pub use fr_cli_apply::{ApplyOptions, BAD_WORDS, Ending, StoreWord, run_apply, run_apply_on};
pub use fr_cli_apply_sql::{DbFault, FileFault, run_apply_db, run_apply_sql, run_rows_db};
pub use fr_cli_audit::{Judged, run_audit};
pub use fr_cli_cluster::{ClusterOptions, ClusterWords, DEFAULTS, run_cluster, run_cluster_on};
pub use fr_cli_end::{EndOptions, run_end};
pub use fr_cli_json::CliFault;
pub use fr_cli_simulate::run_simulate;
pub use fr_runtime_storm::DiskRack;
pub use program::{Errors, run_program};
use std::io;
use std::io::{BufWriter, IsTerminal};
use std::process::ExitCode;
use std::sync::Wait;
use std::thread::Threads;
pub use words::{Request, read_words};

/// Runs the program over its own words, standard input and standard output, with these threads, and gives its status.
pub fn run_main<H: Threads + Wait + Sync>(rt: &HostRuntime, threads: &H) -> ExitCode {
    let alloc = rt.alloc();
    let words = match own_words(rt, alloc) {
        Ok(words) => words,
        Err(status) => return status,
    };
    let Ok(writer) = BufWriter::new(alloc, io::writer(rt)) else {
        return Ending::Fault(CliFault::Memory).say(rt);
    };
    let mut writer = NotedWriter::new(writer);
    let mut reader = NotedReader::new(rt.reader());
    let errors = Errors {
        to: rt,
        is_terminal: rt.stderr().is_terminal(),
    };
    let mut place = String::new(alloc);
    let ending = run_program(
        threads,
        errors,
        rt,
        &mut place,
        words.as_slice(),
        &mut reader,
        &mut writer,
    );
    let causes = Causes {
        beginning: reader.beginning(),
        place: place.as_str(),
        input: reader.failure(),
        output: writer.failure(),
    };
    ending.say_why(rt, &causes)
}
