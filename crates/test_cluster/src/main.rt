//! Clusters whose faults are written down, for `tests/clusters`: a text of JSON says a run, and the script of its journals
//! is printed with what was met, or the fault of the run; `read FILE` prints the script of a file as it is read. Without
//! words it prints what storms draw, beside `bench/draws.py`, and what a directory answers.
#![tactic(auto)]

mod directories;
mod drawn;
mod events;
mod racks;
mod rows;
mod run;
mod script;
mod watched;
mod works;

use crate::rows::Row;
use fr_script::audit::{read_script, write_script};
use std::alloc::Global;
use std::fs;
use std::sync::Wait;
use std::thread::Threads;

fn main(rt: HostRuntime) -> anyhow::Result<()> {
    let alloc = rt.alloc();
    let words: Vec<String> = std::env::args(&rt)?.collect(alloc)?;
    match words.as_slice() {
        [_, _, path] => read(&rt, alloc, path.as_str()),
        [_, text] => play(&rt, alloc, text.as_str()),
        _ => show(&rt, alloc),
    }
}

fn show<R: Wait + Print>(rt: &R, alloc: Global) -> anyhow::Result<()> {
    drawn::show(rt, alloc)?;
    directories::show(rt, alloc)
}

fn play<R: Threads + Wait + Print + Sync>(rt: &R, alloc: Global, text: &str) -> anyhow::Result<()> {
    let row: Row = serde_json::from_str(alloc, text)?;
    run::play(rt, alloc, &row)
}

/// Prints the script of a file, as it is read and written again.
fn read(rt: &HostRuntime, alloc: Global, path: &str) -> anyhow::Result<()> {
    let text = fs::read_to_string(rt, path)?;
    let (config, journals) = read_script(alloc, text.as_bytes(), &mut String::new(alloc))?;
    let script = write_script(alloc, &config, journals.as_slice())?;
    println!(rt; "{}", str::from_utf8(script.as_slice())?)?;
    Ok(())
}
