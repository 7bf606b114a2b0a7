//! Records in a file of the host: each line of the input becomes one, and outlasts a crash from the moment on at which
//! the program says that it is kept.
#![tactic(auto)]

use anyhow::bail;
use fr_host::{HostDevice, open};
use fr_record::{Device, Records};
use std::alloc::Global;

/// How many bytes the file may get. The device takes twice as much memory.
const ROOM: usize = 1 << 20;

/// Shows the records of a file, which is made if it is missing, adds a record for each line of the input, and shows what
/// another opening finds. The first word names the file.
fn main(rt: HostRuntime) -> anyhow::Result<()> {
    let alloc = rt.alloc();
    let words: Vec<String> = std::env::args(&rt)?.collect(alloc)?;
    let path = match words.as_slice() {
        [_, path, ..] => path.as_str(),
        _ => "records",
    };
    let mut file = opened(&rt, alloc, path)?;
    show(&rt, alloc, &mut file)?;
    add_lines(&rt, alloc, &mut file)?;
    // (nobody else, and no second opening here, gets the file while it is held)
    drop(file);
    let mut again = opened(&rt, alloc, path)?;
    show(&rt, alloc, &mut again)
}

/// The record file at a path. What is there and is none is refused, and left as it was.
fn opened(rt: &HostRuntime, alloc: Global, path: &str) -> anyhow::Result<Records<HostDevice>> {
    let mut device = open(rt, alloc, path, ROOM)?;
    // (the first byte alone is what is left of a file whose making was cut off)
    if device.len()? <= 1 {
        Ok(Records::format(alloc, device)?)
    } else {
        Ok(Records::open(alloc, device)?)
    }
}

/// Adds a record for each line of the input. Works on any device: one in memory has the same contract.
fn add_lines<D: Device>(
    rt: &HostRuntime,
    alloc: Global,
    file: &mut Records<D>,
) -> anyhow::Result<()> {
    for line in rt.lines(alloc) {
        let line = line?;
        if line.len() > u32::MAX as usize {
            bail!("a line is too long for a record");
        }
        file.append(alloc, line.as_bytes())?;
        println!(rt; "kept {}: {line}", file.len())?;
    }
    Ok(())
}

/// Prints how many records there are, and each.
fn show<D: Device>(rt: &HostRuntime, alloc: Global, file: &mut Records<D>) -> anyhow::Result<()> {
    let count = file.len();
    println!(rt; "found {count}")?;
    for i in 0..count {
        if let Some(record) = file.get(alloc, i)? {
            println!(rt; "  {}", str::from_utf8(record.as_slice())?)?;
        }
    }
    Ok(())
}
