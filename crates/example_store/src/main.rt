//! The store as a library: two batches are applied, and the later one is taken back.
#![tactic(auto)]

use anyhow::Context;
use fr_base::{Bytes, Version};
use fr_mutation::{AtomicOp, Batch, Mutation};
use fr_undo::{MapStore, ShardStore};
use std::alloc::Global;

fn main(rt: HostRuntime) -> anyhow::Result<()> {
    let alloc = rt.alloc();
    let mut store = MapStore::new(alloc);
    rise(&rt, alloc, &mut store)
}

/// Works on any store: one that keeps its rows in a database has the same contract.
fn rise<S: ShardStore>(rt: &HostRuntime, alloc: Global, store: &mut S) -> anyhow::Result<()> {
    let opening = version(5)?;
    store.apply(alloc, opening, &opened(alloc)?)?;
    show(rt, alloc, store, "opened")?;
    store.apply(alloc, version(6)?, &traded(alloc)?)?;
    show(rt, alloc, store, "traded")?;
    store.undo_to(alloc, opening)?;
    show(rt, alloc, store, "undone")
}

/// Two accounts with 200 and 9, as numbers of two bytes.
fn opened(alloc: Global) -> anyhow::Result<Batch> {
    let mut mutations = Vec::new(alloc);
    mutations.push(set(alloc, b"alice", b"\xc8\x00")?)?;
    mutations.push(set(alloc, b"bob", b"\x09\x00")?)?;
    Ok(Batch::new(mutations)?)
}

/// Alice takes 100 more, and Bob's account is closed.
fn traded(alloc: Global) -> anyhow::Result<Batch> {
    let mut mutations = Vec::new(alloc);
    mutations.push(Mutation::Atomic {
        op: AtomicOp::Add,
        key: Bytes::from_slice(alloc, b"alice")?,
        param: Bytes::from_slice(alloc, b"\x64\x00")?,
    })?;
    mutations.push(Mutation::Clear {
        begin: Bytes::from_slice(alloc, b"bob")?,
        end: Bytes::from_slice(alloc, b"boc")?,
    })?;
    Ok(Batch::new(mutations)?)
}

fn set(alloc: Global, key: &[u8], value: &[u8]) -> anyhow::Result<Mutation> {
    Ok(Mutation::Set {
        key: Bytes::from_slice(alloc, key)?,
        value: Bytes::from_slice(alloc, value)?,
    })
}

fn version(number: u64) -> anyhow::Result<Version> {
    Version::new(number).context("no version")
}

/// Prints the version applied, how many undo rows there are, and each row.
fn show<S: ShardStore>(
    rt: &HostRuntime,
    alloc: Global,
    store: &mut S,
    what: &str,
) -> anyhow::Result<()> {
    let applied = store.applied().get();
    let undo = store.undo_rows();
    println!(rt; "{what}: version {applied}, {undo} undo rows")?;
    for (key, value) in store.dump(alloc)?.iter() {
        let name = str::from_utf8(key.as_slice())?;
        println!(rt; "  {name} {:?}", value.as_slice())?;
    }
    Ok(())
}
