//! The command `cluster` on each kind of store.
use crate::program::Errors;
use fr_base::Shape;
use fr_cli_apply::StoreWord;
use fr_cli_cluster::{
    ClusterOptions, ClusterPlan, CountsLine, Frailty, PlainRack, ProgressLine, RefusedCalls,
    Watcher, cluster_counted, storm_of,
};
use fr_cli_json::{CallCounts, CliFault};
use fr_runtime_storm::{DiskRack, FrailRack};
use std::alloc::Global;
use std::io::{Eprint, Write};
use std::sync::Wait;
use std::thread::Threads;

/// Runs a cluster whose stores are of a kind, in the storm of its words. On a terminal, it says there how far it has
/// come; there, and where the words ask for it, it says at the end what was met.
pub(crate) fn cluster_on<H: Threads + Wait + Sync, E: Eprint + Sync, W: Write>(
    kind: StoreWord,
    rt: &H,
    errors: Errors<'_, E>,
    alloc: Global,
    options: ClusterOptions,
    shapes: &[Shape],
    writer: &mut W,
) -> Result<u8, CliFault> {
    let (storm, refusals) = (storm_of(options), RefusedCalls::new());
    let counts = CountsLine::new(errors.to, &storm, &refusals);
    if errors.is_terminal {
        let progress = ProgressLine::new(errors.to, &counts, options);
        return watched(
            kind, rt, alloc, options, shapes, &refusals, &progress, writer,
        );
    }
    if options.words().counts {
        return watched(kind, rt, alloc, options, shapes, &refusals, &counts, writer);
    }
    watched(kind, rt, alloc, options, shapes, &refusals, &storm, writer)
}

/// The same, with who watches it. What devices and files refuse is counted beside them. (Each rack is in a function of
/// its own: three in one are more than the prover takes.)
fn watched<H: Threads + Wait + Sync, F: Watcher + Sync, W: Write>(
    kind: StoreWord,
    rt: &H,
    alloc: Global,
    options: ClusterOptions,
    shapes: &[Shape],
    refusals: &RefusedCalls,
    watcher: &F,
    writer: &mut W,
) -> Result<u8, CliFault> {
    match (kind, options.words().refuse) {
        (StoreWord::Map, _) => on_maps(rt, alloc, options, shapes, watcher, writer),
        (StoreWord::Sql, 0) => on_tables(rt, alloc, options, shapes, watcher, writer),
        (StoreWord::Sql, _) => {
            on_frail_tables(rt, alloc, options, shapes, refusals, watcher, writer)
        }
    }
}

/// The same, in memory.
fn on_maps<H: Threads + Wait + Sync, F: Watcher + Sync, W: Write>(
    rt: &H,
    alloc: Global,
    options: ClusterOptions,
    shapes: &[Shape],
    watcher: &F,
    writer: &mut W,
) -> Result<u8, CliFault> {
    let mut calls = CallCounts::new();
    let plan = ClusterPlan { options, shapes };
    cluster_counted(rt, alloc, plan, PlainRack, watcher, &mut calls, writer)
}

/// The same, over devices and tables.
fn on_tables<H: Threads + Wait + Sync, F: Watcher + Sync, W: Write>(
    rt: &H,
    alloc: Global,
    options: ClusterOptions,
    shapes: &[Shape],
    watcher: &F,
    writer: &mut W,
) -> Result<u8, CliFault> {
    let (mut calls, rack) = (CallCounts::new(), DiskRack::new());
    let plan = ClusterPlan { options, shapes };
    cluster_counted(rt, alloc, plan, rack, watcher, &mut calls, writer)
}

/// The same, over devices and tables that refuse calls.
fn on_frail_tables<H: Threads + Wait + Sync, F: Watcher + Sync, W: Write>(
    rt: &H,
    alloc: Global,
    options: ClusterOptions,
    shapes: &[Shape],
    refusals: &RefusedCalls,
    watcher: &F,
    writer: &mut W,
) -> Result<u8, CliFault> {
    let words = options.words();
    let (seed, every) = (words.seed, words.refuse);
    let rack = FrailRack::new(Frailty { seed, every }, refusals);
    let mut calls = CallCounts::new();
    let plan = ClusterPlan { options, shapes };
    cluster_counted(rt, alloc, plan, rack, watcher, &mut calls, writer)
}
