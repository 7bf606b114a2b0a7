//! Runs of rows over racks, and what is printed of them.
use crate::events::{Counts, Events, counted};
use crate::racks::{FrailRack, files};
use crate::rows::{RackWord, Row};
use crate::script::Script;
use crate::watched::WatchedRack;
use crate::works::{Staged, works};
use anyhow::{Context, bail};
use fr_base::{Ballot, Bytes, Shape};
use fr_runtime::{Cluster, Config, Rack, Report};
use fr_runtime_storm::{Draws, Storm};
use fr_script::audit::write_script;
use std::alloc::Global;
use std::sync::Wait;
use std::thread::Threads;

/// Runs a row over its rack.
pub(crate) fn play<R: Threads + Wait + Print + Sync>(
    rt: &R,
    alloc: Global,
    row: &Row,
) -> anyhow::Result<()> {
    let counts = Counts::default();
    let events = Events::new(rt, alloc, row.awaited.as_slice(), &counts)?;
    let scene = Scene {
        rt,
        alloc,
        row,
        events: &events,
        counts: &counts,
    };
    scene.play()?;
    let named = [
        ("met", &counts.met),
        ("opened again", &counts.reopened),
        ("frail cells", &counts.frail),
        ("as wanted", &counts.as_wanted),
        ("otherwise", &counts.otherwise),
        ("in vain", &counts.in_vain),
    ];
    for (name, counter) in named {
        println!(rt; "{name}: {}", counted(counter))?;
    }
    Ok(())
}

/// A run that is to be.
#[derive(Drop)]
struct Scene<'a, R> {
    rt: &'a R,
    alloc: Global,
    row: &'a Row,
    events: &'a Events<'a, R>,
    counts: &'a Counts,
}

impl<'a, R: Threads + Wait + Print + Sync> Scene<'a, R> {
    fn play(&self) -> anyhow::Result<()> {
        // Two racks for all words, since each one has all nodes and threads compiled and proved for it.
        match self.row.rack {
            RackWord::Sql | RackWord::LogOnce(_) | RackWord::LogFrom(_) => {
                self.over(files(self.row.rack))
            }
            word => self.over(FrailRack {
                word,
                counts: self.counts,
            }),
        }
    }

    /// Runs it over the nodes of a rack, and prints the script of its journals, and what each workload gave and was told;
    /// or its fault.
    fn over<K: Rack + Sync + Drop>(&self, rack: K) -> anyhow::Result<()> {
        let (rt, alloc, row) = (self.rt, self.alloc, self.row);
        let script = Script {
            row,
            events: self.events,
            counts: self.counts,
            storm: storm_of(row)?,
            is_at_once: row.at_once,
        };
        let rack = WatchedRack {
            rack,
            script: &script,
        };
        let ballots = ballots(alloc, row)?;
        let cluster = Cluster {
            config: config(alloc, row)?,
            ballots: ballots.as_slice(),
            turns: row.turns,
        };
        let works = works(alloc, row, self.events)?;
        match cluster.run(rt, alloc, rack, works, &script) {
            Ok((report, works)) => tell(rt, alloc, report, works.as_slice()),
            Err(fault) => Ok(println!(rt; "fault: {fault:?}")?),
        }
    }
}

/// The shards begin at the empty key, and at the byte 8 i.
fn config(alloc: Global, row: &Row) -> anyhow::Result<Config> {
    let mut begins = Vec::new(alloc);
    begins.push(Bytes::empty(alloc))?;
    for number in 1..row.storages {
        begins.push(Bytes::from_slice(alloc, &[(number & 0x1f) * 8])?)?;
    }
    Ok(Config::new(row.coordinators, row.logs, row.degree, begins, row.proxies)?)
}

/// The ballots, each with the shape of its generation.
fn ballots(alloc: Global, row: &Row) -> anyhow::Result<Vec<(Ballot, Option<Shape>)>> {
    let mut ballots = Vec::new(alloc);
    for recovery in row.recoveries.iter() {
        let ballot = Ballot::new(recovery.ballot).context("no ballot")?;
        ballots.push((ballot, recovery.shape.and_then(|(m, k)| Shape::new(m, k))))?;
    }
    Ok(ballots)
}

/// The storm of a row, of strength 0 if it has none.
fn storm_of(row: &Row) -> anyhow::Result<Storm> {
    let (seed, strength) = row.storm.unwrap_or((1, 0));
    let (coordinators, logs) = (row.coordinators, row.logs);
    if coordinators == 0 || logs == 0 {
        bail!("no cell, or no log");
    }
    Ok(Storm::new(Draws {
        seed,
        strength,
        late: 0,
        crashes: 0,
        losses: 0,
        coordinators,
        logs,
    }))
}

fn tell<R: Wait + Print>(
    rt: &R,
    alloc: Global,
    report: Report,
    works: &[Staged<'_, R>],
) -> anyhow::Result<()> {
    let script = write_script(alloc, report.world.config(), report.journals.as_slice())?;
    println!(rt; "{}", str::from_utf8(script.as_slice())?)?;
    for (work, told) in works.iter().zip(report.told.iter()) {
        println!(rt; "given: {}, told: {told:?}", work.given())?;
    }
    Ok(())
}
