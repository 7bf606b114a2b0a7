//! Of logs, proxies and recoverers what the C library has no call for: how a log goes back, what a recoverer says of the
//! generation that it opens, and what each was made with.
ghost use Rattle.std.specs.Prelude.{◌≡◌, OnOk};

use crate::forms::{members, read_log, read_shape, read_sizes, write_generation, write_state_of};
use crate::lines::Subject;
use crate::shards::read_map;
use crate::telling::{RowTold, no_such_word, told, write};
use fr_base::{Epoch, Machine, Memory};
use fr_epoch::Recoverer;
use fr_forms::write_all;
use fr_log::laws::place_law;
use fr_log::{Log, LogAsk, LogTell};
use fr_proxy::Proxy;
use fr_tags::ShardMap;
use serde_json::Value;
use std::alloc::Global;
use test_asks::{RowAsk, Wrong};

/// A log that was never asked.
pub(crate) fn read_any_log(row: &mut RowAsk) -> Result<Log, Wrong> {
    let index = row.get("index")?;
    read_log(row, index)
}

impl Subject for Log {
    fn play_row(&mut self, row: &mut RowAsk) -> RowTold {
        match row.word {
            "ask" => told(row.alloc, self.step(row.alloc, row.read("log_ask")?)),
            "take_back" => take_back(self, row),
            "state" => write_state_of(row.alloc, self.copy()),
            "made" => write_made(row.alloc, self.copy()),
            _ => no_such_word("rows of a log: ask, take_back, state, made"),
        }
    }
}

/// What the copy of a log was made with.
fn write_made(alloc: Global, log: Result<Log, Memory>) -> RowTold {
    let log = log?;
    let numbers = [
        ("epoch", log.id().epoch.get()),
        ("index", u64::from(log.id().index)),
        ("m", u64::from(log.m())),
        ("k", u64::from(log.k())),
    ];
    Ok(members(alloc, &numbers)?.into_value())
}

/// What a log tells, which then goes back to where it stood, as one does whose records could not be kept.
fn take_back(log: &mut Log, row: &mut RowAsk) -> RowTold
    ensures { OnOk result (log.new ≡ log.old) }
{
    let ask = row.read("log_ask")?;
    write(row.alloc, &ask_and_go_back(row.alloc, log, ask)?)
}

fn ask_and_go_back(alloc: Global, log: &mut Log, ask: LogAsk) -> Result<LogTell, Memory>
    ensures { OnOk result (log.new ≡ log.old) }
{
    let place = log.place()?;
    let tell = log.keep(alloc, ask)?;
    place_law();
    log.go_back(place);
    Ok(tell)
}

/// A proxy that took nothing yet.
pub(crate) fn read_proxy(row: &mut RowAsk) -> Result<Proxy, Wrong> {
    let (epoch, number, known) = (row.get("epoch")?, row.get("number")?, row.get("known")?);
    let (m, k) = read_sizes(row)?;
    Ok(Proxy::new(epoch, number, m, k, read_map(row)?, known))
}

impl Subject for Proxy {
    fn play_row(&mut self, row: &mut RowAsk) -> RowTold {
        match row.word {
            "made" => write_proxy(row.alloc, self),
            _ => no_such_word("rows of a proxy: made"),
        }
    }
}

/// What a proxy was made with, and what it knows now.
fn write_proxy(alloc: Global, proxy: &Proxy) -> RowTold {
    let numbers = [
        ("epoch", proxy.epoch().get()),
        ("number", u64::from(proxy.number())),
        ("m", u64::from(proxy.m())),
        ("k", u64::from(proxy.k())),
        ("known", proxy.known().get()),
    ];
    with_shards(alloc, &numbers, proxy.map())
}

/// These numbers, and where shards begin.
fn with_shards(alloc: Global, numbers: &[(&str, u64)], map: &ShardMap) -> RowTold {
    let shards = write_all(alloc, map.begins());
    Ok(members(alloc, numbers)?.put("shards", shards)?.into_value())
}

/// A recoverer that heard nothing.
pub(crate) fn read_recoverer(row: &mut RowAsk) -> Result<Recoverer, Wrong> {
    let shape = read_shape(row)?;
    let ballot: Epoch = row.get_as("ballot", "epoch")?;
    let _above = ballot.get();
    let coordinators = row.get("coordinators")?;
    Ok(Recoverer::begin(
        row.alloc,
        ballot.ballot(),
        coordinators,
        read_map(row)?,
        shape,
    ))
}

impl Subject for Recoverer {
    fn play_row(&mut self, row: &mut RowAsk) -> RowTold {
        match row.word {
            "hear" => hear_asks(self, row),
            "generation" => write_generation(row.alloc, self.generation()),
            "copied" => Ok(Value::from(self.is_copied())),
            "made" => write_recoverer(row.alloc, self),
            _ => no_such_word("rows of a recoverer: hear, generation, copied, made"),
        }
    }
}

/// The new asks of a recoverer that hears this.
fn hear_asks(recoverer: &mut Recoverer, row: &mut RowAsk) -> RowTold {
    let from = row.get("from")?;
    told(row.alloc, recoverer.hear(row.alloc, from, row.get("tell")?))
}

/// What a recoverer was made with, but for the shape.
fn write_recoverer(alloc: Global, recoverer: &Recoverer) -> RowTold {
    let numbers = [
        ("ballot", recoverer.ballot().get()),
        ("coordinators", u64::from(recoverer.coordinators())),
    ];
    with_shards(alloc, &numbers, recoverer.map())
}
