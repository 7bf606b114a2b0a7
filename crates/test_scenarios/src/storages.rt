//! Storage servers, over a store in memory, and over one that fails once.
use crate::contents::read_shard;
use crate::lines::Subject;
use crate::stores;
use crate::telling::{RowTold, done, named, no_such_word, told, write};
use fr_ask::{Ask, Tell};
use fr_base::Memory;
use fr_forms::Object;
use fr_storage::{LogAnswer, Storage, StorageFault};
use fr_undo::{MapStore, ShardStore, StoreFault};
use serde_json::Value;
use std::alloc::Global;
use test_asks::{NO_FORM, RowAsk, Wrong, items, said};
use test_store::FailsOnce;

/// A storage server that applied nothing yet.
pub(crate) fn read_storage(row: &mut RowAsk) -> Result<Storage<MapStore>, Wrong> {
    start(MapStore::new(row.alloc), row)
}

/// The same over a store that fails once.
pub(crate) fn read_failing(row: &mut RowAsk) -> Result<Storage<FailsOnce>, Wrong> {
    start(stores::read_failing(row)?, row)
}

fn start<S: ShardStore + Drop>(store: S, row: &mut RowAsk) -> Result<Storage<S>, Wrong> {
    let tag = row.get("tag")?;
    let state = row.get("state")?;
    match Storage::start(row.alloc, store, tag, state) {
        Ok(storage) => Ok(storage),
        Err(StorageFault::Store(StoreFault::Memory)) => Err(Wrong::Memory),
        Err(_) => Err(Wrong::Form("no storage server starts here")),
    }
}

impl<S: ShardStore + Drop> Subject for Storage<S> {
    fn play_row(&mut self, row: &mut RowAsk) -> RowTold {
        let had_failed = self.is_failed();
        match do_row(self, row) {
            Err(Wrong::Memory) if self.is_failed() && !had_failed => reopen(row.alloc, self),
            Err(Wrong::Memory) if row.word == "follow_all" => Err(Wrong::InPart),
            done => done,
        }
    }
}

/// A hear that ran out of memory left the server failed: it is opened again.
fn reopen<S: ShardStore + Drop>(alloc: Global, storage: &mut Storage<S>) -> RowTold {
    if storage.reopen(alloc).is_err() {
        return Err(Wrong::Unsaid);
    }
    Err(Wrong::InPart)
}

fn do_row<S: ShardStore + Drop>(storage: &mut Storage<S>, row: &mut RowAsk) -> RowTold {
    let alloc = row.alloc;
    match row.word {
        "hear" => done(alloc, storage.hear(alloc, read_answer(row)?)),
        "follow" => done(alloc, storage.follow(alloc, read_answer(row)?)),
        "follow_all" => follow_all(storage, row),
        "break_off" => break_off(storage, row),
        "reopen" => done(alloc, storage.reopen(alloc)),
        "failed" => Ok(Value::from(storage.is_failed())),
        "next" => write(alloc, &Ask::Log(storage.next_ask().1)),
        "generations" => write(alloc, storage.state()),
        "position" => Ok(place_of(alloc, storage)?.into_value()),
        "rows" => told(alloc, storage.dump(alloc)),
        "read" => read(storage, row),
        _ => no_such_word(
            "rows of a storage server: hear, follow, follow_all, break_off, reopen, failed, next, \
             generations, position, rows, read",
        ),
    }
}

/// What a log of an epoch tells a storage server.
fn read_answer(row: &mut RowAsk) -> Result<LogAnswer, Wrong> {
    let epoch = row.get("epoch")?;
    match row.get("tell")? {
        Tell::Log(told) => LogAnswer::of(epoch, told).ok_or(NO_FORM),
        _ => Err(NO_FORM),
    }
}

/// The same of a list; of a fault of the store after which the server was opened again, that it broke off.
fn follow_all<S: ShardStore + Drop>(storage: &mut Storage<S>, row: &mut RowAsk) -> RowTold {
    let answers = read_answers(row)?;
    match storage.follow_all(row.alloc, answers) {
        Ok(None) => Ok(Value::Null),
        Ok(Some(fault)) => said(write_broken_off(row.alloc, fault)),
        Err(fault) => named(row.alloc, &fault),
    }
}

fn read_answers(row: &mut RowAsk) -> Result<Vec<LogAnswer>, Wrong> {
    let mut answers = Vec::new(row.alloc);
    for item in items(row.all()?)? {
        let mut item = RowAsk::of(row.alloc, row.word, item);
        answers.push(read_answer(&mut item)?)?;
        item.end()?;
    }
    Ok(answers)
}

fn write_broken_off(alloc: Global, fault: StoreFault) -> RowTold {
    let name = named(alloc, &fault)?;
    Ok(Object::new(alloc).put("broke_off", Ok(name))?.into_value())
}

/// Whether a hear breaks off at a version, or why what is heard is not taken.
fn break_off<S: ShardStore + Drop>(storage: &mut Storage<S>, row: &mut RowAsk) -> RowTold {
    let version = row.get("version")?;
    let alloc = row.alloc;
    let is_there = match read_answer(row)? {
        LogAnswer::Mark(state) => storage.break_off_marked(alloc, &state, version),
        LogAnswer::Records(epoch, peeked) => {
            storage.break_off_peeked(alloc, epoch, &peeked, version)
        }
    };
    told(alloc, is_there)
}

/// The value that a key of a shard had at a version, or null, or why the server does not answer.
fn read<S: ShardStore + Drop>(storage: &mut Storage<S>, row: &mut RowAsk) -> RowTold {
    let (key, version) = (row.get("key")?, row.get("version")?);
    let mut given = RowAsk::of(row.alloc, row.word, row.take("shard")?);
    let shard = read_shard(&mut given)?;
    given.end()?;
    told(row.alloc, storage.read(row.alloc, &shard, &key, version))
}

fn place_of<S: ShardStore + Drop>(alloc: Global, storage: &Storage<S>) -> Result<Object, Memory> {
    let (epoch, version) = storage.position();
    Object::new(alloc)
        .with("epoch", &epoch)?
        .with("version", &version)?
        .with("floor", &storage.floor())
}

/// The place and the state of a server.
pub(crate) fn standing_of<S: ShardStore + Drop>(
    alloc: Global,
    storage: &Storage<S>,
) -> Result<Value, Memory> {
    place_of(alloc, storage)?
        .with("state", storage.state())?
        .value()
}
