//! What a world starts with: the first epoch, with its logs seeded and marked, cells that hold its state, and storage
//! servers that are empty.
ghost use Rattle.std.specs.Prelude.{◌≡◌, ◌<◌, false, [], IfOk};
ghost use Rattle.fr_run.specs.Config.{first_generation, first_state, first_cell, first_log, first_storage};
ghost use Rattle.fr_world_nodes.specs.Parts.{server_of, AreCells, AreStorages};

use fr_base::{Ballot, Epoch, LogId, Memory, Tag, Version};
use fr_log::{Log, LogAsk, Push, Seed};
use fr_register::{Cell, CellValue};
use fr_run::Config;
use fr_state::{CoordState, Generation, encode};
use fr_storage::Storage;
use fr_undo::MapStore;
use std::alloc::Global;

/// The epoch that each world starts in: round 1, recoverer 1.
pub const FIRST: u64 = 257;

/// The first epoch.
pub fn first_epoch() -> Epoch
    ensures { result ≡ 257 }
{
    match Epoch::new(FIRST) {
        Some(epoch) => epoch,
        None => unreachable!(),
    }
}

fn first_ballot() -> Ballot
    ensures { result ≡ 257 }
{
    match Ballot::new(FIRST) {
        Some(ballot) => ballot,
        None => unreachable!(),
    }
}

/// Version 1, which is that of the first mark.
pub fn version_one() -> Version
    ensures { result ≡ 1 }
{
    match Version::new(1) {
        Some(version) => version,
        None => unreachable!(),
    }
}

/// The first generation.
pub fn generation(config: &Config) -> Generation
    ensures { result ≡ first_generation config.now }
{
    let _within = config.coordinators();
    match Generation::new(
        first_epoch(),
        config.logs(),
        config.degree(),
        version_one(),
        Version::ZERO,
    ) {
        Some(generation) => generation,
        None => unreachable!(),
    }
}

/// The state that each cell and each storage server begins with.
pub fn state(alloc: Global, config: &Config) -> Result<CoordState, Memory>
    ensures { IfOk result (λ state. state ≡ first_state config.now) }
{
    CoordState::new(alloc, generation(config))
}

/// A cell that promised and wrote the first state.
pub fn cell(alloc: Global, config: &Config) -> Result<Cell, Memory>
    ensures { IfOk result (λ cell. cell ≡ first_cell config.now) }
{
    let bytes = encode(alloc, &state(alloc, config)?)?;
    let Some(value) = CellValue::new(bytes) else {
        unreachable!();
    };
    match Cell::restored(first_ballot(), first_ballot(), value) {
        Some(cell) => Ok(cell),
        None => unreachable!(),
    }
}

/// A log of the first epoch, seeded with nothing, with the mark at version 1.
pub fn log(alloc: Global, config: &Config, index: u8) -> Result<Log, Memory>
    requires { index < config.now.m }
    ensures { IfOk result (λ log. log ≡ first_log config.now index) }
{
    let epoch = first_epoch();
    let id = LogId { epoch, index };
    let _within = config.coordinators();
    let mut log = Log::new(alloc, id, config.logs(), config.degree());
    let Some(seed) = Seed::new(epoch, version_one(), Version::ZERO, Vec::new(alloc)) else {
        unreachable!();
    };
    log.keep(alloc, LogAsk::Seed(seed))?;
    let state = state(alloc, config)?;
    let Some(mark) = Push::mark(alloc, epoch, Version::ZERO, Version::ZERO, state) else {
        unreachable!();
    };
    log.keep(alloc, LogAsk::Push(mark))?;
    Ok(log)
}

/// The storage server of a tag, empty, in the first state.
pub fn storage(alloc: Global, config: &Config, tag: Tag) -> Result<Storage<MapStore>, Memory>
    ensures state { IfOk result (λ s. server_of s ≡ first_storage config.now tag) }
    ensures works { IfOk result (λ s. s.failed ≡ false) }
{
    let state = state(alloc, config)?;
    match Storage::start(alloc, MapStore::new(alloc), tag, state) {
        Ok(server) => Ok(server),
        Err(_) => Err(Memory),
    }
}

/// The coordinators' cells.
pub fn cells(alloc: Global, config: &Config) -> Result<Vec<Cell>, Memory>
    ensures { IfOk result (λ cells. AreCells config.now [] cells.items) }
{
    let mut cells = Vec::new(alloc);
    for _ in 0..config.coordinators() {
        cells.push(cell(alloc, config)?)?;
    }
    Ok(cells)
}

/// The storage servers, in the order of their tags.
pub fn storages(alloc: Global, config: &Config) -> Result<Vec<Storage<MapStore>>, Memory>
    ensures { IfOk result (λ servers. AreStorages config.now [] servers.items) }
{
    let mut servers = Vec::new(alloc);
    for number in 0..config.map().begins().len() {
        servers.push(storage(alloc, config, tag(number))?)?;
    }
    Ok(servers)
}

/// The tag of a number that is below 32.
pub fn tag(number: usize) -> Tag
    requires { number < 32 }
    ensures { result ≡ number }
{
    match Tag::new(number as u8) {
        Some(tag) => tag,
        None => unreachable!(),
    }
}
