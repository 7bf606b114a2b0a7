//! Lists of asks.
ghost use Rattle.std.specs.Prelude.{◌≡◌, ◌≤◌, ◌+◌, ◌<◌, ◌^◌, true, map, IfOk};
ghost use Rattle.fr_state.specs.Generations.{IsGeneration};
ghost use Rattle.fr_state.specs.Spelling.{spelling};
ghost use Rattle.fr_tail.specs.Tail.{is_complete};
ghost use Rattle.fr_epoch.specs.Recoverer.{mark_of};
ghost use Rattle.fr_epoch.specs.Lists.{read_ask, lock_ask, peek_ask, seed_ask, write_ask, mark_ask, unheard, unlocked, others, holding, peeks_from, peeks_below};
ghost use Rattle.fr_epoch.specs.Standing.{plan_in};

use crate::end_tally::EndTally;
use crate::standing::Draft;
use fr_ask::Ask;
use fr_base::{Ballot, Epoch, LogId, Memory, NodeId, Tag, Version};
use fr_log::{LogAsk, Most, Push};
use fr_register::{CellAsk, CellPoll, CellValue, ReadTally, WriteTally};
use fr_state::{CoordState, Generation, encode};
use fr_tags::{MAX_SHARDS, is_held, tag_at};
use fr_tail::Tail;
use std::alloc::Global;

/// The reads of the cells that were not heard.
pub(crate) fn reads(
    alloc: Global,
    ballot: Ballot,
    tally: &ReadTally,
) -> Result<Vec<(NodeId, Ask)>, Memory>
    ensures { IfOk result (λ asks. asks.items ≡ map (read_ask ballot) (unheard tally.now.poll)) }
{
    let cells = silent(alloc, tally.poll())?;
    let mut asks = Vec::with_capacity(alloc, cells.len())?;
    for index in cells.as_slice() {
        let to = NodeId::Cell { index: *index };
        asks.push((to, Ask::Cell(CellAsk::Read { ballot })))?;
    }
    Ok(asks)
}

/// The locks of the logs that did not reply.
pub(crate) fn locks(
    alloc: Global,
    epoch: Epoch,
    end: &EndTally,
) -> Result<Vec<(NodeId, Ask)>, Memory>
    ensures { IfOk result (λ asks. asks.items ≡ map (lock_ask epoch) (unlocked end.now)) }
{
    let logs = unlocked(alloc, end)?;
    let mut asks = Vec::with_capacity(alloc, logs.len())?;
    for index in logs.as_slice() {
        let to = NodeId::Log {
            epoch,
            index: *index,
        };
        asks.push((to, Ask::Log(LogAsk::Lock { epoch })))?;
    }
    Ok(asks)
}

fn unlocked(alloc: Global, end: &EndTally) -> Result<Vec<u8>, Memory>
    ensures { IfOk result (λ logs. logs.items ≡ unlocked end.now) }
{
    // A log whose reply counts is not asked again: a later reply would change nothing (invariant 4).
    Ok(
        (0..end.m())
            .filter(|index| !end.has_replied(*index))
            .collect(alloc)?,
    )
}

/// The seeds of the logs of an epoch, of this generation, that are not among those seeded, from a copy
/// that is complete.
pub(crate) fn seeds(
    alloc: Global,
    epoch: Epoch,
    generation: Generation,
    tail: &Tail,
    seeded: &[u8],
) -> Result<Vec<(NodeId, Ask)>, Memory>
    requires complete { is_complete tail.now ≡ true }
    requires limits { IsGeneration generation }
    ensures { IfOk result (λ asks. asks.items ≡ map (seed_ask epoch tail.now generation.m generation.k) (others generation.m seeded.now)) }
{
    // By the shape of the new generation, whose logs these are (invariant 9).
    let logs = logs_but(alloc, generation.m(), seeded)?;
    let mut asks = Vec::with_capacity(alloc, logs.len())?;
    for index in logs.as_slice() {
        let id = LogId {
            epoch,
            index: *index,
        };
        // Cut anew for each log and each repeat. The copy no longer changes, so it is the same seed each time
        // (invariant 5).
        let seed = tail.seeds_for(alloc, id, generation.m(), generation.k())?;
        let to = NodeId::Log {
            epoch,
            index: *index,
        };
        asks.push((to, Ask::Log(LogAsk::Seed(seed))))?;
    }
    Ok(asks)
}

/// The writes of a state to the cells that were not heard.
pub(crate) fn writes(
    alloc: Global,
    ballot: Ballot,
    state: &CoordState,
    tally: &WriteTally,
) -> Result<Vec<(NodeId, Ask)>, Memory>
    ensures { IfOk result (λ asks. asks.items ≡ map (write_ask ballot (spelling state.now)) (unheard tally.now.poll)) }
{
    let value = value_of(alloc, state)?;
    let cells = silent(alloc, tally.poll())?;
    writes_to(alloc, ballot, &value, cells.as_slice())
}

fn writes_to(
    alloc: Global,
    ballot: Ballot,
    value: &CellValue,
    cells: &[u8],
) -> Result<Vec<(NodeId, Ask)>, Memory>
    ensures { IfOk result (λ asks. asks.items ≡ map (write_ask ballot value.now) cells.now) }
{
    let mut asks = Vec::with_capacity(alloc, cells.len())?;
    for index in cells {
        let to = NodeId::Cell { index: *index };
        let write = CellAsk::Write {
            ballot,
            value: value.copy()?,
        };
        asks.push((to, Ask::Cell(write)))?;
    }
    Ok(asks)
}

fn silent(alloc: Global, poll: &CellPoll) -> Result<Vec<u8>, Memory>
    ensures { IfOk result (λ cells. cells.items ≡ unheard poll.now) }
{
    // Cells that answered are left out, so that a repeat costs only what is still missing.
    Ok(
        (0..poll.cells())
            .filter(|index| !poll.has_heard(*index))
            .collect(alloc)?,
    )
}

fn value_of(alloc: Global, state: &CoordState) -> Result<CellValue, Memory>
    ensures { IfOk result (λ value. value ≡ spelling state.now) }
{
    match CellValue::new(encode(alloc, state)?) {
        Some(value) => Ok(value),
        // 64 generations, the most that a state has, are spelled in fewer than the 4,096 bytes of a cell.
        None => unreachable!(),
    }
}

/// The pushes of a plan's mark to the logs of an epoch that are not known to hold it.
pub(crate) fn marks(
    alloc: Global,
    epoch: Epoch,
    draft: &Draft,
    marked: &[u8],
) -> Result<Vec<(NodeId, Ask)>, Memory>
    requires mine { draft.now.generation.epoch ≡ epoch }
    requires seeded_to { draft.now.generation.seeded_to ≡ draft.now.tail.rv }
    ensures { IfOk result (λ asks. asks.items ≡ map (mark_ask epoch (mark_of (plan_in draft.now))) (others draft.now.generation.m marked.now)) }
{
    let logs = logs_but(alloc, draft.generation.m(), marked)?;
    let mark = mark(alloc, draft)?;
    let mut asks = Vec::with_capacity(alloc, logs.len())?;
    for index in logs.as_slice() {
        let to = NodeId::Log {
            epoch,
            index: *index,
        };
        // One push for all logs and all repeats (invariant 8). Each request owns its copy, since it travels alone.
        asks.push((to, Ask::Log(LogAsk::Push(mark.copy()?))))?;
    }
    Ok(asks)
}

fn mark(alloc: Global, draft: &Draft) -> Result<Push, Memory>
    requires { draft.now.generation.seeded_to ≡ draft.now.tail.rv }
    ensures { IfOk result (λ push. push ≡ mark_of (plan_in draft.now)) }
{
    let state = draft.state.copy()?;
    let pev = draft.tail.pev();
    match Push::mark(
        alloc,
        draft.generation.epoch(),
        draft.generation.seeded_to(),
        pev,
        state,
    ) {
        Some(push) => Ok(push),
        // `rv + 1` was found to be a version before there was a plan, and `pev <= rv` as well (invariant 3).
        None => unreachable!(),
    }
}

/// The logs below a number that are not among these.
fn logs_but(alloc: Global, m: u8, done: &[u8]) -> Result<Vec<u8>, Memory>
    ensures { IfOk result (λ logs. logs.items ≡ others m done.now) }
{
    Ok((0..m).filter(|log| !done.contains(log)).collect(alloc)?)
}

/// The peeks of the first tags, of each that is not complete, at the responders that hold it.
pub(crate) fn peeks(
    alloc: Global,
    epoch: Epoch,
    tail: &Tail,
    tags: usize,
) -> Result<Vec<(NodeId, Ask)>, Memory>
    requires { tags ≤ MAX_SHARDS }
    ensures { IfOk result (λ asks. asks.items ≡ peeks_below epoch tail.now tags) }
{
    let mut asks = Vec::new(alloc);
    for number in 0..tags {
        let tag = tag_at(number);
        let mut more = peeks_from(alloc, epoch, tail, tag, tail.reached(tag))?;
        asks.append(&mut more)?;
    }
    Ok(asks)
}

/// The peeks of a tag that is reached through this version, if it is not complete there.
pub(crate) fn peeks_from(
    alloc: Global,
    epoch: Epoch,
    tail: &Tail,
    tag: Tag,
    reached: Version,
) -> Result<Vec<(NodeId, Ask)>, Memory>
    ensures { IfOk result (λ asks. asks.items ≡ peeks_from epoch tail.now tag reached) }
{
    // Nothing of the tag is missing: whatever its logs hold above `rv` is not taken over, since no version there was
    // acknowledged.
    if reached >= tail.rv() {
        return Ok(Vec::new(alloc));
    }
    let most = most_records();
    // All responders that hold the tag are asked, since any of them may be lost by now. The first answer counts.
    let logs = holding(alloc, tail, tag)?;
    let mut asks = Vec::with_capacity(alloc, logs.len())?;
    for index in logs.as_slice() {
        let to = NodeId::Log {
            epoch,
            index: *index,
        };
        let peek = LogAsk::Peek {
            epoch,
            tag,
            after: reached,
            most,
        };
        asks.push((to, Ask::Log(peek)))?;
    }
    Ok(asks)
}

fn holding(alloc: Global, tail: &Tail, tag: Tag) -> Result<Vec<u8>, Memory>
    ensures { IfOk result (λ logs. logs.items ≡ holding tail.now tag) }
{
    // The old generation's shape, because these are its logs (invariant 9).
    let m = tail.m();
    let k = tail.k();
    Ok(
        tail.responders()
            .iter()
            .copied()
            .filter(|log| is_held(tag, m, k, *log))
            .collect(alloc)?,
    )
}

/// The most that one answer can have, so that a copy takes the fewest peeks.
fn most_records() -> Most
    ensures { result ≡ 100 }
{
    match Most::new(100) {
        Some(most) => most,
        None => unreachable!(),
    }
}
