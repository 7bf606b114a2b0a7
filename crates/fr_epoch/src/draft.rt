//! What a recoverer finds in what it read, and what it makes of the replies once they cover.
ghost use Rattle.std.specs.Prelude.{◌≡◌, ◌≤◌, ◌+◌, ◌<◌, ◌^◌, true, map, Some, IfOk, IfSome};
ghost use Rattle.std.specs.Option.{option_map};
ghost use Rattle.fr_base.specs.Shape.{IsShape};
ghost use Rattle.fr_state.specs.Generations.{IsGeneration};
ghost use Rattle.fr_state.specs.Reading.{reading};
ghost use Rattle.fr_epoch.specs.EndTally.{responders, is_covered, pev_of, rv_of};
ghost use Rattle.std.specs.List.{range_with_len};
ghost use Rattle.fr_epoch.specs.Dropping.{shown_of, greater, lesser, least_shown, left_by};
ghost use Rattle.fr_epoch.specs.Hear.{shape_after};
ghost use Rattle.fr_epoch.specs.Standing.{parent_of, plan_in};
ghost use Rattle.fr_epoch.specs.Drafting.{parent_read, generation_after, draft_of, plan_result, copy_asks};

use crate::asks::{peeks, seeds};
use crate::end::EpochEnd;
use crate::end_tally::EndTally;
use crate::standing::{Draft, Found};
use crate::why::LostWhy;
use fr_ask::Ask;
use fr_base::{Epoch, Memory, NodeId, Shape, Version};
use fr_log::PoppedTag;
use fr_register::CellValue;
use fr_state::{
    CoordState, Generation, StateDecodeFault, StateFault, decode, extend_law, next_law,
};
use fr_tags::MAX_SHARDS;
use fr_tail::Tail;
use std::alloc::Global;

/// The parent that a value spells, if it is a state.
pub(crate) fn parent_in(alloc: Global, value: &CellValue) -> Result<Option<Found>, Memory>
    ensures parent { IfOk result (λ found. option_map parent_of found ≡ parent_read (reading value.now)) }
    ensures limits { IfOk result (λ found. IfSome found (λ f. IsGeneration f.last)) }
{
    next_law();
    // Bytes that are no state end the attempt, and are not an error of the program: cells hold whatever was written
    // there.
    match decode(alloc, value.as_slice()) {
        Ok(state) => {
            let last = state.last();
            Ok(Some(Found { state, last }))
        }
        Err(StateDecodeFault::Memory) => Err(Memory),
        Err(StateDecodeFault::Short) => Ok(None),
        Err(StateDecodeFault::BadForm) => Ok(None),
        Err(StateDecodeFault::Trailing) => Ok(None),
    }
}

/// The plan of an epoch behind this parent, with a generation of this shape or else of the last one's,
/// once the replies to its locks cover; or the first reason why there is none.
pub(crate) fn draft(
    alloc: Global,
    epoch: Epoch,
    shape: Option<Shape>,
    tags: u8,
    found: &Found,
    end: &EndTally,
    shown: &[PoppedTag],
) -> Result<Result<Draft, LostWhy>, Memory>
    requires shape { IfSome shape IsShape }
    requires tags { tags ≤ MAX_SHARDS }
    requires limits { IsGeneration found.now.last }
    requires covered { is_covered end.now ≡ true }
    ensures plan { IfOk result (λ drafted. plan_result drafted ≡ draft_of epoch shape tags (parent_of found.now) end.now shown.now) }
    ensures limits { IfOk result (λ drafted. IfOk drafted (λ draft. IsGeneration draft.generation)) }
{
    let ends = match end.end() {
        Ok(Some(ends)) => ends,
        Ok(None) => unreachable!(),
        // Tested first: with `pev` above `rv` there is no end of which anything further could be said (invariant 3).
        Err(_) => return Ok(Err(LostWhy::Inconsistent)),
    };
    // Before the generation is made, because its mark needs the version `rv + 1` (invariant 3).
    if ends.rv.after().is_none() {
        return Ok(Err(LostWhy::Spent));
    }
    drafted(alloc, epoch, shape, tags, found, end, shown, ends)
}

/// The plan from an end that is fixed: the generations of which every storage server has all are dropped, and
/// the new one is appended. The copy reads the logs of the last generation.
fn drafted(
    alloc: Global,
    epoch: Epoch,
    shape: Option<Shape>,
    tags: u8,
    found: &Found,
    end: &EndTally,
    shown: &[PoppedTag],
    ends: EpochEnd,
) -> Result<Result<Draft, LostWhy>, Memory>
    requires shape { IfSome shape IsShape }
    requires tags { tags ≤ MAX_SHARDS }
    requires limits { IsGeneration found.now.last }
    requires pev { ends.pev ≡ pev_of end.now }
    requires rv { ends.rv ≡ rv_of end.now }
    requires order { ends.pev ≤ ends.rv }
    requires room { ends.rv + 1 < 2 ^ 62 }
    ensures plan { IfOk result (λ drafted. plan_result drafted ≡ draft_of epoch shape tags (parent_of found.now) end.now shown.now) }
    ensures limits { IfOk result (λ drafted. IfOk drafted (λ draft. IsGeneration draft.generation)) }
{
    extend_law();
    let last = found.last;
    let EpochEnd { pev, rv } = ends;
    let generation = generation_of(epoch, shape, last, pev, rv);
    let mut state = found.state.copy()?;
    // Dropped before the new generation is added, so that a full list can still take it.
    drop_popped(&mut state, shown, tags);
    match state.extend(generation) {
        Ok(()) => {
            // Only logs whose replies fixed the end are read: another one may lack versions through `rv`.
            let logs = responders(alloc, end)?;
            let tail = Tail::new(alloc, tags, last.m(), last.k(), logs, pev, rv)?;
            Ok(Ok(Draft {
                state,
                generation,
                tail,
            }))
        }
        Err(StateFault::NotLater) => Ok(Err(LostWhy::NotLater)),
        Err(StateFault::TooMany) => Ok(Err(LostWhy::TooMany)),
        Err(StateFault::Memory) => Err(Memory),
    }
}

/// Drops the generations before the source of the version after the least one that is shown popped over all
/// tags: every storage server has what these numbered.
fn drop_popped(state: &mut CoordState, shown: &[PoppedTag], tags: u8)
    requires { tags ≤ MAX_SHARDS }
    ensures { state.new ≡ left_by state.old shown.now (range_with_len 0 tags) }
{
    // A tag that no reply showed might not be durable anywhere, so then nothing is dropped (invariant 10).
    if let Some(least) = least_shown(shown, tags) {
        // `least + 1` is the lowest version that some storage server may still have to pull. Its source and all later
        // generations stay (invariant 10).
        if let Some(source) = state.source_for(least.get() + 1) {
            state.drop_before(source.epoch());
        }
    }
}

/// The least over all tags of the greatest version shown popped of each; none if one is not shown.
fn least_shown(shown: &[PoppedTag], tags: u8) -> Option<Version>
    requires { tags ≤ MAX_SHARDS }
    ensures { result ≡ least_shown shown.now (range_with_len 0 tags) }
{
    let mut least = None;
    for tag in 0..tags {
        match shown_of(shown, tag) {
            Some(version) => least = Some(lesser(least, version)),
            // Not popped is less than popped through 0: nobody has said that the tag is durable at all.
            None => return None,
        }
    }
    least
}

/// The lesser of two versions, if there are two.
fn lesser(least: Option<Version>, version: Version) -> Version
    ensures { result ≡ lesser least version }
{
    // The least over the tags, because the slowest storage server decides what may go (invariant 10).
    match least {
        Some(least) => least.min(version),
        None => version,
    }
}

/// The greatest version that is shown popped of a tag, if one is.
fn shown_of(shown: &[PoppedTag], tag: u8) -> Option<Version>
    ensures { result ≡ shown_of shown.now tag }
{
    let mut greatest = None;
    for entry in shown {
        if entry.tag.get() == tag {
            // The greatest, because one log may have missed a Pop that another took: what a Pop says is true of the
            // storage server, and not of the log.
            greatest = Some(greater(greatest, entry.version));
        }
    }
    greatest
}

/// The greater of two versions, if there are two.
fn greater(greatest: Option<Version>, version: Version) -> Version
    ensures { result ≡ greater greatest version }
{
    match greatest {
        Some(greatest) => greatest.max(version),
        None => version,
    }
}

/// The generation of an epoch that starts after `pev` and is seeded through `rv`, of this shape, or
/// if none is given of the last one's.
fn generation_of(
    epoch: Epoch,
    shape: Option<Shape>,
    last: Generation,
    pev: Version,
    rv: Version,
) -> Generation
    requires shape { IfSome shape IsShape }
    requires limits { IsGeneration last }
    requires order { pev ≤ rv }
    requires room { rv + 1 < 2 ^ 62 }
    ensures value { result ≡ record {
      epoch = epoch;
      m = (shape_after shape last).m;
      k = (shape_after shape last).k;
      first = pev + 1;
      seeded_to = rv;
    } }
    ensures limits { IsGeneration result }
{
    // Without a shape it keeps the old one, so that whoever starts a recovery need not know the state.
    let (m, k) = match shape {
        Some(shape) => (shape.m(), shape.k()),
        None => (last.m(), last.k()),
    };
    // Through `pev` everything is known to be committed, and stays with the old generations.
    let Some(first) = pev.after() else {
        unreachable!();
    };
    match Generation::new(epoch, m, k, first, rv) {
        Some(generation) => generation,
        None => unreachable!(),
    }
}

fn responders(alloc: Global, end: &EndTally) -> Result<Vec<u8>, Memory>
    ensures { IfOk result (λ logs. logs.items ≡ responders end.now) }
{
    Ok(end.replies().iter().map(|reply| reply.log).collect(alloc)?)
}

/// The asks of a plan: the seeds of the logs that are not seeded once the copy is complete, and before
/// that the peeks of the tags that are not complete, at the logs of the old epoch.
pub(crate) fn copy_asks(
    alloc: Global,
    epoch: Epoch,
    old: Epoch,
    tags: u8,
    draft: &Draft,
    seeded: &[u8],
) -> Result<Vec<(NodeId, Ask)>, Memory>
    requires tags { tags ≤ MAX_SHARDS }
    requires limits { IsGeneration draft.now.generation }
    ensures { IfOk result (λ asks. asks.items ≡ copy_asks epoch old tags seeded.now (plan_in draft.now)) }
{
    // Already at the start if `pev` is `rv`. Then nothing is to be copied, and no reply would come to move the
    // recovery on.
    if draft.tail.complete() {
        seeds(alloc, epoch, draft.generation, &draft.tail, seeded)
    } else {
        peeks(alloc, old, &draft.tail, usize::from(tags))
    }
}
