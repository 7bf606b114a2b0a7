//! Tests of numbers beside others, of a node in memory, and of two ballots that contend. What numbers there are, and the
//! order of nodes, scenarios say (`numbers`).
use example_ballots::{in_turn, overtaken};
use fr_base::{Ballot, Epoch, InMemory, LogId, Node, Reopened, Step, Version};
use fr_register::{Cell, CellAsk, CellTell, CellValue, Progress};
use std::alloc::Global;
use std::cmp::Ordering;
use std::test::Fail;

#[test]
fn ballots_and_epochs(rt: HostRuntime) {
    let epoch = Ballot::new(256).and_then(|ballot| ballot.epoch());
    let ballot = Epoch::new(513).map(|epoch| epoch.ballot().get());
    assert!(rt; Ballot::ZERO.epoch().is_none());
    assert!(rt; epoch.map(|epoch| epoch.get()) == Some(256) && ballot == Some(513));
}

const LAST_VERSION: u64 = (1 << 62) - 1;

/// The versions beside a version: the one before it and the one after it.
fn beside(number: u64) -> Option<(Option<u64>, Option<u64>)> {
    let version = Version::new(number)?;
    let (before, after) = (version.before(), version.after());
    Some((
        before.map(|version| version.get()),
        after.map(|version| version.get()),
    ))
}

#[test]
fn versions_beside_a_version(rt: HostRuntime) {
    assert!(rt; beside(0) == Some((None, Some(1))));
    assert!(rt; beside(LAST_VERSION) == Some((Some(LAST_VERSION - 1), None)));
}

/// Two versions, and the number of the step from the one to the other.
static STEPS: [(u64, u64, Option<u64>); 5] = [
    (5, 4, None),
    (5, 5, None),
    (5, 6, Some(1)),
    (5, 1_000_005, Some(1_000_000)),
    (5, 1_000_006, None),
];

/// The number of the step from a version to another one, if there is one.
fn step(from: u64, to: u64) -> Option<Option<u64>> {
    let step = Step::between(Version::new(from)?, Version::new(to)?);
    Some(step.map(|step| step.get()))
}

#[test]
fn steps_between_versions(rt: HostRuntime) {
    for &(from, to, wanted) in &STEPS {
        assert!(rt; step(from, to) == Some(wanted), "{from} {to}");
    }
}

fn log(epoch: u64, index: u8) -> Option<LogId> {
    let epoch = Epoch::new(epoch)?;
    Some(LogId { epoch, index })
}

/// Whether the earlier log is before the later one, and each is itself alone.
fn stand_apart(earlier: &LogId, later: &LogId) -> bool {
    earlier.order(*later) == Ordering::Less && later.is_same(*later) && !later.is_same(*earlier)
}

#[test]
fn logs_in_their_order(rt: HostRuntime) {
    match (log(256, 7), log(513, 0)) {
        (Some(earlier), Some(later)) => assert!(rt; stand_apart(&earlier, &later)),
        _ => assert!(rt; false),
    }
}

/// What a node tells that is asked to promise a ballot, and then opened again, since nothing was owed: whether it
/// promises, and the ballot that its cell wrote, or promised before.
fn reads<N: Node<Plain = Cell>>(
    alloc: Global,
    node: &mut N,
    number: u64,
) -> Result<(bool, u64), Fail> {
    let ballot = Ballot::new(number).ok_or("a ballot")?;
    let tell = node.serve(alloc, CellAsk::Read { ballot })?;
    if node.reopen(alloc)? != Reopened::Before {
        return Err(Fail::from("nothing was owed"));
    }
    match &tell {
        CellTell::Promise { written, .. } => Ok((true, written.get())),
        CellTell::Refused { promised } => Ok((false, promised.get())),
        _ => Err(Fail::from("another tell")),
    }
}

#[test]
fn a_node_in_memory_tells_what_its_machine_does(rt: HostRuntime) -> Result<(), Fail> {
    let mut node = InMemory::new(Cell::new(rt.alloc()));
    assert!(rt; reads(rt.alloc(), &mut node, 513)? == (true, 0));
    assert!(rt; reads(rt.alloc(), &mut node, 512)? == (false, 513));
    assert!(rt; node.plain().promised().get() == 513);
    assert!(rt; node.into_plain().promised().get() == 513);
    Ok(())
}

fn value(alloc: Global, byte: u8) -> Result<CellValue, Fail> {
    Ok(CellValue::new(Vec::from_slice(alloc, &[byte])?).ok_or("a value")?)
}

/// Whether the cell promised and wrote this ballot, with this value.
fn holds(cell: &Cell, ballot: u64, value: &CellValue) -> bool {
    cell.promised().get() == ballot
        && cell.written().get() == ballot
        && cell.value().as_slice() == value.as_slice()
}

/// Two ballots at once: whether the second found nothing and has its value in a majority.
fn overtakes(alloc: Global, x: &CellValue, y: &CellValue) -> Result<bool, Fail> {
    let end = overtaken(alloc, x, y)?;
    let has_written = matches!(end.second.wrote, Progress::Majority);
    Ok(has_written && end.second.found.value.len() == 0 && holds(&end.cells.middle, 512, y))
}

/// Two ballots one after the other: whether the first has its value in a majority, and the second found it.
fn follows(alloc: Global, x: &CellValue, y: &CellValue) -> Result<bool, Fail> {
    let end = in_turn(alloc, x, y)?;
    let has_found = end.second.found.value.as_slice() == x.as_slice();
    Ok(matches!(end.first.wrote, Progress::Majority) && has_found && holds(&end.cells.left, 256, x))
}

#[test]
fn the_later_ballot_has_its_value_in_two_cells(rt: HostRuntime) -> Result<(), Fail> {
    let (x, y) = (value(rt.alloc(), b'x')?, value(rt.alloc(), b'y')?);
    assert!(rt; overtakes(rt.alloc(), &x, &y)?);
    assert!(rt; follows(rt.alloc(), &x, &y)?);
    Ok(())
}
