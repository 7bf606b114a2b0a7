//! Laws of recoveries that go on. Each says that a run goes on by own turns of one ballot: of its recoverer, of the
//! cells and logs that its recoverer or a storage server asks, and of the storage servers. In these turns nothing is
//! lost, nothing crashes, no other ballot begins and no batch is submitted. So what the law concludes comes of what is
//! there at the start, and not of what others do on the way.
ghost use Rattle.fr_run_outcomes.specs.Copying.{CopyingEnds, SeedingEnds};
ghost use Rattle.fr_run_outcomes.specs.Full.{FullIsNoDeadEnd, MarkedIsPopped, TooManyIsUnpopped};
ghost use Rattle.fr_run_outcomes.specs.Hearing.{MarkIsHeard};
ghost use Rattle.fr_run_outcomes.specs.Locking.{LockingEnds};
ghost use Rattle.fr_run_outcomes.specs.Marking.{MarkIsHeld};
ghost use Rattle.fr_run_outcomes.specs.Pending.{PendingIsSent, PendingMayBeHeard};
ghost use Rattle.fr_run_outcomes.specs.Pulling.{ChosenIsServed, CommittedIsPulled, MarkedIsServed};
ghost use Rattle.fr_run_outcomes.specs.Reading.{ReadingEnds};
ghost use Rattle.fr_run_outcomes.specs.Recovering.{NoDeadEnd, RecoveryEnds};
ghost use Rattle.fr_run_outcomes.specs.Returning.{LowIsUnlocked, ServiceReturns, ServiceReturnsOrIsFull};
ghost use Rattle.fr_run_outcomes.specs.Uncontested.{UncontestedHasNoRoom};
ghost use Rattle.fr_run_outcomes.specs.Writing.{WritingEnds};

use crate::laws::lost_law;
use fr_log::laws::{change_law, pop_law};
use fr_run::laws::{ask_law, cells_law, chosen_law, line_law, node_laws, parents_law, states_law};
use fr_run_headline::contents::contents_law;
use fr_run_headline::laws::{follow_law, headline_law, let_go_law, lower_laws, order_law};
use fr_run_headline::versions::{logs_law, seeded_law, told_law};
use fr_state::drop_law;
use fr_storage::position_law;
use fr_tags::laws::cover_law;

/// Each ask whose answer a recoverer still wants it has sent. So if the node that is asked and the recoverer are up,
/// there are two turns with which the run goes on: that ask comes to the node, and the recoverer hears the answer.
pub fn pending_law()
    ensures sent { PendingIsSent }
    ensures heard { PendingMayBeHeard }
{
    node_laws();
}

/// The first phase comes to an end. From every moment of every run, a ballot that may begin, and above which no cell
/// of some majority promised, finds its parent by own turns. A cell of that majority had the parent.
pub fn reading_law()
    ensures { ReadingEnds }
{
    node_laws();
    lost_law();
}

/// The second phase comes to an end. A recoverer that is up and locks the logs of a generation, of which fewer than k
/// are lost, comes to know the end of the epoch by own turns. It then has a plan; or it finds that there is no room for
/// one, and there was none at the start.
pub fn locking_law()
    ensures { LockingEnds }
{
    node_laws();
    change_law();
    ask_law();
    pending_law();
    lost_law();
    seeded_law();
}

/// The third phase comes to an end. A recoverer that is up and copies has copied all, by own turns, if of each tag a
/// log that replied to it and holds the tag is up.
pub fn copying_law()
    ensures { CopyingEnds }
{
    node_laws();
    pending_law();
    contents_law();
    let_go_law();
}

/// The fourth phase comes to an end: all logs of the new generation are seeded, by own turns, if none of them is lost.
pub fn seeding_law()
    ensures { SeedingEnds }
{
    node_laws();
    pending_law();
}

/// The last phase comes to an end: the state of a recoverer that is up and writes is chosen, by own turns, if no cell of
/// some majority promised a greater ballot.
pub fn writing_law()
    ensures { WritingEnds }
{
    node_laws();
    pending_law();
    lost_law();
    cover_law();
}

/// A recovery has no dead end while there is room. Take any moment of any run, and a ballot that may begin. Let no cell
/// of some majority have promised a greater one. Of the greatest state that these cells have, let fewer than k logs of
/// the last generation be lost, and let there be room after it: fewer than 64 generations, and a version above what the
/// last one's logs hold. Then the ballot is chosen by own turns, and its recoverer knows it. Without that room the
/// recoverer comes to the choice too, or finds that there is no room.
pub fn recovery_law()
    ensures chosen { NoDeadEnd }
    ensures ended { RecoveryEnds }
{
    node_laws();
    change_law();
    ask_law();
    parents_law();
    cover_law();
    reading_law();
    locking_law();
    copying_law();
    seeding_law();
    writing_law();
}

/// If a log of an epoch is up and has its mark, each storage server comes to keep that epoch's state, by its own turns
/// and the log's, unless it keeps the state of a greater epoch.
pub fn hearing_law()
    ensures { MarkIsHeard }
{
    node_laws();
    told_law();
    follow_law();
}

/// Take a ballot whose state is chosen and known to be so to its recoverer, and a log of its generation that is up and
/// was not locked. That log comes to have the epoch's mark, by own turns.
pub fn marking_law()
    ensures { MarkIsHeld }
{
    node_laws();
    change_law();
    pending_law();
    told_law();
    logs_law();
    seeded_law();
}

/// What is committed comes to be served, while fewer than k logs of each generation are lost. A storage server that keeps
/// the latest state comes to have applied all that is committed, by its own turns and those of logs. Each one does, if a
/// log of the latest epoch is up and has the mark. Once the latest state is chosen and its recoverer knows it, each one
/// does by own turns, if a log of the new generation is up and was not locked.
pub fn pulling_law()
    ensures pulled { CommittedIsPulled }
    ensures marked { MarkedIsServed }
    ensures served { ChosenIsServed }
{
    lower_laws();
    headline_law();
    follow_law();
    position_law();
    marking_law();
    hearing_law();
}

/// Service returns while there is room. Take any moment of any run, and a ballot that may begin. Let no cell of some
/// majority have promised a greater one. Of the greatest state that these cells have, let fewer than k logs of each
/// generation be lost, and let there be room after it, as in [`recovery_law`]. Then the ballot is chosen, and is the
/// latest, its epoch is open, and each storage server comes to have all that is committed, by own turns. Without that
/// room it does too, or its recoverer finds that there is none. And no log of a ballot's epoch is locked while no cell of
/// some majority promised a greater one.
pub fn return_law()
    ensures served { ServiceReturns }
    ensures ended { ServiceReturnsOrIsFull }
    ensures unlocked { LowIsUnlocked }
{
    node_laws();
    change_law();
    ask_law();
    cells_law();
    chosen_law();
    parents_law();
    line_law();
    states_law();
    seeded_law();
    recovery_law();
    pulling_law();
}

/// A full list is no dead end where a log of its last generation is up and has the epoch's mark. Take the premises of
/// [`return_law`], with such a log and a version for the next mark in place of room. First storage servers and the logs
/// that they ask take turns alone: each server hears the mark, pulls what is committed, and has each log of that
/// generation that is up pop all that is before it. Then the ballot drops all generations but the last one, is chosen and
/// comes to serve, however many generations the list had. And a recoverer that is lost as `TooMany` read a full list, and
/// some tag was not shown to it as popped so far.
pub fn full_law()
    ensures popped { MarkedIsPopped }
    ensures left { FullIsNoDeadEnd }
    ensures unpopped { TooManyIsUnpopped }
{
    lower_laws();
    change_law();
    pop_law();
    drop_law();
    ask_law();
    cells_law();
    chosen_law();
    parents_law();
    seeded_law();
    follow_law();
    let_go_law();
    order_law();
    position_law();
    cover_law();
    pulling_law();
    return_law();
}

/// If no cell promised more than a ballot when that began, and none was asked for a greater one since, its recoverer is
/// lost for want of room alone. It is never outballoted, whatever else is lost, late or repeated.
pub fn uncontested_law()
    ensures { UncontestedHasNoRoom }
{
    node_laws();
    ask_law();
    lost_law();
}
