//! Laws of recoveries that end. A round of a recoverer is any turns in which it hears an answer to each ask whose answer
//! it wanted when they began, from each node that answers. Whatever else may happen in them.
ghost use Rattle.fr_run_rounds.specs.Ending.{CopyingBringsRecords, LockingIsOneRound, ReadingIsOneRound, SeedingIsOneRound, WritingIsOneRound};
ghost use Rattle.fr_run_rounds.specs.Ending.{EndsInRounds, RoomIsChosen, UncontestedIsChosen};
ghost use Rattle.fr_run_rounds.specs.Rounds.{RoundsCanCome};

use fr_run::laws::node_laws;
use fr_run_headline::contents::contents_law;
use fr_run_headline::laws::let_go_law;
use fr_run_headline::versions::seeded_law;
use fr_run_outcomes::progress::{pending_law, uncontested_law};
use fr_tags::laws::cover_law;

/// So many rounds can come, from every moment of every run, if the recoverer is up and no node that answers is gone: by
/// own turns of its ballot, in which no cell is asked for a greater one.
pub fn round_law()
    ensures { RoundsCanCome }
{
    node_laws();
    seeded_law();
    pending_law();
}

/// Reading and writing take one round each, if the cells of a majority answer. After it the recoverer has gone on, or is
/// lost.
pub fn cells_law()
    ensures reading { ReadingIsOneRound }
    ensures writing { WritingIsOneRound }
{
    node_laws();
    cover_law();
}

/// Locking takes one round, if fewer than k logs of the generation that is ended do not answer.
pub fn locks_law()
    ensures { LockingIsOneRound }
{
    node_laws();
    seeded_law();
}

/// Each round of copying brings 100 records of each tag of which not all is copied, or the rest, if each log that replied
/// answers. Once all is copied, seeding takes one round, if each log of the new generation answers.
pub fn copies_law()
    ensures records { CopyingBringsRecords }
    ensures seeding { SeedingIsOneRound }
{
    node_laws();
    contents_law();
    let_go_law();
    cover_law();
}

/// A recoverer comes to an end within 4 + n rounds, if it copies fewer than 100 n records of each tag, and enough nodes
/// answer: the cells of a majority; of the generation that it ends all logs but fewer than k, and each that replied to its
/// lock; and each log of its own generation. It is then chosen, or lost. If no cell promised more than its ballot when that
/// began, and none was asked for a greater one since, it is chosen, or has found that there is no room. So it is chosen, if
/// there is room after the state that it read: fewer than 64 generations, and a version above what the last one's logs hold.
pub fn bound_law()
    ensures ended { EndsInRounds }
    ensures chosen { UncontestedIsChosen }
    ensures room { RoomIsChosen }
{
    node_laws();
    contents_law();
    let_go_law();
    cover_law();
    cells_law();
    locks_law();
    copies_law();
    uncontested_law();
}
