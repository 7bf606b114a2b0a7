//! Laws of commits that go on.
ghost use Rattle.fr_run_commits.specs.Committing.{NextIsAnswered, NextIsCommitted};
ghost use Rattle.fr_run_commits.specs.Flying.{CommitsGoOn, FlightLands};
ghost use Rattle.fr_run_commits.specs.Returning.{ServiceReturnsToCommits};
ghost use Rattle.fr_run_commits.specs.Sent.{NumberIsTold, PlacedIsPushed};

use fr_log::laws::change_law;
use fr_run::laws::{ask_law, node_laws, parents_law};
use fr_run_headline::laws::lower_laws;
use fr_run_headline::versions::{ends_law, locks_law};
use fr_run_outcomes::laws::once_law;
use fr_run_outcomes::progress::{marking_law, pulling_law, return_law};
use fr_tags::laws::split_law;

/// Each number that a sequencer gave it told to its proxy. A proxy whose batch has its number sent the push to each log.
/// So a proxy that is up, with a sequencer that gave a number or logs that are up, can go on.
pub fn asked_law()
    ensures told { NumberIsTold }
    ensures pushed { PlacedIsPushed }
{
    node_laws();
}

/// Take any moment of any run at which an epoch serves and no batch is in flight. The next batch that one of its proxies
/// takes comes to be answered as committed, by turns of this proxy and of the logs and the sequencer that it asks. Then
/// every storage server comes to have applied it, while fewer than k logs of each generation are lost.
pub fn commit_law()
    ensures answered { NextIsAnswered }
    ensures committed { NextIsCommitted }
{
    lower_laws();
    change_law();
    split_law();
    pulling_law();
}

/// Take any moment of any run at which an epoch serves, with batches in flight: the proxy of each number that some log
/// lacks is up, and has the batch under way. Each log comes to hold each number, by turns of these proxies and of the logs
/// that they ask. Then the next batch of a proxy that takes one comes to be committed and stored, as by [`commit_law`].
pub fn flight_law()
    ensures lands { FlightLands }
    ensures commits { CommitsGoOn }
{
    lower_laws();
    change_law();
    split_law();
    once_law();
    pulling_law();
    commit_law();
}

/// Service returns to commits. Take any moment of any run, and a ballot as for [`return_law`], with room for one more
/// version. By own turns of the ballot its epoch comes to serve. Then the next batch that one of its proxies takes comes
/// to be committed, and every storage server to have applied it.
pub fn service_law()
    ensures { ServiceReturnsToCommits }
{
    lower_laws();
    change_law();
    ask_law();
    parents_law();
    ends_law();
    locks_law();
    marking_law();
    return_law();
    commit_law();
}
