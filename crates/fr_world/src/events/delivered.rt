//! Asks come to cells, logs and sequencers.
ghost use Rattle.std.specs.Prelude.{◌≡◌, true, IfOk, Ok, OnErr};
ghost use Rattle.fr_run.specs.Limits.{AskHasLimits};
ghost use Rattle.fr_run.specs.Step.{if_sent};
ghost use Rattle.fr_run.specs.declared.event.Event.TheVariants as event;
ghost use Rattle.fr_run.specs.Nodes.{cell_at, log_at, seq_at};
ghost use Rattle.fr_run.specs.Run.{IsTurn};
ghost use Rattle.fr_run.specs.Turn as history;
ghost use Rattle.fr_log.specs.Step as log;
ghost use Rattle.fr_proxy.specs.Sequencer as seq;
ghost use Rattle.fr_register.specs.Cell as cell;
ghost use Rattle.fr_world.specs.Stepping.{Steps, Refuses, RefusesTurn};
ghost use Rattle.fr_world.specs.World.{stepped_by};
ghost use Rattle.fr_world_nodes.specs.Kept.{state_of, IsKept};

use super::why_not_up;
use fr_ask::{Ask, SeqAsk, Tell};
use fr_base::{Epoch, LogId, NodeId};
use fr_log::LogAsk;
use fr_register::CellAsk;
use fr_run::event_laws::step_law;
use fr_run::{Answer, NotEnabled};
use fr_world_nodes::Nodes;
use fr_world_nodes::storages::storage_may_ask;
use std::alloc::Global;

/// An ask comes to a cell, a log or a sequencer, if it was sent, or is one that storage servers may give.
pub(crate) fn delivered(
    alloc: Global,
    nodes: &mut Nodes,
    from: NodeId,
    to: NodeId,
    ask: Ask,
) -> Result<Answer, NotEnabled>
    requires kept { IsKept nodes.old }
    requires limits { AskHasLimits ask }
    ensures turn { Steps (state_of nodes.old) (state_of nodes.new) (event.Deliver from to ask) result }
    ensures refused { Refuses (state_of nodes.old) (event.Deliver from to ask) result }
    ensures err { OnErr result (state_of nodes.new ≡ state_of nodes.old) }
    ensures stays { IsKept nodes.new }
{
    step_law();
    // The node whose turn it is comes first, since without it there is nothing to say of the request (invariant 3).
    if let Some(why) = why_not_up(nodes, &to) {
        return Err(why);
    }
    // Asked before the request is moved into its turn (invariant 4).
    let sent = nodes.turns.was_sent(&from, &to, &ask);
    match ask {
        Ask::Cell(ask) => match to {
            NodeId::Cell { index } => to_cell(alloc, nodes, from, index, ask, sent),
            // A request of another kind than the node's was sent by nobody.
            _ => Err(NotEnabled::NeverSent),
        },
        Ask::Log(ask) => match to {
            NodeId::Log { epoch, index } => {
                // Storage servers ask in no turn of their own, since asking changes nothing of them. What they may
                // ask is judged by their state at this moment: a Pop by the floor that they have now (invariant 4).
                let may = sent || storage_may_ask(&nodes.config, &nodes.storages, &from, &ask);
                to_log(alloc, nodes, from, LogId { epoch, index }, ask, may)
            }
            _ => Err(NotEnabled::NeverSent),
        },
        Ask::Seq(ask) => match to {
            NodeId::Sequencer { epoch } => to_sequencer(alloc, nodes, from, epoch, ask, sent),
            _ => Err(NotEnabled::NeverSent),
        },
    }
}

/// An ask comes to a cell that is up, if it was sent.
fn to_cell(
    alloc: Global,
    nodes: &mut Nodes,
    from: NodeId,
    index: u8,
    ask: CellAsk,
    sent: bool,
) -> Result<Answer, NotEnabled>
    requires kept { IsKept nodes.old }
    requires turn { sent ≡ true → IsTurn (state_of nodes.old).config (state_of nodes.old).turns
        (history.CellTurn from index ask
        (cell.answer_of (cell_at (state_of nodes.old).config (state_of nodes.old).turns index) ask)) }
    ensures turn { IfOk result (λ answer. stepped_by (state_of nodes.old)
        (if_sent sent (history.CellTurn from index ask
        (cell.answer_of (cell_at (state_of nodes.old).config (state_of nodes.old).turns index) ask)))
        ≡ Ok (state_of nodes.new, answer)) }
    ensures refused { RefusesTurn (if_sent sent (history.CellTurn from index ask
        (cell.answer_of (cell_at (state_of nodes.old).config (state_of nodes.old).turns index) ask)))
        result }
    ensures err { OnErr result (state_of nodes.new ≡ state_of nodes.old) }
    ensures stays { IsKept nodes.new }
{
    // Judged here and not by the caller, so that the contract of a turn speaks of the request alone (invariant 4).
    if !sent {
        return Err(NotEnabled::NeverSent);
    }
    let told = nodes.ask_cell(alloc, from, index, ask)?;
    Ok(Answer::Told(Tell::Cell(told)))
}

/// An ask comes to a log that is up, if it was sent or may be given at any time.
fn to_log(
    alloc: Global,
    nodes: &mut Nodes,
    from: NodeId,
    id: LogId,
    ask: LogAsk,
    sent: bool,
) -> Result<Answer, NotEnabled>
    requires kept { IsKept nodes.old }
    requires turn { sent ≡ true → IsTurn (state_of nodes.old).config (state_of nodes.old).turns
        (history.LogTurn from id.epoch id.index ask
        (log.answer_of (log_at (state_of nodes.old).config (state_of nodes.old).turns id.epoch id.index)
        ask)) }
    ensures turn { IfOk result (λ answer. stepped_by (state_of nodes.old)
        (if_sent sent (history.LogTurn from id.epoch id.index ask
        (log.answer_of (log_at (state_of nodes.old).config (state_of nodes.old).turns id.epoch id.index)
        ask))) ≡ Ok (state_of nodes.new, answer)) }
    ensures refused { RefusesTurn (if_sent sent (history.LogTurn from id.epoch id.index ask
        (log.answer_of (log_at (state_of nodes.old).config (state_of nodes.old).turns id.epoch id.index)
        ask))) result }
    ensures err { OnErr result (state_of nodes.new ≡ state_of nodes.old) }
    ensures stays { IsKept nodes.new }
{
    if !sent {
        return Err(NotEnabled::NeverSent);
    }
    // The log's own step, so its reply and its next state are those of fr_log (invariant 1).
    let told = nodes.ask_log(alloc, from, id, ask)?;
    Ok(Answer::Told(Tell::Log(told)))
}

/// An ask comes to a sequencer that is up, if it was sent.
fn to_sequencer(
    alloc: Global,
    nodes: &mut Nodes,
    from: NodeId,
    epoch: Epoch,
    ask: SeqAsk,
    sent: bool,
) -> Result<Answer, NotEnabled>
    requires kept { IsKept nodes.old }
    requires turn { sent ≡ true → IsTurn (state_of nodes.old).config (state_of nodes.old).turns
        (history.SeqTurn from epoch ask
        (seq.answer_of (seq_at (state_of nodes.old).config (state_of nodes.old).turns epoch) ask)) }
    ensures turn { IfOk result (λ answer. stepped_by (state_of nodes.old)
        (if_sent sent (history.SeqTurn from epoch ask
        (seq.answer_of (seq_at (state_of nodes.old).config (state_of nodes.old).turns epoch) ask)))
        ≡ Ok (state_of nodes.new, answer)) }
    ensures refused { RefusesTurn (if_sent sent (history.SeqTurn from epoch ask
        (seq.answer_of (seq_at (state_of nodes.old).config (state_of nodes.old).turns epoch) ask))) result }
    ensures err { OnErr result (state_of nodes.new ≡ state_of nodes.old) }
    ensures stays { IsKept nodes.new }
{
    if !sent {
        return Err(NotEnabled::NeverSent);
    }
    let told = nodes.ask_sequencer(alloc, from, epoch, ask)?;
    Ok(Answer::Told(Tell::Seq(told)))
}
