//! Turns that wait to be taken.
use fr_base::{Memory, Stamp};
use fr_node::{Acting, NodeTurn};
use fr_node_lines::Envelope;
use std::alloc::Global;

/// So many turns are taken as one group at most.
const TOGETHER: usize = 64;

/// A turn, the stamp that came with it, and whether its answer is to have the whole state.
#[derive(Drop)]
pub(crate) struct Asked {
    pub at: Stamp,
    pub turn: NodeTurn,
    pub is_whole: bool,
}

/// Who waits for the answer to a turn, and whether it wants the whole state.
#[derive(Drop)]
pub(crate) struct Sender {
    pub envelope: Envelope,
    pub is_whole: bool,
}

/// Turns that wait to be taken, and may be taken as one group; and who sent them, in the same order.
#[derive(Drop)]
pub(crate) struct Waiting {
    senders: Vec<Sender>,
    turns: Vec<(Stamp, NodeTurn)>,
}

impl Waiting {
    /// None waits.
    pub(crate) fn new(alloc: Global) -> Self {
        Waiting {
            senders: Vec::new(alloc),
            turns: Vec::new(alloc),
        }
    }

    /// Whether a turn may wait behind those that do: it joins the last of them, or is the first one.
    pub(crate) fn may_take<T: Acting>(&self, node: &T, turn: &NodeTurn) -> bool {
        match self.turns.as_slice().last() {
            // An answer to a group says nothing of what the node asks.
            Some((_, last)) => {
                !T::TELLS_WANTS && self.turns.len() < TOGETHER && node.may_join(last, turn)
            }
            None => true,
        }
    }

    /// Has a turn wait.
    pub(crate) fn put(&mut self, sender: Sender, at: Stamp, turn: NodeTurn) -> Result<(), Memory> {
        self.senders.push(sender)?;
        self.turns.push((at, turn))?;
        Ok(())
    }

    /// Those that wait. Then none does.
    pub(crate) fn take_all(&mut self, alloc: Global) -> (Vec<Sender>, Vec<(Stamp, NodeTurn)>) {
        let senders = std::mem::replace(&mut self.senders, Vec::new(alloc));
        let turns = std::mem::replace(&mut self.turns, Vec::new(alloc));
        (senders, turns)
    }
}
