//! What a thread keeps of what comes late.
ghost use Rattle.std.specs.Prelude.{◌≡◌, ◌<◌, ◌-◌, ◌++◌, ◌∷◌, [], IfOk, OnOk};
ghost use Rattle.fr_runtime_threads.specs.Late.{due_by, due_of, left_by, left_of};

use fr_ask::{Ask, Tell};
use fr_base::{Memory, NodeId, Stamp};
use std::alloc::Global;

/// A request or a reply on its way.
#[derive(Drop)]
pub(crate) enum Message {
    Ask { to: NodeId, ask: Ask },
    /// A reply, and the stamp at which it was given.
    Tell { from: NodeId, at: Stamp, tell: Tell },
}

/// A message, the node that sent the ask of it, and in how many turns it comes: in the next, if that is 1 or less.
#[derive(Drop)]
pub(crate) struct Letter {
    pub(crate) by: NodeId,
    pub(crate) turns: u8,
    pub(crate) message: Message,
}

/// The messages that a thread keeps, in the order in which it came to keep them. None is kept for more turns than a
/// verdict can say, and those that are kept when the thread ends are lost.
///
/// They lie with the thread that sent the request, so no thread is added for them. The thread sees the stamp of each
/// call that it makes, so its later entries come after that call in the audit, which judges a pop by the server's
/// state at that time.
#[derive(Drop)]
pub(crate) struct Late {
    letters: Vec<Letter>,
}

impl Late {
    pub(crate) fn new(alloc: Global) -> Self
        ensures { result.letters.items ≡ [] }
    {
        Late {
            letters: Vec::new(alloc),
        }
    }

    pub(crate) fn keep(&mut self, letter: Letter) -> Result<(), Memory>
        ensures { OnOk result (self.new.letters.items ≡ self.old.letters.items ++ letter ∷ []) }
    {
        put(&mut self.letters, letter)
    }

    /// The messages that come at the next turn, which has begun now. The others are a turn nearer.
    pub(crate) fn next(&mut self, alloc: Global) -> Result<Vec<Letter>, Memory>
        ensures due { IfOk result (λ due. due.items ≡ due_of self.old.letters.items) }
        ensures left { OnOk result (self.new.letters.items ≡ left_of self.old.letters.items) }
    {
        // Taken out whole and sorted again, so that both lists keep the order in which messages came to be late.
        let kept = std::mem::replace(&mut self.letters, Vec::new(alloc));
        let mut due = Vec::new(alloc);
        for letter in kept {
            self.sort(&mut due, letter)?;
        }
        Ok(due)
    }

    /// Puts a message to those that come, or a turn nearer to those that are kept.
    fn sort(&mut self, due: &mut Vec<Letter>, letter: Letter) -> Result<(), Memory>
        ensures due { OnOk result (due.new.items ≡ due.old.items ++ due_by letter) }
        ensures left { OnOk result (self.new.letters.items ≡ self.old.letters.items ++ left_by letter) }
    {
        // 0 and 1 are the same: a message that is late comes at the next turn at the earliest.
        if letter.turns <= 1 {
            return put(due, letter);
        }
        put(&mut self.letters, nearer(letter))
    }
}

/// A message that does not come yet, a turn later.
fn nearer(letter: Letter) -> Letter
    requires later { 1 < letter.turns }
    ensures { result ≡ record letter { turns = letter.turns - 1 } }
{
    let Letter { by, turns, message } = letter;
    Letter {
        by,
        turns: turns - 1,
        message,
    }
}

pub(crate) fn put<T: Drop>(all: &mut Vec<T>, item: T) -> Result<(), Memory>
    ensures { OnOk result (all.new.items ≡ all.old.items ++ item ∷ []) }
{
    all.reserve(1)?;
    all.push_reserved(item);
    Ok(())
}
