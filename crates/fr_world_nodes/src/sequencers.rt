//! The sequencers of a world, each made when it is first asked.
ghost use Rattle.std.specs.Prelude.{◌≡◌, ℕ, cond, unwrap_or, IfOk, OnOk, OnErr, Some};
ghost use Rattle.std.specs.Ordering.{nat_cmp};
ghost use Rattle.std.specs.BTreeMap as tree;
ghost use Rattle.fr_proxy.specs.Sequencer.{answer_of, next_of, new_sequencer};

use fr_ask::{SeqAsk, SeqTell};
use fr_base::{Epoch, Machine, Memory, Version};
use fr_proxy::Sequencer;
use std::alloc::Global;
use std::collections::BTreeMap;

/// Asks the sequencer of an epoch, which begins after this version if it is asked for the first time. Out of memory
/// it changes nothing.
pub fn ask_sequencer(
    alloc: Global,
    sequencers: &mut BTreeMap<Epoch, Sequencer>,
    epoch: Epoch,
    last: Version,
    ask: SeqAsk,
) -> Result<SeqTell, Memory>
    ensures told { IfOk result (λ told. told ≡ answer_of (unwrap_or (tree.get nat_cmp sequencers.old epoch) (new_sequencer epoch last)) ask) }
    ensures after { OnOk result ((e : ℕ)
        → tree.get nat_cmp sequencers.new e
        ≡ cond (tree.is_at (nat_cmp epoch) e)
        (Some (next_of (unwrap_or (tree.get nat_cmp sequencers.old epoch) (new_sequencer epoch last)) ask))
        (tree.get nat_cmp sequencers.old e)) }
    ensures err { OnErr result ((e : ℕ) → tree.get nat_cmp sequencers.new e ≡ tree.get nat_cmp sequencers.old e) }
{
    let mut sequencer = sequencer_of(alloc, sequencers, epoch, last)?;
    let told = sequencer.step(alloc, ask)?;
    match sequencers.insert(epoch, sequencer) {
        Ok(_) => Ok(told),
        Err(_) => Err(Memory),
    }
}

/// A copy of the sequencer of an epoch, or one that was never asked.
fn sequencer_of(
    alloc: Global,
    sequencers: &BTreeMap<Epoch, Sequencer>,
    epoch: Epoch,
    last: Version,
) -> Result<Sequencer, Memory>
    ensures { IfOk result (λ s. s ≡ unwrap_or (tree.get nat_cmp sequencers.now epoch) (new_sequencer epoch last)) }
{
    match sequencers.get(&epoch) {
        Some(sequencer) => sequencer.copy(),
        None => Ok(Sequencer::new(alloc, epoch, last)),
    }
}
