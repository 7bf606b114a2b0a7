//! The recoverers of a world, each from its begin on.
ghost use Rattle.std.specs.Prelude.{◌≡◌, ℕ, cond, IfOk, IfSome, IsSome, OnOk, OnErr, None, Some};
ghost use Rattle.std.specs.Option.{option_map};
ghost use Rattle.std.specs.Ordering.{nat_cmp};
ghost use Rattle.std.specs.BTreeMap as tree;
ghost use Rattle.fr_epoch.specs.Asks.{new_asks};
ghost use Rattle.fr_epoch.specs.Hear.{after_hear};

use fr_ask::{Ask, Tell};
use fr_base::{Ballot, Memory, NodeId};
use fr_epoch::Recoverer;
use std::alloc::Global;
use std::collections::BTreeMap;

/// Keeps a recoverer that begins, under a ballot that has none. Out of memory it changes nothing.
pub fn keep_recoverer(
    recoverers: &mut BTreeMap<Ballot, Recoverer>,
    ballot: Ballot,
    new: Recoverer,
) -> Result<(), Memory>
    requires { tree.get nat_cmp recoverers.old ballot ≡ None }
    ensures after { OnOk result ((b : ℕ)
        → tree.get nat_cmp recoverers.new b ≡ cond (tree.is_at (nat_cmp ballot) b) (Some new)
        (tree.get nat_cmp recoverers.old b)) }
    ensures err { OnErr result ((b : ℕ) → tree.get nat_cmp recoverers.new b ≡ tree.get nat_cmp recoverers.old b) }
{
    match recoverers.insert(ballot, new) {
        Ok(_) => Ok(()),
        Err(_) => Err(Memory),
    }
}

/// Tells a recoverer that began. Out of memory it changes nothing.
pub fn tell_recoverer(
    alloc: Global,
    recoverers: &mut BTreeMap<Ballot, Recoverer>,
    ballot: Ballot,
    from: NodeId,
    tell: Tell,
) -> Result<Vec<(NodeId, Ask)>, Memory>
    requires { IsSome (tree.get nat_cmp recoverers.old ballot) }
    ensures asks { IfOk result (λ asks. IfSome (tree.get nat_cmp recoverers.old ballot) (λ r. asks.items ≡ new_asks r from tell)) }
    ensures after { OnOk result ((b : ℕ)
        → tree.get nat_cmp recoverers.new b
        ≡ cond (tree.is_at (nat_cmp ballot) b) (option_map (λ r. after_hear r from tell)
        (tree.get nat_cmp recoverers.old ballot)) (tree.get nat_cmp recoverers.old b)) }
    ensures err { OnErr result ((b : ℕ) → tree.get nat_cmp recoverers.new b ≡ tree.get nat_cmp recoverers.old b) }
{
    match recoverers.get_mut(&ballot) {
        Some(recoverer) => recoverer.hear(alloc, from, tell),
        None => unreachable!(),
    }
}
