//! What a batch is for each log of a generation.
ghost use Rattle.std.specs.Prelude.{◌≡◌, ◌||◌, ℕ, ◌<◌, ◌≤◌, false, length, map, slice_index_or, IfOk};
ghost use Rattle.std.specs.List.{list_any};
ghost use Rattle.fr_mutation.specs.Clip.{clipped};
ghost use Rattle.fr_tags.specs.Shards.{shard_at, meets, is_from_to};
ghost use Rattle.fr_tags.specs.Split.{bodies, bodies_for, split};

use crate::body::Body;
use crate::map::{MAX_SHARDS, ShardMap, tag_at};
use crate::placement::{MAX_LOGS, is_held};
use fr_base::{Memory, Shape};
use fr_mutation::{Batch, clip};
use std::alloc::Global;

impl ShardMap {
    /// The bodies of a batch for each of the `m` logs of a generation, by the number of the log: of each
    /// tag that the log holds the batch clipped to the tag's shard, in rising tags. A body that is empty
    /// is left out. The batch is walked once for each tag on whose keys it acts.
    pub fn split(
        &self,
        alloc: Global,
        batch: &Batch,
        m: u8,
        k: u8,
    ) -> Result<Vec<Vec<Body>>, Memory>
        requires some { 1 ≤ k }
        requires fits { k ≤ m }
        requires limit { m ≤ MAX_LOGS }
        ensures { IfOk result (λ logs. map (λ log. log.items) logs.items ≡ split self.now batch.now m k) }
    {
        let Some(shape) = Shape::new(m, k) else {
            unreachable!();
        };
        let bodies = self.bodies(alloc, batch)?;
        let mut logs = Vec::with_capacity(alloc, usize::from(m))?;
        for log in 0..m {
            logs.push(bodies_for(alloc, bodies.as_slice(), shape, log)?)?;
        }
        Ok(logs)
    }

    /// The bodies of a batch that are not empty, in rising tags.
    fn bodies(&self, alloc: Global, batch: &Batch) -> Result<Vec<Body>, Memory>
        ensures { IfOk result (λ all. all.items ≡ bodies self.now batch.now) }
    {
        let is_met = self.met(batch);
        let mut bodies = Vec::new(alloc);
        for number in 0..self.begins().len() {
            if is_met[number] {
                let tag = tag_at(number);
                let batch = self.clip_to(alloc, batch, number)?;
                bodies.push(Body { tag, batch })?;
            }
        }
        Ok(bodies)
    }

    /// The batch as far as it acts on keys of the shard of a number.
    fn clip_to(&self, alloc: Global, batch: &Batch, number: usize) -> Result<Batch, Memory>
        requires { number < length self.now }
        ensures { IfOk result (λ body. body ≡ clipped batch.now (shard_at self.now number)) }
    {
        let shard = self.shard_at(alloc, number)?;
        clip(alloc, batch, &shard)
    }

    /// Which shards have a key on which a mutation of the batch acts.
    fn met(&self, batch: &Batch) -> [bool; MAX_SHARDS]
        ensures { (t : ℕ) → t < length self.now
            → slice_index_or result t false ≡ list_any (λ mutation. meets mutation (shard_at self.now t)) batch.now }
    {
        let mut is_met = [false; MAX_SHARDS];
        for mutation in batch.mutations() {
            let touched = self.touched(mutation);
            mark(&mut is_met, touched.start, touched.end);
        }
        is_met
    }
}

/// Sets the marks from one place up to, but not including, another.
fn mark(marks: &mut [bool], from: usize, to: usize)
    requires order { from ≤ to }
    requires within { to ≤ length marks.old }
    ensures { (t : ℕ) → slice_index_or marks.new t false ≡ (slice_index_or marks.old t false || is_from_to from to t) }
{
    for place in from..to {
        marks[place] = true;
    }
}

/// Copies of the bodies whose tags a log holds.
fn bodies_for(alloc: Global, bodies: &[Body], shape: Shape, log: u8) -> Result<Vec<Body>, Memory>
    ensures { IfOk result (λ held. held.items ≡ bodies_for bodies.now shape.m shape.k log) }
{
    let count = bodies
        .iter()
        .filter(|body| is_held(body.tag, shape.m(), shape.k(), log))
        .count();
    let mut held = Vec::with_capacity(alloc, count)?;
    for body in bodies {
        if is_held(body.tag, shape.m(), shape.k(), log) {
            held.push(body.copy()?)?;
        }
    }
    Ok(held)
}
