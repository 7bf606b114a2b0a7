//! What a recoverer opens: the logs and the proxies of its generation, each as it is before it is first asked or
//! called, and the version of its mark.
ghost use Rattle.std.specs.Prelude.{◌≡◌, ◌+◌, ◌-◌, ◌≤◌, ◌<◌, ◌^◌, IfSome, IsSome, Some};
ghost use Rattle.fr_epoch.specs.Recoverer.{Plan};
ghost use Rattle.fr_run.specs.Nodes as nodes;
ghost use Rattle.fr_proxy.specs.Proxy as proxy;

use crate::start::version_one;
use fr_base::{Epoch, LogId, Version};
use fr_epoch::Recoverer;
use fr_log::Log;
use fr_proxy::Proxy;
use fr_tags::ShardMap;
use std::alloc::Global;

/// How many logs the generation of a recoverer has by now: none before all is copied.
pub fn logs_in(recoverer: &Recoverer) -> u8
    ensures { result ≡ nodes.logs_in recoverer.now.plan }
{
    match recoverer.generation() {
        Some(generation) if recoverer.is_copied() => generation.m(),
        _ => 0,
    }
}

/// The version of the mark of the generation that a recoverer is going to open.
pub fn mark_version(recoverer: &Recoverer) -> Version
    requires { (p : Plan) → recoverer.now.plan ≡ Some p → p.generation.seeded_to + 1 < 2 ^ 62 }
    ensures { result ≡ nodes.mark_version (nodes.generation_in recoverer.now.plan) }
{
    match recoverer.generation() {
        Some(generation) => after(generation.seeded_to()),
        None => version_one(),
    }
}

/// A log of the generation that a recoverer is going to open, which was never asked.
pub fn new_log(alloc: Global, recoverer: &Recoverer, id: LogId) -> Log
    requires { id.index < nodes.logs_in recoverer.now.plan }
    ensures { result ≡ nodes.new_log_in recoverer.now.plan id.epoch id.index }
{
    let _within = recoverer.phase();
    match recoverer.generation() {
        Some(generation) => Log::new(alloc, id, generation.m(), generation.k()),
        None => unreachable!(),
    }
}

/// A proxy of the generation that a recoverer planned, before it was called.
pub fn first_proxy(recoverer: &Recoverer, epoch: Epoch, number: u8, map: ShardMap) -> Proxy
    requires { IsSome recoverer.now.plan }
    ensures { IfSome recoverer.now.plan (λ p. result ≡ proxy.new_proxy epoch number p.generation.m p.generation.k map (p.generation.first - 1)) }
{
    let _sound = recoverer.phase();
    match recoverer.generation() {
        Some(generation) => {
            let known = before(generation.first());
            Proxy::new(epoch, number, generation.m(), generation.k(), map, known)
        }
        None => unreachable!(),
    }
}

/// The version before one that is not 0.
fn before(version: Version) -> Version
    requires { 1 ≤ version }
    ensures { result ≡ version - 1 }
{
    match version.before() {
        Some(version) => version,
        None => unreachable!(),
    }
}

/// The version after the one that a generation was seeded to.
fn after(version: Version) -> Version
    requires { version + 1 < 2 ^ 62 }
    ensures { result ≡ version + 1 }
{
    match version.after() {
        Some(version) => version,
        None => unreachable!(),
    }
}
