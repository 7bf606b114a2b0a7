//! Lists of events.
ghost use Rattle.std.specs.Prelude.{◌≡◌, ◌≢◌, Err, IfErr, IfOk, Ok};
ghost use Rattle.fr_run.specs.declared.not_enabled.NotEnabled.{NotEnabled};
ghost use Rattle.fr_run.specs.Step.{replay};
ghost use Rattle.fr_run_headline.specs.Committed.{AcknowledgedIsNeverUndone, RolledBackIsExact};
ghost use Rattle.fr_run_headline.specs.Safety.{IsSafe};
ghost use Rattle.fr_world.specs.Replaying.{IsAtStartOrCanHappen};

use crate::world::World;
use fr_run::{Config, Event, NotEnabled};
use std::alloc::Global;

impl World {
    /// The world that a list of events makes from the start; or the number of the first event that cannot happen,
    /// from 0 on, and why. Every list of events either is a run or is refused so. `Memory` comes with the number of
    /// an event that can happen after those before it, or with 0 if the start ran out of it. In each world that it
    /// answers the main theorem holds, and all else that [`World::is_safe`] says.
    pub fn replay(
        alloc: Global,
        config: Config,
        events: Vec<Event>,
    ) -> Result<World, (usize, NotEnabled)>
        ensures config { IfOk result (λ world. world.config ≡ config) }
        ensures turns { IfOk result (λ world. replay config events.items ≡ Ok world.turns) }
        ensures headline { IfOk result (λ world. RolledBackIsExact world.config world.turns × AcknowledgedIsNeverUndone world.config world.turns) }
        ensures safe { IfOk result (λ world. IsSafe world.config world.turns) }
        ensures refused { IfErr result (λ first. first.1 ≢ NotEnabled.Memory → replay config events.items ≡ Err first) }
        ensures memory { IfErr result (λ first. first.1 ≡ NotEnabled.Memory → IsAtStartOrCanHappen config events.items first.0) }
    {
        let Ok(mut world) = World::start(alloc, config) else {
            // Before any event, so it comes with the number of the first.
            return Err((0, NotEnabled::Memory));
        };
        for (number, event) in events.into_iter().enumerate() {
            // By value: a refused event ends the replay, so the world need not be kept for it.
            match world.step_owned(alloc, event) {
                Ok((next, _)) => world = next,
                Err(why) => return Err((number, why)),
            }
        }
        world.is_safe();
        Ok(world)
    }
}
