//! The command `simulate`.
ghost use Rattle.std.specs.Prelude.{◌≡◌, ◌<◌, ◌⊎◌, Err, IfOk, IfErr, OnOk};
ghost use Rattle.fr_cli_json.specs.Calls.{no_calls, HasNoInput, HasNotFailed, IsWriteFault};

use crate::lines::put_storages;
use crate::steps::line_of;
use fr_cli_json::{CallCounts, CliFault, put, read_input};
use fr_script::simulate::{Script, ScriptStep, read_script};
use fr_world::World;
use std::alloc::Global;
use std::io::{Read, Write};

/// Takes the steps of a script, each a list of events, in a world of the script's config; writes a line for each step,
/// and then where each storage server stands, with its rows.
///
/// The status is 0, for steps that are refused too. A script is read whole before its first line is written, so
/// what is no script writes nothing.
pub fn run_simulate<R: Read, W: Write>(
    alloc: Global,
    reader: &mut R,
    writer: &mut W,
) -> Result<u8, CliFault>
    ensures status { IfOk result (λ status. status ≡ 0) }
    ensures unwritten { (result ≡ Err CliFault.BadScript) ⊎ (result ≡ Err CliFault.Input)
        → writer.new ≡ writer.old }
{
    let mut calls = CallCounts::new();
    simulate_counted(alloc, &mut calls, &mut String::new(alloc), reader, writer)
}

/// As [`run_simulate`], with the calls of the reader and of the writer counted in `calls`, which has none yet. `Input` is
/// answered only if a read failed or 2^30 of them found no end, `Output` only if a write or a flush failed. Of a bad
/// script `place` says where it is bad.
pub fn simulate_counted<R: Read, W: Write>(
    alloc: Global,
    calls: &mut CallCounts,
    place: &mut String,
    reader: &mut R,
    writer: &mut W,
) -> Result<u8, CliFault>
    requires fresh { calls.old ≡ no_calls }
    ensures status { IfOk result (λ status. status ≡ 0) }
    ensures unwritten { (result ≡ Err CliFault.BadScript) ⊎ (result ≡ Err CliFault.Input)
        → writer.new ≡ writer.old }
    ensures no_input { result ≡ Err CliFault.Input → HasNoInput calls.new }
    ensures no_output { result ≡ Err CliFault.Output → 0 < calls.new.failed_writes }
    ensures done { OnOk result (HasNotFailed calls.new) }
{
    let input = read_input(alloc, calls, reader)?;
    let script = read_script(alloc, input, place)?;
    put_script(alloc, script, calls, writer)?;
    calls.flush(writer)?;
    Ok(0)
}

/// Takes the steps of a script, and writes its lines.
fn put_script<W: Write>(
    alloc: Global,
    script: Script,
    calls: &mut CallCounts,
    writer: &mut W,
) -> Result<(), CliFault>
    ensures fault { IfErr result (λ e. IsWriteFault calls.new e) }
    ensures done { OnOk result (calls.new ≡ calls.old) }
{
    let Ok(world) = World::start(alloc, script.config) else {
        return Err(CliFault::Memory);
    };
    let world = put_steps(alloc, world, script.acts, calls, writer)?;
    put_storages(alloc, &world, calls, writer)
}

/// Takes steps, and writes a line for each; gives the world after them.
fn put_steps<W: Write>(
    alloc: Global,
    world: World,
    acts: Vec<ScriptStep>,
    calls: &mut CallCounts,
    writer: &mut W,
) -> Result<World, CliFault>
    ensures fault { IfErr result (λ e. IsWriteFault calls.new e) }
    ensures done { OnOk result (calls.new ≡ calls.old) }
{
    let mut world = world;
    for act in acts {
        let Ok((next, line)) = line_of(alloc, world, act) else {
            return Err(CliFault::Memory);
        };
        world = next;
        put(calls, writer, line.as_str())?;
    }
    Ok(world)
}
