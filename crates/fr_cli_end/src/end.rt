//! The command `end`.
ghost use Rattle.std.specs.Prelude.{◌≡◌};
ghost use Rattle.fr_cli_json.specs.Calls.{no_calls, HasCause};
ghost use Rattle.fr_cli_json.specs.Command.{Prints};
ghost use Rattle.fr_cli_end.specs.Script.{replies_of};
ghost use Rattle.fr_cli_end.specs.Lines.{lines_of};

use crate::lines::put_lines;
use crate::options::EndOptions;
use crate::script::read_script;
use fr_cli_json::{CallCounts, CliFault, read_input};
use fr_epoch::EndTally;
use std::alloc::Global;
use std::io::{Read, Write};

/// Lets a tally of the locked generation hear the replies of a script, and writes a line for each.
///
/// The status is 0, for replies that are refused and for an inconsistent end too. A script is read whole
/// before its first line is written, so what is no script writes nothing.
pub fn run_end<R: Read, W: Write>(
    alloc: Global,
    options: EndOptions,
    reader: &mut R,
    writer: &mut W,
) -> Result<u8, CliFault>
    ensures prints { Prints replies_of (lines_of options.logs options.degree) (R.remaining reader.old) (R.remaining reader.new)
        W.contents writer.old writer.new result }
{
    end_counted(alloc, options, &mut CallCounts::new(), reader, writer)
}

/// As [`run_end`], with the calls of the reader and of the writer counted in `calls`, which has none yet. `Input` is
/// answered only if a read failed or 2^30 of them found no end, `Output` only if a write or a flush failed.
pub fn end_counted<R: Read, W: Write>(
    alloc: Global,
    options: EndOptions,
    calls: &mut CallCounts,
    reader: &mut R,
    writer: &mut W,
) -> Result<u8, CliFault>
    requires fresh { calls.old ≡ no_calls }
    ensures prints { Prints replies_of (lines_of options.logs options.degree) (R.remaining reader.old) (R.remaining reader.new)
        W.contents writer.old writer.new result }
    ensures cause { HasCause calls.new result }
{
    let input = read_input(alloc, calls, reader)?;
    let replies = read_script(alloc, input)?;
    let mut tally = EndTally::new(options.logs(), options.degree());
    put_lines(alloc, &mut tally, replies, calls, writer)?;
    calls.flush(writer)?;
    Ok(0)
}
