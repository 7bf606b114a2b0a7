//! Replies heard by a tally, and their lines.
ghost use Rattle.std.specs.Prelude.{◌≡◌, IfErr, OnOk};
ghost use Rattle.std.specs.Io.KnownBytes.{Appends};
ghost use Rattle.fr_cli_json.specs.Calls.{IsWriteFault};
ghost use Rattle.fr_cli_json.specs.Text.{GainsFront};
ghost use Rattle.fr_epoch.specs.EndTally.{end_of, with_reply};
ghost use Rattle.fr_cli_end.specs.Lines.{end_line, line_of, lines_from};

use fr_cli_json::{CallCounts, CliFault, put};
use fr_epoch::{EndTally, EpochEnd, Inconsistent, Reply, ReplyFault};
use std::alloc::Global;
use std::io::Write;

/// Lets a tally hear replies, and writes a line for each.
pub(crate) fn put_lines<W: Write>(
    alloc: Global,
    tally: &mut EndTally,
    replies: Vec<Reply>,
    calls: &mut CallCounts,
    writer: &mut W,
) -> Result<(), CliFault>
    ensures ok { OnOk result (Appends (W.contents writer.old) (W.contents writer.new) (lines_from tally.old replies.items)) }
    ensures front { GainsFront (W.contents writer.old) (W.contents writer.new) (lines_from tally.old replies.items) }
    ensures fault { IfErr result (λ e. IsWriteFault calls.new e) }
    ensures done { OnOk result (calls.new ≡ calls.old) }
{
    for reply in replies {
        put_line(alloc, tally, reply, calls, writer)?;
    }
    Ok(())
}

/// Lets a tally hear a reply, and writes its line.
fn put_line<W: Write>(
    alloc: Global,
    tally: &mut EndTally,
    reply: Reply,
    calls: &mut CallCounts,
    writer: &mut W,
) -> Result<(), CliFault>
    ensures ok { OnOk result (Appends (W.contents writer.old) (W.contents writer.new) (line_of tally.old reply)) }
    ensures front { GainsFront (W.contents writer.old) (W.contents writer.new) (line_of tally.old reply) }
    ensures fault { IfErr result (λ e. IsWriteFault calls.new e) }
    ensures done { OnOk result (calls.new ≡ calls.old) }
    ensures heard { tally.new ≡ with_reply tally.old reply }
{
    match tally.hear(reply.log, reply.durable, reply.known) {
        Ok(()) => put_end(alloc, tally, calls, writer),
        Err(ReplyFault::Stranger) => put(calls, writer, "refused Stranger\n"),
        Err(ReplyFault::Differs) => put(calls, writer, "refused Differs\n"),
    }
}

/// Writes the end that a tally tells.
fn put_end<W: Write>(
    alloc: Global,
    tally: &EndTally,
    calls: &mut CallCounts,
    writer: &mut W,
) -> Result<(), CliFault>
    ensures ok { OnOk result (Appends (W.contents writer.old) (W.contents writer.new) (end_line (end_of tally.now))) }
    ensures front { GainsFront (W.contents writer.old) (W.contents writer.new) (end_line (end_of tally.now)) }
    ensures fault { IfErr result (λ e. IsWriteFault calls.new e) }
    ensures done { OnOk result (calls.new ≡ calls.old) }
{
    match tally.end() {
        Ok(None) => put(calls, writer, "none\n"),
        Ok(Some(EpochEnd { pev, rv })) => {
            let pev = pev.get();
            let rv = rv.get();
            let line = format!(in alloc; "pev {pev} rv {rv}\n")?;
            put(calls, writer, line.as_str())
        }
        Err(Inconsistent) => put(calls, writer, "inconsistent\n"),
    }
}
