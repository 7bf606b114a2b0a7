//! What a store holds, written to a writer.
ghost use Rattle.std.specs.Prelude.{◌≡◌, IfErr, OnOk};
ghost use Rattle.std.specs.Io.KnownBytes.{Appends};
ghost use Rattle.fr_cli_json.specs.Calls.{IsWriteFault};
ghost use Rattle.fr_cli_json.specs.Text.{GainsFront};
ghost use Rattle.fr_cli_apply_sql.specs.Db.{show_lines};

use fr_cli_apply::{ok_line, put_contents};
use fr_cli_json::{CallCounts, CliFault, put};
use fr_undo::ShardStore;
use std::alloc::Global;
use std::io::Write;

/// Writes the state of a store, as the line of an operation does, and then its rows.
pub(crate) fn show_on<S: ShardStore, W: Write>(
    alloc: Global,
    store: &mut S,
    calls: &mut CallCounts,
    writer: &mut W,
) -> Result<(), CliFault>
    ensures ok { OnOk result (Appends (W.contents writer.old) (W.contents writer.new) (show_lines (S.state store.old))) }
    ensures same { OnOk result (S.state store.new ≡ S.state store.old) }
    ensures front { GainsFront (W.contents writer.old) (W.contents writer.new) (show_lines (S.state store.old)) }
    ensures fault { IfErr result (λ e. IsWriteFault calls.new e) }
{
    let line = ok_line(alloc, store)?;
    put(calls, writer, line.as_str())?;
    put_contents(alloc, store, calls, writer)?;
    calls.flush(writer)
}
