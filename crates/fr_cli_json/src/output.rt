//! Texts and bytes written to a writer.
ghost use Rattle.std.specs.Prelude.{◌≡◌, IfErr, OnOk};
ghost use Rattle.std.specs.Io.KnownBytes.{Appends};
ghost use Rattle.fr_cli_json.specs.Calls.{IsOutputFault};
ghost use Rattle.fr_cli_json.specs.Text.{GainsFront};

use crate::calls::CallCounts;
use crate::fault::CliFault;
use std::io::Write;

/// Writes a text, in as many calls as the writer wants. An interrupted call is made again.
pub fn put<W: Write>(calls: &mut CallCounts, writer: &mut W, text: &str) -> Result<(), CliFault>
    ensures ok { OnOk result (Appends (W.contents writer.old) (W.contents writer.new) text.now) }
    ensures front { GainsFront (W.contents writer.old) (W.contents writer.new) text.now }
    ensures fault { IfErr result (λ e. IsOutputFault calls.new e) }
    ensures done { OnOk result (calls.new ≡ calls.old) }
{
    put_bytes(calls, writer, text.as_bytes())
}

/// Writes bytes, in as many calls as the writer wants. An interrupted call is made again.
pub fn put_bytes<W: Write>(
    calls: &mut CallCounts,
    writer: &mut W,
    bytes: &[u8],
) -> Result<(), CliFault>
    ensures ok { OnOk result (Appends (W.contents writer.old) (W.contents writer.new) bytes.now) }
    ensures front { GainsFront (W.contents writer.old) (W.contents writer.new) bytes.now }
    ensures fault { IfErr result (λ e. IsOutputFault calls.new e) }
    ensures done { OnOk result (calls.new ≡ calls.old) }
{
    let mut rest = bytes;
    while !rest.is_empty() {
        let n = calls.write(writer, rest)?;
        rest = &rest[n..];
    }
    Ok(())
}
