//! The whole input of a command.
ghost use Rattle.std.specs.Prelude.{◌≡◌, ◌⊎◌, Err, IfOk, IfErr, OnOk};
ghost use Rattle.fr_cli_json.specs.Calls.{no_calls, HasNoInput, HasNotFailed};
ghost use Rattle.fr_cli_json.specs.Text.{IsInput};

use crate::calls::CallCounts;
use crate::fault::CliFault;
use std::alloc::Global;
use std::io::{ErrorKind, Read};

/// The most reads that a command makes.
pub const MAX_READS: usize = 1_073_741_824;

/// The most bytes that one read gives.
pub const READ_SIZE: usize = 8192;

/// All that a reader has left, in at most 2^30 reads, counted in `calls`, which has none yet. A read
/// that was interrupted is made again, and counts.
pub fn read_input<R: Read>(
    alloc: Global,
    calls: &mut CallCounts,
    reader: &mut R,
) -> Result<Vec<u8>, CliFault>
    requires fresh { calls.old ≡ no_calls }
    ensures all { IfOk result (λ bytes. IsInput (R.remaining reader.old) (R.remaining reader.new) bytes.items) }
    ensures fault { IfErr result (λ e. (e ≡ CliFault.Input) ⊎ (e ≡ CliFault.Memory)) }
    ensures input { result ≡ Err CliFault.Input → HasNoInput calls.new }
    ensures done { OnOk result (HasNotFailed calls.new) }
{
    let mut bytes = Vec::new(alloc);
    let mut chunk = [0u8; READ_SIZE];
    for turn in 0..MAX_READS {
        match calls.read(reader, &mut chunk) {
            Ok(0) => return Ok(bytes),
            Ok(n) => bytes.extend_from_slice(&chunk[..n])?,
            Err(e) if e.kind() == ErrorKind::Interrupted => {}
            Err(_) => return Err(CliFault::Input),
        }
    }
    Err(CliFault::Input)
}
