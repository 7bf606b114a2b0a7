//! Bytes that are read.
ghost use Rattle.std.specs.Prelude.{◌≡◌, Ok, Err, IfOk, length};
ghost use Rattle.fr_mutation.specs.CodecReading.{decoded};
ghost use Rattle.fr_forms.specs.declared.fault.ScriptFault.TheVariants.{BadScript};
ghost use Rattle.fr_part.specs.Answers.{IsNoBatch};

use fr_forms::ScriptFault;
use fr_mutation::{Batch, DecodeFault, decode};
use std::alloc::Global;

/// Reads the batch that all of these bytes spell.
pub fn read_batch(alloc: Global, bytes: &[u8]) -> Result<Batch, ScriptFault>
    ensures batch { IfOk result (λ batch. decoded bytes.now ≡ Ok (batch, length bytes.now)) }
    ensures bad_text { result ≡ Err BadScript → IsNoBatch bytes.now }
{
    match decode(alloc, bytes) {
        Ok((batch, used)) => if used == bytes.len() {
            Ok(batch)
        } else {
            Err(ScriptFault::BadScript)
        },
        Err(DecodeFault::Memory) => Err(ScriptFault::Memory),
        Err(DecodeFault::Short) => Err(ScriptFault::BadScript),
        Err(DecodeFault::UnknownKind) => Err(ScriptFault::BadScript),
        Err(DecodeFault::OverLimit) => Err(ScriptFault::BadScript),
        Err(DecodeFault::Inverted) => Err(ScriptFault::BadScript),
        Err(DecodeFault::NeedlessFormat) => Err(ScriptFault::BadScript),
    }
}
