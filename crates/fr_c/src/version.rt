//! The version.
ghost use Rattle.std.specs.Prelude.{◌≡◌, ◌∷◌, [], true};
ghost use Rattle.fr_part.specs.Answers.{IsGiven, IsShort};
ghost use Rattle.fr_part.specs.Calls.{IsAmong};
ghost use Rattle.fr_part.specs.Version.{version_text};

use fr_part::calls::version::give_version;
use std::alloc::Global;

/// Gives the version of the library as a text. It is of no machine.
#[unsafe(no_mangle)]
pub extern "C" fn fdbrec_version(alloc: Global, out: &mut [u8], len: &mut usize) -> u32
    ensures ok { result ≡ 0 → IsGiven version_text out.new len.new }
    ensures short { result ≡ 3 → IsShort version_text out.new len.new }
    ensures among { IsAmong (0 ∷ 3 ∷ []) result }
{
    give_version(out, len)
}
