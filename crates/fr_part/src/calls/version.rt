//! The version of the library.
ghost use Rattle.std.specs.Prelude.{◌≡◌, ◌∷◌, [], true};
ghost use Rattle.fr_part.specs.Answers.{IsGiven, IsShort};
ghost use Rattle.fr_part.specs.Calls.{IsAmong};
ghost use Rattle.fr_part.specs.Version.{version_text};

use crate::calls::giving::give;
use crate::calls::status::{OK, SHORT};

/// That of the program, as `fdbrec --version` prints it.
const VERSION: &str = "0.2.0";

/// Gives the version as a text.
pub fn give_version(out: &mut [u8], len: &mut usize) -> u32
    ensures ok { result ≡ 0 → IsGiven version_text out.new len.new }
    ensures short { result ≡ 3 → IsShort version_text out.new len.new }
    ensures among { IsAmong (0 ∷ 3 ∷ []) result }
{
    if give(VERSION.as_bytes(), out, len) {
        OK
    } else {
        SHORT
    }
}
