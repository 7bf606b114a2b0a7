//! Audits of journals.
ghost use Rattle.std.specs.Prelude.{◌≡◌, ◌∷◌, [], true, List};
ghost use Rattle.fr_run.specs.Config as history;
ghost use Rattle.fr_audit_journal.specs.Journal.{JournalState};
ghost use Rattle.fr_audit.specs.Audited.{audited};
ghost use Rattle.fr_cli_audit.specs.Lines.{line_of, status_of};
ghost use Rattle.fr_part.specs.Answers.{IsGiven, IsShort};
ghost use Rattle.fr_part.specs.Calls.{IsAmong};

use fr_cli_audit::run_audit;
use fr_cli_json::CliFault;
use fr_part::calls::giving::give;
use fr_part::calls::status::{BAD_TEXT, MEMORY, OK, REFUSED, SHORT};
use std::alloc::Global;

/// Tells whether a script's journals are a run: `OK` or `REFUSED`, with the line of the command `audit`, or `SHORT` if
/// the line does not fit.
#[unsafe(no_mangle)]
pub extern "C" fn fdbrec_audit(alloc: Global, script: &[u8], out: &mut [u8], len: &mut usize) -> u32
    ensures ok { result ≡ 0 → (c : history.Config) × (js : List JournalState)
        × (status_of (audited c js) ≡ 0) × IsGiven (line_of (audited c js)) out.new len.new }
    ensures refused { result ≡ 5 → (c : history.Config) × (js : List JournalState)
        × (status_of (audited c js) ≡ 1) × IsGiven (line_of (audited c js)) out.new len.new }
    ensures short { result ≡ 3 → (c : history.Config) × (js : List JournalState)
        × IsShort (line_of (audited c js)) out.new len.new }
    ensures among { IsAmong (0 ∷ 1 ∷ 3 ∷ 5 ∷ 7 ∷ []) result }
    ensures kept { IsAmong (1 ∷ 7 ∷ []) result → (out.new ≡ out.old) × (len.new ≡ len.old) }
{
    let mut script = script;
    let mut line = Vec::new(alloc);
    match run_audit(alloc, &mut script, &mut line) {
        Ok(judged) => match judged.status {
            0 => if give(&line, out, len) { OK } else { SHORT },
            _ => if give(&line, out, len) {
                REFUSED
            } else {
                SHORT
            },
        },
        Err(CliFault::BadScript) => BAD_TEXT,
        Err(_) => MEMORY,
    }
}
