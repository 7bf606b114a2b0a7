//! The command `apply` of `fdbrec` on a store whose rows are in the tables of a database, in memory or in files.
#![tactic(auto)]

mod db;
mod fault;
mod host;
mod locks;
mod memory_file;
mod refused;
mod show;
mod shown;

ghost use Rattle.std.specs.Prelude.{◌≡◌};
ghost use Rattle.fr_cli_json.specs.Calls.{no_calls, HasCause};
ghost use Rattle.fr_cli_json.specs.Command.{Prints};
ghost use Rattle.fr_cli_apply.specs.Script.{script_of};
ghost use Rattle.fr_cli_apply.specs.Lines.{lines_of};

use crate::memory_file::blank_files;
pub use db::{apply_on_files, show_files};
pub use fault::{DbFault, FileFault};
use fr_cli_apply::{Nobody, Notes, apply_noted_on};
use fr_cli_json::{CallCounts, CliFault};
use fr_sql_files::SqlFileStore;
pub use host::{HostFile, run_apply_db, run_rows_db};
use std::alloc::Global;
use std::io::{Read, Write};

/// Runs the operations of a script on an empty store in tables, and writes a line for each and then the rows: the same
/// as [`fr_cli_apply::run_apply`] writes on a map.
///
/// The status is 0. A script is read whole before its first line is written, so what is no script writes nothing. A
/// store that fails, or that cannot be made, ends the command as `Memory` does.
pub fn run_apply_sql<R: Read, W: Write>(
    alloc: Global,
    reader: &mut R,
    writer: &mut W,
) -> Result<u8, CliFault>
    ensures prints { Prints script_of lines_of (R.remaining reader.old) (R.remaining reader.new)
        W.contents writer.old writer.new result }
{
    let mut calls = CallCounts::new();
    apply_sql_counted(alloc, &mut calls, reader, writer)
}

/// As [`run_apply_sql`], with the calls of the reader and of the writer counted in `calls`, which has none yet. `Input`
/// is answered only if a read failed or 2^30 of them found no end, `Output` only if a write or a flush failed.
pub fn apply_sql_counted<R: Read, W: Write>(
    alloc: Global,
    calls: &mut CallCounts,
    reader: &mut R,
    writer: &mut W,
) -> Result<u8, CliFault>
    requires fresh { calls.old ≡ no_calls }
    ensures prints { Prints script_of lines_of (R.remaining reader.old) (R.remaining reader.new)
        W.contents writer.old writer.new result }
    ensures cause { HasCause calls.new result }
{
    apply_sql_noted(alloc, calls, &mut Nobody, reader, writer)
}

/// As [`apply_sql_counted`]. Of each operation `notes` hears that it was done, or why it was refused.
pub fn apply_sql_noted<N: Notes, R: Read, W: Write>(
    alloc: Global,
    calls: &mut CallCounts,
    notes: &mut N,
    reader: &mut R,
    writer: &mut W,
) -> Result<u8, CliFault>
    requires fresh { calls.old ≡ no_calls }
    ensures prints { Prints script_of lines_of (R.remaining reader.old) (R.remaining reader.new)
        W.contents writer.old writer.new result }
    ensures cause { HasCause calls.new result }
{
    let Ok(files) = blank_files(alloc) else {
        return Err(CliFault::Memory);
    };
    match SqlFileStore::create(alloc, files) {
        Ok(mut store) => apply_noted_on(alloc, &mut store, calls, notes, reader, writer),
        Err(_) => Err(CliFault::Memory),
    }
}
