//! The command `apply` on each kind of store.
use fr_cli_apply::{ApplyOptions, Notes, StoreWord, apply_noted};
use fr_cli_apply_sql::apply_sql_noted;
use fr_cli_json::{CallCounts, CliFault};
use std::alloc::Global;
use std::io::{Read, Write};

/// Runs the operations of a script on an empty store of a kind, of each of which `notes` hears.
pub(crate) fn apply_to<N: Notes, R: Read, W: Write>(
    kind: StoreWord,
    alloc: Global,
    notes: &mut N,
    reader: &mut R,
    writer: &mut W,
) -> Result<u8, CliFault> {
    let mut calls = CallCounts::new();
    match kind {
        StoreWord::Map => {
            let options = ApplyOptions {
                store: fr_cli_apply::StoreKind::Map,
            };
            apply_noted(alloc, options, &mut calls, notes, reader, writer)
        }
        StoreWord::Sql => apply_sql_noted(alloc, &mut calls, notes, reader, writer),
    }
}
