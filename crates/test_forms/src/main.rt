//! Prints the table of forms as JSON, of which docs/tables makes schemas and rows of pages. A form is an array of its kind
//! and what belongs to it.
#![tactic(auto)]

mod printing;

use printing::table_text;

fn main(rt: HostRuntime) -> anyhow::Result<()> {
    let text = table_text(rt.alloc())?;
    print!(rt; "{text}")?;
    Ok(())
}
