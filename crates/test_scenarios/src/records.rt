//! Record files.
ghost use Rattle.std.specs.Prelude.{◌<◌, ◌^◌, All, IfOk, length};

use crate::place::{Disk, Kept};
use crate::telling::{RowTold, done, no_such_word, told};
use fr_base::{Bytes, NodeFault};
use fr_record::{RecordFault, Records};
use serde_json::Value;
use std::alloc::Global;
use test_asks::{NO_FORM, RowAsk, Wrong};

/// A record file.
#[derive(Drop)]
pub(crate) struct RecordFile;

impl Kept for RecordFile {
    type File = Records<Disk>;

    fn read(_row: &mut RowAsk) -> Result<Self, Wrong> {
        Ok(RecordFile)
    }

    fn format(&self, alloc: Global, disk: Disk) -> Result<Records<Disk>, NodeFault> {
        Records::format(alloc, disk).map_err(|fault| node_fault(fault))
    }

    fn open(&self, alloc: Global, disk: Disk) -> Result<Records<Disk>, NodeFault> {
        Records::open(alloc, disk).map_err(|fault| node_fault(fault))
    }

    fn into_disk(file: Records<Disk>) -> Disk {
        file.into_device()
    }

    fn play(&self, file: &mut Records<Disk>, row: &mut RowAsk) -> RowTold {
        let alloc = row.alloc;
        match row.word {
            "append" => append(file, row),
            "group" => done(
                alloc,
                file.append_group(alloc, &read_group(alloc, row.read("records")?)?),
            ),
            "put" => put(file, row),
            "get" => get(file, row),
            "count" => Ok(Value::from(file.len())),
            "failed" => Ok(Value::from(file.is_failed())),
            "reopen" => done(alloc, file.reopen(alloc)),
            _ => no_such_word(
                "rows of a record file: append, group, put, get, count, failed, reopen, close, read, \
                 calls, syncs",
            ),
        }
    }
}

/// The longest record of a scenario.
const LONGEST: usize = 65_535;

fn append(file: &mut Records<Disk>, row: &mut RowAsk) -> RowTold {
    let record: Bytes = row.read("bytes")?;
    append_short(row.alloc, file, record.as_slice())
}

fn append_short(alloc: Global, file: &mut Records<Disk>, record: &[u8]) -> RowTold {
    if record.len() <= LONGEST {
        done(alloc, file.append(alloc, record))
    } else {
        Err(NO_FORM)
    }
}

/// Null if there are no more records.
fn get(file: &mut Records<Disk>, row: &mut RowAsk) -> RowTold {
    let number: u8 = row.read("number")?;
    told(row.alloc, file.get(row.alloc, usize::from(number)))
}

/// Adds records, alone or as a group, behind so many others, if they are not there yet. They are there whole or not at
/// all.
fn put(file: &mut Records<Disk>, row: &mut RowAsk) -> RowTold {
    let at: u8 = row.get("at")?;
    let at = usize::from(at);
    let group = read_group(row.alloc, row.get("records")?)?;
    if file.len() == at {
        add(row.alloc, file, &group)
    } else if file.len() >= at.saturating_add(group.len()) {
        Ok(Value::Null)
    } else {
        Err(Wrong::Form("these records are there in part"))
    }
}

fn add(alloc: Global, file: &mut Records<Disk>, group: &Vec<Vec<u8>>) -> RowTold
    requires { All (λ v. length v.items < 2 ^ 32) group.now.items }
{
    match group.as_slice() {
        [record] => append_short(alloc, file, record.as_slice()),
        _ => done(alloc, file.append_group(alloc, group)),
    }
}

/// Records, none of which is too long.
fn read_group(alloc: Global, records: Vec<Bytes>) -> Result<Vec<Vec<u8>>, Wrong>
    ensures { IfOk result (λ group. All (λ v. length v.items < 2 ^ 32) group.items) }
{
    let mut group = Vec::new(alloc);
    for item in records {
        let record = item.as_slice();
        if record.len() > LONGEST {
            return Err(NO_FORM);
        }
        group.push(Vec::from_slice(alloc, record)?)?;
    }
    Ok(group)
}

/// The fault of a node that has the same name.
fn node_fault(fault: RecordFault) -> NodeFault {
    match fault {
        RecordFault::Device => NodeFault::Device,
        RecordFault::Full => NodeFault::Full,
        RecordFault::Failed => NodeFault::Failed,
        RecordFault::Memory => NodeFault::Memory,
        RecordFault::Broken => NodeFault::Broken,
    }
}
