//! The files of a database that ends with the program: they are in memory, and a sync has nothing to do.
ghost use Rattle.std.specs.Prelude.{◌≡◌, true, false, refl, is_ok, OnOk, length};
ghost use Rattle.sqlite_disk.specs.Disk.{Holds, Torn, Cut, CountsFault};
ghost use Rattle.sqlite_disk.specs.Refusal.{finds_no_room};

use fr_sql_rows::FaithfulDisk;
use sqlite_disk::{Disk, Files, Tally};
use std::alloc::{AllocError, Global};
use std::io;

/// A file in memory. It is lost with the program, so a crash that leaves anything of it leaves all that was written.
///
/// `apply --store sql` keeps its files so, because the library's trees in memory walk a table for each row that is
/// deleted. A sync does nothing.
#[derive(Drop)]
pub(crate) struct MemoryFile {
    bytes: Vec<u8>,
    faults: u64,
}

impl Disk for MemoryFile {
    ghost use Rattle.std.specs.Prelude.{◌≡◌, true, false, refl};

    ghost seen = { λ f. f.bytes.items };

    ghost may_leave = { λ f c. c ≡ f.bytes.items };

    ghost is_usable = { λ _. true };

    ghost faults = { λ f. f.faults };

    ghost tally_of = { λ _. record { caught = 0; refused = 0 } };

    ghost is_clean = { λ _. true };

    ghost key_of = { λ _. 0 };

    ghost is_fair = { λ _ _. true };

    ghost seen_may_stay = { λ _. refl };

    ghost fair_if_clean = { λ _ _ _. refl };

    fn mixes(&self) -> bool {
        false
    }

    fn key(&self) -> u64 {
        0
    }

    fn tally(&self) -> Tally {
        Tally {
            caught: 0,
            refused: 0,
        }
    }

    fn may_be_used(&self) -> bool {
        true
    }

    fn len(&mut self) -> io::Result<usize> {
        Ok(self.bytes.len())
    }

    fn read_at(&mut self, at: usize, buf: &mut [u8]) -> io::Result<()> {
        if at > self.bytes.len() || buf.len() > self.bytes.len() - at {
            return Err(io::ErrorKind::UnexpectedEof.into());
        }
        buf.copy_from_slice(&self.bytes[at..at + buf.len()]);
        Ok(())
    }

    // What is read is what was written, so it has the digest that is wanted.
    fn read_checked(&mut self, key: u64, want: u64, at: usize, buf: &mut [u8]) -> io::Result<()> {
        self.read_at(at, buf)
    }

    fn write_at(&mut self, at: usize, bytes: &[u8]) -> io::Result<()> {
        let outcome = overwrite(&mut self.bytes, at, bytes);
        count(outcome, &mut self.faults)
    }

    fn set_len(&mut self, len: usize) -> io::Result<()> {
        let outcome = resize(&mut self.bytes, len);
        count(outcome, &mut self.faults)
    }

    fn sync(&mut self) -> io::Result<()> {
        Ok(())
    }
}

impl FaithfulDisk for MemoryFile {
    ghost use Rattle.std.specs.Prelude.{refl};

    ghost faithful = { λ _. refl };
}

/// The answer of a call that changes a file, with its failure counted.
fn count(outcome: Result<(), AllocError>, faults: &mut u64) -> io::Result<()>
    ensures variant { is_ok result ≡ is_ok outcome }
    ensures kind { finds_no_room result ≡ false }
    ensures faults { CountsFault result faults.old faults.new }
{
    if outcome.is_err() {
        *faults = faults.saturating_add(1);
        return Err(io::ErrorKind::OutOfMemory.into());
    }
    Ok(())
}

fn resize(file: &mut Vec<u8>, len: usize) -> Result<(), AllocError>
    ensures len { OnOk result (length file.new.items ≡ len) }
    ensures others { Cut len file.old.items file.new.items }
{
    file.resize(len, 0)
}

fn overwrite(file: &mut Vec<u8>, at: usize, bytes: &[u8]) -> Result<(), AllocError>
    ensures written { OnOk result (Holds file.new.items at bytes.now) }
    ensures others { Torn at (length bytes.now) file.old.items file.new.items }
{
    let end = at.checked_add(bytes.len()).ok_or(AllocError)?;
    if end > file.len() {
        resize(file, end)?;
    }
    file[at..end].copy_from_slice(bytes);
    Ok(())
}

/// How many bytes a page of the database has. A transaction writes each page that it changes to the log, whole, so
/// small pages take less time.
const PAGE_SIZE: usize = 1024;

/// The header of a database of one page, of 1,024 bytes, with a log, as SQLite writes it, and then that of the page: a
/// leaf of a table with no cell.
const BLANK: [u8; 108] = [
    83, 81, 76, 105, 116, 101, 32, 102, 111, 114, 109, 97, 116, 32, 51, 0, 4, 0, 2, 2, 0, 64, 32,
    32, 0, 0, 0, 0, 0, 0, 0, 1, 0, 0, 0, 0, 0, 0, 0, 0, 0, 0, 0, 0, 0, 0, 0, 4, 0, 0, 0, 0, 0, 0,
    0, 0, 0, 0, 0, 1, 0, 0, 0, 0, 0, 0, 0, 0, 0, 0, 0, 0, 0, 0, 0, 0, 0, 0, 0, 0, 0, 0, 0, 0, 0, 0,
    0, 0, 0, 0, 0, 0, 0, 0, 0, 0, 0, 46, 118, 136, 13, 0, 0, 0, 0, 4, 0, 0,
];

/// The two files of a database of these bytes.
pub(crate) fn files_of(log: Vec<u8>, db: Vec<u8>) -> Files<MemoryFile> {
    Files {
        log: MemoryFile {
            bytes: log,
            faults: 0,
        },
        db: MemoryFile {
            bytes: db,
            faults: 0,
        },
    }
}

/// The two files of a database with no table and small pages.
pub(crate) fn blank_files(alloc: Global) -> Result<Files<MemoryFile>, AllocError> {
    let mut page = vec![in alloc; 0; PAGE_SIZE]?;
    page[..BLANK.len()].copy_from_slice(&BLANK);
    Ok(files_of(Vec::new(alloc), page))
}
