//! The database of a storage server in its folder, by the name of the node, with its log: made, opened, or taken over
//! from version 0.2. Its header says whose it is.
ghost use Rattle.std.specs.Prelude.{IsTrue};

use crate::fault::NodeEnd;
use crate::files::{of_store, unopened};
use crate::pairs::is_there;
use crate::words::{Opening, StoreFolder};
use fr_base::Tag;
use fr_cli_json::CliFault;
use fr_host::Mirror;
use fr_mutation::Shard;
use fr_node::Crash;
use fr_segment::{crc32c, identity};
use fr_sql_files::SqlFileStore;
use fr_sql_rows::FaithfulDisk;
use fr_undo::ShardStore;
use sqlite_disk::{Disk, Files};
use sqlite_std_file::{FileFrom, OpenError, Unknown};
use std::alloc::Global;
use std::io;

/// A file of the host that is read once, when it is opened.
pub(crate) type HostFile = Mirror<FileFrom<Unknown>>;

/// What each database begins with.
const HEAD: &[u8] = b"SQLite format 3\0";

/// How many bytes the header of a database has.
const HEADER: usize = 100;

/// The header's `application_id`, `fdbr`, in its bytes 68 to 71. Its bytes 60 to 63, the `user_version`, are a checksum
/// of whose the database is. SQLite gives neither a meaning of its own.
const APPLICATION: [u8; 4] = [0x66, 0x64, 0x62, 0x72];

/// How many bytes a page of a new database has. A pull changes few rows, and writes each page that it touches: with the
/// library's own 4,096 that would be four times as much.
const PAGE: usize = 1024;

/// The format of a storage server's database.
const FORMAT: u8 = 1;

/// The longest name of a node that an identity has here.
const LONGEST: usize = 255;

/// The database of a storage server and its log, which is empty if it was to be made.
pub(crate) fn store_files(
    host: &HostRuntime,
    alloc: Global,
    folder: &StoreFolder,
    tag: Tag,
    shard: &Shard,
) -> Result<Files<HostFile>, NodeEnd> {
    let name = folder.name.as_str();
    let number = tag.get();
    let path = format!(in alloc; "{name}/storage-{number}")?;
    // Opening makes what is missing.
    if folder.how != Opening::Make && !is_there(host, &path)? {
        return Err(NodeEnd::Unmade);
    }
    let whose = whose(alloc, &folder.cluster, tag, shard)?;
    let mut files = files_at(host, alloc, path.as_str())?;
    let Ok(held) = held_in(&mut files, whose) else {
        return Err(NodeEnd::Crashed(Crash::Store));
    };
    match (held, folder.how) {
        (Held::Own, Opening::Open) => Ok(files),
        (Held::Nothing, Opening::Make) => stamped(files, 0, &first_page(whose)),
        (Held::Old, Opening::Adopt) => adopted(alloc, files, whose),
        (Held::Nothing, _) | (Held::Old, Opening::Open) => Err(NodeEnd::Unmade),
        (Held::Own, _) | (Held::Old, _) => Err(NodeEnd::There),
        (Held::Stranger, _) => Err(NodeEnd::Stranger),
        (Held::Another, _) => Err(NodeEnd::Crashed(Crash::Broken)),
    }
}

/// Whose the database of a storage server is: a checksum of its cluster, its tag and its shard.
fn whose(alloc: Global, cluster: &[u8; 16], tag: Tag, shard: &Shard) -> Result<u32, NodeEnd> {
    let number = tag.get();
    let name = format!(in alloc; "storage {number}")?;
    let name = name.as_bytes();
    // No name is: it is a word and a number.
    if name.len() > LONGEST {
        return Err(NodeEnd::Command(CliFault::Memory));
    }
    let mut shape = Vec::new(alloc);
    shape.push(FORMAT)?;
    // A length before the first key: otherwise it and the key at which the shard ends could run together.
    shape.extend_from_slice(&(shard.begin.len() as u64).to_be_bytes())?;
    shape.extend_from_slice(shard.begin.as_slice())?;
    if let Some(end) = &shard.end {
        shape.push(1)?;
        shape.extend_from_slice(end.as_slice())?;
    }
    Ok(crc32c(identity(alloc, cluster, name, shape.as_slice())?.as_slice()))
}

/// The database at a path and its log.
fn files_at(host: &HostRuntime, alloc: Global, path: &str) -> Result<Files<HostFile>, NodeEnd> {
    let Files { log, db } = match sqlite_std_file::open(host, path, Unknown) {
        Ok(files) => files,
        Err(OpenError::Busy) => return Err(NodeEnd::Busy),
        Err(OpenError::HotJournal) => return Err(NodeEnd::NoFile),
        Err(OpenError::OutOfMemory) => return Err(NodeEnd::Command(CliFault::Memory)),
        Err(OpenError::Io(error)) => return Err(not_made(error)),
    };
    Ok(Files {
        log: mirror(alloc, log)?,
        db: mirror(alloc, db)?,
    })
}

/// What the files of a storage server hold.
#[derive(Clone, Copy, Debug, PartialEq, Eq)]
enum Held {
    /// No store: they are empty, or were made, and their process was killed before there was one.
    Nothing,
    /// A database of this storage server.
    Own,
    /// A database that says of nobody whose it is, as version 0.2 made them.
    Old,
    /// A database of another storage server, another shard or another cluster.
    Stranger,
    Another,
}

/// What files hold, by their first bytes, so that nothing is written to those of somebody else.
fn held_in(files: &mut Files<HostFile>, whose: u32) -> io::Result<Held> {
    if !files.may_be_used() {
        return Err(io::Error::other("an earlier sync failed"));
    }
    let log = files.log.len()?;
    let len = files.db.len()?;
    if len == 0 {
        // A database that was never copied out of its log has its first page there. One with a header of ours never is.
        return Ok(if log == 0 { Held::Nothing } else { Held::Old });
    }
    if len < HEADER {
        return Ok(Held::Another);
    }
    let mut header = [0; HEADER];
    files.db.read_at(0, &mut header)?;
    let (head, owner, application) = (&header[..16], &header[60..64], &header[68..72]);
    if head != HEAD {
        return Ok(Held::Another);
    }
    if application == APPLICATION.as_slice() {
        if owner != whose.to_be_bytes().as_slice() {
            return Ok(Held::Stranger);
        }
        let is_bare = len == PAGE && log == 0;
        return Ok(if is_bare { Held::Nothing } else { Held::Own });
    }
    let is_old = application == [0; 4].as_slice();
    Ok(if is_old { Held::Old } else { Held::Another })
}

/// The first page of a database without a table. Its header's fields are those of SQLite's file format, section 1.3.
fn first_page(whose: u32) -> [u8; PAGE] {
    let mut page = [0; PAGE];
    page[..16].copy_from_slice(HEAD);
    // Pages of 1,024 bytes. It is written and read by a log.
    page[16] = 4;
    page[18] = 2;
    page[19] = 2;
    // Three fractions, which have no other values.
    page[21] = 64;
    page[22] = 32;
    page[23] = 32;
    // One page, a first schema of format 4, and UTF-8.
    page[31] = 1;
    page[43] = 1;
    page[47] = 4;
    page[59] = 1;
    page[60..64].copy_from_slice(&whose.to_be_bytes());
    page[68..72].copy_from_slice(&APPLICATION);
    // Release 3.45.0 of SQLite, as the library says.
    page[97] = 46;
    page[98] = 118;
    page[99] = 136;
    // The list of tables: a leaf without a cell, whose cells are to begin at the end of the page.
    page[100] = 13;
    page[105] = 4;
    page
}

/// The database of version 0.2 that files hold, with a header that says whose it is. A kill leaves it as it was, or so.
fn adopted<D: FaithfulDisk + Drop>(
    alloc: Global,
    files: Files<D>,
    whose: u32,
) -> Result<Files<D>, NodeEnd> {
    let mut store = match SqlFileStore::open_or_create(alloc, files) {
        Ok(store) => store,
        Err(fault) => return Err(unopened(fault)),
    };
    // A storage server has a state from its first moment on. Files without one are of none, whatever they once had.
    match store.state_bytes(alloc) {
        Ok(bytes) if bytes.as_slice().is_empty() => return Err(NodeEnd::Unmade),
        Ok(_) => {}
        Err(fault) => return Err(of_store(fault)),
    }
    // A close copies the log into the database and empties it: only then does the first page of the file count.
    let files = match store.close() {
        Ok(files) => files,
        Err(fault) => return Err(of_store(fault)),
    };
    // Between the two fields stands whether pages move by themselves: 0, as the store was opened.
    let mut fields = [0; 12];
    fields[..4].copy_from_slice(&whose.to_be_bytes());
    fields[8..].copy_from_slice(&APPLICATION);
    stamped(files, 60, &fields)
}

/// Files in whose database these bytes stand, for good.
fn stamped<D: Disk + Drop>(files: Files<D>, at: usize, bytes: &[u8]) -> Result<Files<D>, NodeEnd> {
    let mut files = files;
    match put(&mut files.db, at, bytes) {
        Ok(()) => Ok(files),
        Err(_) => Err(NodeEnd::Crashed(Crash::Store)),
    }
}

/// Writes bytes into a file, and syncs it.
fn put<D: Disk>(file: &mut D, at: usize, bytes: &[u8]) -> io::Result<()> {
    if !file.may_be_used() {
        return Err(io::Error::other("an earlier sync failed"));
    }
    file.write_at(at, bytes)?;
    file.sync()
}

/// A file that is read.
fn mirror<D: Disk + Drop>(alloc: Global, below: D) -> Result<Mirror<D>, NodeEnd>
    requires usable { IsTrue (D.Disk.is_usable below) }
{
    match Mirror::over(alloc, below) {
        Ok(file) => Ok(file),
        Err(error) if error.kind() == io::ErrorKind::OutOfMemory => {
            Err(NodeEnd::Command(CliFault::Memory))
        }
        Err(_) => Err(NodeEnd::Crashed(Crash::Store)),
    }
}

/// Why the files of a database were not opened.
fn not_made(error: io::Error) -> NodeEnd {
    match error.kind() {
        io::ErrorKind::OutOfMemory => NodeEnd::Command(CliFault::Memory),
        io::ErrorKind::StorageFull | io::ErrorKind::QuotaExceeded => {
            NodeEnd::Crashed(Crash::Store)
        }
        _ => NodeEnd::NoFile,
    }
}
