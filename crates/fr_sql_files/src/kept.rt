//! Files of a store whose connection is shut.
ghost use Rattle.sqlite_wal.specs.PageSize.{bytes_of};
ghost use Rattle.fr_sql_files.specs.Shut.{AreReadable};

use sqlite::Files;
use sqlite_disk::Disk;
use sqlite_pager::PageSize;

/// Files of a store, of which nothing is open.
#[derive(Drop)]
pub struct Kept<D: Disk> {
    pub(crate) files: Files<D>,
    pub(crate) size: PageSize,
    ghost readable: { AreReadable D.Disk (bytes_of size) files },
}

impl<D: Disk> Kept<D> {
    /// Gives the files back.
    pub(crate) fn into_files(self) -> Files<D> {
        let Kept { files, size: _ } = self;
        files
    }
}
