//! What an error of SQL is to a store.
ghost use Rattle.std.specs.Prelude.{◌≡◌};
ghost use Rattle.fr_sql_rows.specs.Fault.{fault_in};

use fr_undo::StoreFault;
use sqlite::{Error, ErrorCode};

/// The fault of a call that reads or writes: `Memory` if memory was refused, `Full` if something has no room or is
/// too big, and else `Device`.
pub fn fault_of(error: Error) -> StoreFault
    ensures { result ≡ fault_in error }
{
    match error {
        Error::SqliteFailure(ErrorCode::OutOfMemory) => StoreFault::Memory,
        Error::SqliteFailure(ErrorCode::DiskFull | ErrorCode::TooBig) => StoreFault::Full,
        _ => StoreFault::Device,
    }
}
