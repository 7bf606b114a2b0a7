//! The row of what the store has of itself.
ghost use Rattle.std.specs.Prelude.{◌≡◌, ◌<◌, ◌^◌, pos, OnOk, IfOk, IsTrue};
ghost use Rattle.sqlite.specs.Held.{state};
ghost use Rattle.fr_sql_rows.specs.Rows.{bytes_in};
ghost use Rattle.fr_sql_rows.specs.Connection.{IsAtRest, IsLaidOut, IsInside, KeepsIfOpen, CommitsNothing, Stays, Versions, HoldsBytes};

use crate::backing::Backing;
use crate::refused::{Refused, ask, read, run};
use fr_base::{Bytes, Version};
use sqlite::{Connection, Transaction, params};

/// A version as SQL has it.
pub fn number_of(version: Version) -> i64
    ensures value { result ≡ pos version }
    ensures below { version < 2 ^ 62 }
{
    let number = version.get();
    number as i64
}

/// Notes the version applied last and the floor.
pub fn note_versions<S: Backing>(
    tx: &mut Transaction<'_, S>,
    applied: Version,
    floor: Version,
) -> Result<usize, Refused>
    requires inside { IsInside (state S.Store tx.old.conn.now) }
    requires laid { IsLaidOut (state S.Store tx.old.conn.now).now }
    ensures same_reference { tx.new.conn.ghost_name ≡ tx.old.conn.ghost_name }
    ensures ok { OnOk result (Versions applied floor (state S.Store tx.old.conn.now).now (state S.Store tx.new.conn.now).now) }
    ensures inside { OnOk result (IsInside (state S.Store tx.new.conn.now)) }
    ensures stays { Stays (state S.Store tx.old.conn.now) (state S.Store tx.new.conn.now) }
    ensures survives { CommitsNothing (state S.Store tx.old.conn.now) (state S.Store tx.new.conn.now) }
{
    run(
        tx,
        "UPDATE meta SET applied = ?1, floor = ?2",
        params![number_of(applied), number_of(floor)],
    )
}

/// Notes the state bytes.
pub fn note_bytes<S: Backing>(tx: &mut Transaction<'_, S>, bytes: &Bytes) -> Result<usize, Refused>
    requires inside { IsInside (state S.Store tx.old.conn.now) }
    requires laid { IsLaidOut (state S.Store tx.old.conn.now).now }
    ensures same_reference { tx.new.conn.ghost_name ≡ tx.old.conn.ghost_name }
    ensures ok { OnOk result (HoldsBytes bytes.now (state S.Store tx.old.conn.now).now (state S.Store tx.new.conn.now).now) }
    ensures inside { OnOk result (IsInside (state S.Store tx.new.conn.now)) }
    ensures stays { Stays (state S.Store tx.old.conn.now) (state S.Store tx.new.conn.now) }
    ensures survives { CommitsNothing (state S.Store tx.old.conn.now) (state S.Store tx.new.conn.now) }
{
    run(tx, "UPDATE meta SET state = ?1", params![bytes.as_slice()])
}

/// The state bytes.
pub fn bytes<S: Backing>(conn: &mut Connection<S>) -> Result<Bytes, Refused>
    requires rest { IsAtRest (state S.Store conn.old) }
    requires laid { IsLaidOut (state S.Store conn.old).now }
    ensures value { IfOk result (λ bytes. bytes ≡ bytes_in ((state S.Store conn.old).now.trees 4)) }
    ensures open { OnOk result (IsTrue (state S.Store conn.new).is_open) }
    ensures keeps { KeepsIfOpen (state S.Store conn.old) (state S.Store conn.new) }
    ensures survives { CommitsNothing (state S.Store conn.old) (state S.Store conn.new) }
{
    let rows = ask(conn, "SELECT state FROM meta", &[])?;
    match rows.as_slice().first() {
        None => unreachable!(),
        Some(row) => {
            let bytes: Vec<u8> = read(row, 0)?;
            Ok(Bytes::from_vec(bytes))
        }
    }
}
