//! The rows of the keys and their values.
ghost use Rattle.std.specs.Prelude.{map as list_map, ◌≡◌, None, Some, OnOk, IfOk, IsSome, IsTrue, is_some};
ghost use Rattle.std.specs.FinMap as map;
ghost use Rattle.std.specs.Ordering.{is_le};
ghost use Rattle.sqlite.specs.Held.{state};
ghost use Rattle.fr_base.specs.Bytes.{bytes_cmp};
ghost use Rattle.fr_mutation.specs.Mutation.{is_between};
ghost use Rattle.fr_sql_rows.specs.Rows.{value_in, contents_in, pair_of};
ghost use Rattle.fr_sql_rows.specs.Connection.{IsAtRest, IsLaidOut, IsInside, KeepsIfOpen, CommitsNothing, Stays, Sets};

use crate::backing::Backing;
use crate::refused::{Refused, ask, read, run};
use fr_base::Bytes;
use sqlite::{Connection, Row, Transaction, params};
use std::alloc::Global;

/// The value of a key.
pub fn value_at<S: Backing>(conn: &mut Connection<S>, key: &Bytes) -> Result<Option<Bytes>, Refused>
    requires rest { IsAtRest (state S.Store conn.old) }
    requires laid { IsLaidOut (state S.Store conn.old).now }
    ensures value { IfOk result (λ value. value ≡ value_in ((state S.Store conn.old).now.trees 0) key.now) }
    ensures open { OnOk result (IsTrue (state S.Store conn.new).is_open) }
    ensures keeps { KeepsIfOpen (state S.Store conn.old) (state S.Store conn.new) }
    ensures survives { CommitsNothing (state S.Store conn.old) (state S.Store conn.new) }
{
    let rows = ask(
        conn,
        "SELECT v FROM kv WHERE k = ?1",
        params![key.as_slice()],
    )?;
    match rows.as_slice().first() {
        None => Ok(None),
        Some(row) => {
            let value: Vec<u8> = read(row, 0)?;
            Ok(Some(Bytes::from_vec(value)))
        }
    }
}

/// The keys and the values that rows show, in their order.
fn pairs(alloc: Global, rows: &[Row]) -> Result<Vec<(Bytes, Bytes)>, Refused>
    ensures { IfOk result (λ pairs. pairs.items ≡ list_map pair_of rows.now) }
{
    let mut pairs = Vec::new(alloc);
    for row in rows {
        let key: Vec<u8> = read(row, 0)?;
        let value: Vec<u8> = read(row, 1)?;
        pairs.push((Bytes::from_vec(key), Bytes::from_vec(value)))?;
    }
    Ok(pairs)
}

/// The keys from `begin` up to, but not including, `end`, with their values, in the order of the keys.
pub fn between<'x, S: Backing>(
    alloc: Global,
    conn: &mut Connection<S>,
    begin: &'x Bytes,
    end: &'x Bytes,
) -> Result<Vec<(Bytes, Bytes)>, Refused>
    requires rest { IsAtRest (state S.Store conn.old) }
    requires laid { IsLaidOut (state S.Store conn.old).now }
    ensures rows { IfOk result (λ rows. rows.items
        ≡ map.entries (map.retain_keys (contents_in ((state S.Store conn.old).now.trees 0))
        (is_between begin.now end.now))) }
    ensures open { OnOk result (IsTrue (state S.Store conn.new).is_open) }
    ensures keeps { KeepsIfOpen (state S.Store conn.old) (state S.Store conn.new) }
    ensures survives { CommitsNothing (state S.Store conn.old) (state S.Store conn.new) }
{
    let rows = ask(
        conn,
        "SELECT k, v FROM kv WHERE k >= ?1 AND k < ?2 ORDER BY k",
        params![begin.as_slice(), end.as_slice()],
    )?;
    pairs(alloc, rows.as_slice())
}

/// The keys from `begin` on, with their values, in the order of the keys.
pub fn from<S: Backing>(
    alloc: Global,
    conn: &mut Connection<S>,
    begin: &Bytes,
) -> Result<Vec<(Bytes, Bytes)>, Refused>
    requires rest { IsAtRest (state S.Store conn.old) }
    requires laid { IsLaidOut (state S.Store conn.old).now }
    ensures rows { IfOk result (λ rows. rows.items
        ≡ map.entries (map.retain_keys (contents_in ((state S.Store conn.old).now.trees 0))
        (λ q. is_le (bytes_cmp begin.now q)))) }
    ensures open { OnOk result (IsTrue (state S.Store conn.new).is_open) }
    ensures keeps { KeepsIfOpen (state S.Store conn.old) (state S.Store conn.new) }
    ensures survives { CommitsNothing (state S.Store conn.old) (state S.Store conn.new) }
{
    let rows = ask(
        conn,
        "SELECT k, v FROM kv WHERE k >= ?1 ORDER BY k",
        params![begin.as_slice()],
    )?;
    pairs(alloc, rows.as_slice())
}

/// All keys with their values, in the order of the keys.
pub fn all<S: Backing>(
    alloc: Global,
    conn: &mut Connection<S>,
) -> Result<Vec<(Bytes, Bytes)>, Refused>
    requires rest { IsAtRest (state S.Store conn.old) }
    requires laid { IsLaidOut (state S.Store conn.old).now }
    ensures rows { IfOk result (λ rows. rows.items ≡ map.entries (contents_in ((state S.Store conn.old).now.trees 0))) }
    ensures open { OnOk result (IsTrue (state S.Store conn.new).is_open) }
    ensures keeps { KeepsIfOpen (state S.Store conn.old) (state S.Store conn.new) }
    ensures survives { CommitsNothing (state S.Store conn.old) (state S.Store conn.new) }
{
    let rows = ask(conn, "SELECT k, v FROM kv ORDER BY k", &[])?;
    pairs(alloc, rows.as_slice())
}

/// Gives a key that has no value one.
pub fn put<'x, S: Backing>(
    tx: &mut Transaction<'_, S>,
    key: &'x Bytes,
    value: &'x Bytes,
) -> Result<usize, Refused>
    requires inside { IsInside (state S.Store tx.old.conn.now) }
    requires laid { IsLaidOut (state S.Store tx.old.conn.now).now }
    requires absent { value_in ((state S.Store tx.old.conn.now).now.trees 0) key.now ≡ None }
    ensures same_reference { tx.new.conn.ghost_name ≡ tx.old.conn.ghost_name }
    ensures ok { OnOk result (Sets key.now (Some value.now) (state S.Store tx.old.conn.now).now (state S.Store tx.new.conn.now).now) }
    ensures inside { OnOk result (IsInside (state S.Store tx.new.conn.now)) }
    ensures stays { Stays (state S.Store tx.old.conn.now) (state S.Store tx.new.conn.now) }
    ensures survives { CommitsNothing (state S.Store tx.old.conn.now) (state S.Store tx.new.conn.now) }
{
    run(
        tx,
        "INSERT INTO kv VALUES (?1, ?2)",
        params![key.as_slice(), value.as_slice()],
    )
}

/// Gives a key that has a value another. It is an UPDATE: a DELETE of one row costs in proportion to the table.
pub fn change<'x, S: Backing>(
    tx: &mut Transaction<'_, S>,
    key: &'x Bytes,
    value: &'x Bytes,
) -> Result<usize, Refused>
    requires inside { IsInside (state S.Store tx.old.conn.now) }
    requires laid { IsLaidOut (state S.Store tx.old.conn.now).now }
    requires held { IsSome (value_in ((state S.Store tx.old.conn.now).now.trees 0) key.now) }
    ensures same_reference { tx.new.conn.ghost_name ≡ tx.old.conn.ghost_name }
    ensures ok { OnOk result (Sets key.now (Some value.now) (state S.Store tx.old.conn.now).now (state S.Store tx.new.conn.now).now) }
    ensures inside { OnOk result (IsInside (state S.Store tx.new.conn.now)) }
    ensures stays { Stays (state S.Store tx.old.conn.now) (state S.Store tx.new.conn.now) }
    ensures survives { CommitsNothing (state S.Store tx.old.conn.now) (state S.Store tx.new.conn.now) }
{
    run(
        tx,
        "UPDATE kv SET v = ?2 WHERE k = ?1",
        params![key.as_slice(), value.as_slice()],
    )
}

/// Gives a key a value; `held` says whether it has one.
pub fn set<'x, S: Backing>(
    tx: &mut Transaction<'_, S>,
    key: &'x Bytes,
    value: &'x Bytes,
    held: bool,
) -> Result<usize, Refused>
    requires inside { IsInside (state S.Store tx.old.conn.now) }
    requires laid { IsLaidOut (state S.Store tx.old.conn.now).now }
    requires held { held ≡ is_some (value_in ((state S.Store tx.old.conn.now).now.trees 0) key.now) }
    ensures same_reference { tx.new.conn.ghost_name ≡ tx.old.conn.ghost_name }
    ensures ok { OnOk result (Sets key.now (Some value.now) (state S.Store tx.old.conn.now).now (state S.Store tx.new.conn.now).now) }
    ensures inside { OnOk result (IsInside (state S.Store tx.new.conn.now)) }
    ensures stays { Stays (state S.Store tx.old.conn.now) (state S.Store tx.new.conn.now) }
    ensures survives { CommitsNothing (state S.Store tx.old.conn.now) (state S.Store tx.new.conn.now) }
{
    if held {
        change(tx, key, value)
    } else {
        put(tx, key, value)
    }
}

/// Takes the value of a key, if it has one.
pub fn remove<S: Backing>(tx: &mut Transaction<'_, S>, key: &Bytes) -> Result<usize, Refused>
    requires inside { IsInside (state S.Store tx.old.conn.now) }
    requires laid { IsLaidOut (state S.Store tx.old.conn.now).now }
    ensures same_reference { tx.new.conn.ghost_name ≡ tx.old.conn.ghost_name }
    ensures ok { OnOk result (Sets key.now None (state S.Store tx.old.conn.now).now (state S.Store tx.new.conn.now).now) }
    ensures inside { OnOk result (IsInside (state S.Store tx.new.conn.now)) }
    ensures stays { Stays (state S.Store tx.old.conn.now) (state S.Store tx.new.conn.now) }
    ensures survives { CommitsNothing (state S.Store tx.old.conn.now) (state S.Store tx.new.conn.now) }
{
    run(tx, "DELETE FROM kv WHERE k = ?1", params![key.as_slice()])
}
