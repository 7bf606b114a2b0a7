//! A connection that is opened again over its own store, so that what its store keeps is known of its tables.
ghost use Rattle.std.specs.Prelude.{◌≡◌, IfOk, IfErr, IfSome, IsTrue};
ghost use Rattle.sqlite.specs.Tree.{Trees};
ghost use Rattle.sqlite.specs.Held.{state};
ghost use Rattle.sqlite.specs.Steps.{IsFresh};
ghost use Rattle.fr_undo.specs.Calls.{IsTrouble};
ghost use Rattle.fr_sql_rows.specs.Schema.{no_schema};
ghost use Rattle.fr_sql_rows.specs.Connection.{IsAtRest};
ghost use Rattle.fr_sql_rows.specs.Found.{AnyTrouble, IsHeld};

use crate::schema_test::is_empty;
use crate::{Backing, fault_of};
use fr_undo::StoreFault;
use sqlite::Connection;
use sqlite_trees::store::Store;
use std::alloc::Global;

/// The store of a connection, with what was committed last, unless a fault broke it.
fn unbroken<S: Backing + Drop>(conn: Connection<S>) -> Option<S>
    ensures fresh { IfSome result (λ store. IsFresh (S.Store.view store)) }
    ensures trees { IfSome result (λ store. (S.Store.view store).trees ≡ (state S.Store conn).committed.trees) }
{
    let store = conn.into_store();
    if store.is_broken() {
        return None;
    }
    Some(store)
}

/// A connection over a store whose trees obey the schema that they list. A refusal gives the store back, and a crash
/// leaves nothing of it that it did not leave before.
pub fn open_over<S: Backing + Drop>(
    alloc: Global,
    store: S,
) -> Result<Connection<S>, (StoreFault, S)>
    requires fresh { IsFresh (S.Store.view store) }
    ensures rest { IfOk result (λ again. IsAtRest (state S.Store again)) }
    ensures held { IfOk result (λ again. IsHeld (state S.Store again).now) }
    ensures trees { IfOk result (λ again. (state S.Store again).now.trees ≡ (S.Store.view store).trees) }
    ensures trouble { IfErr result (λ e. IsTrouble AnyTrouble e.0) }
    ensures leaves { IfErr result (λ e. (db : Trees) → S.Store.recovers e.1 db → S.Store.recovers store db) }
{
    match Connection::over(alloc, store) {
        Ok(again) => Ok(again),
        Err((error, left)) => Err((fault_of(error), left)),
    }
}

/// Opens a connection again over its store. The tables then hold what was committed last, and obey their schema,
/// and each has its rows by their rowids.
pub fn open_again<S: Backing + Drop>(
    alloc: Global,
    conn: Connection<S>,
) -> Result<Connection<S>, StoreFault>
    ensures rest { IfOk result (λ again. IsAtRest (state S.Store again)) }
    ensures held { IfOk result (λ again. IsHeld (state S.Store again).now) }
    ensures trees { IfOk result (λ again. (state S.Store again).now.trees ≡ (state S.Store conn).committed.trees) }
    ensures trouble { IfErr result (IsTrouble AnyTrouble) }
{
    match unbroken(conn) {
        Some(store) => match open_over(alloc, store) {
            Ok(again) => Ok(again),
            Err((fault, _)) => Err(fault),
        },
        None => Err(StoreFault::Device),
    }
}

/// Whether the database has no table.
pub fn has_no_table<S: Backing>(conn: &Connection<S>) -> bool
    ensures { IsTrue result → (state S.Store conn.now).now.schema ≡ no_schema }
{
    is_empty(conn.schema())
}
