//! The last state of nodes that are owned by one thread.
ghost use Rattle.std.specs.Prelude.{◌≡◌, ◌≢◌, false, None, IfOk, IfSome};
ghost use Rattle.fr_run.specs.Last as last;
ghost use Rattle.fr_storage.specs.Server.{refusal_of, storage_of, store_fault};
ghost use Rattle.fr_undo.specs.Calls.{IsTrouble};

use crate::phase::phase_text;
use fr_ask::{Last, Rows};
use fr_base::Memory;
use fr_epoch::Recoverer;
use fr_proxy::Proxy;
use fr_storage::{Storage, StorageFault};
use fr_undo::ShardStore;
use std::alloc::Global;

/// A proxy's last state as others see it. It takes no memory.
pub fn last_of_proxy(proxy: &Proxy) -> Last
    ensures { result ≡ last.last_of_proxy proxy.now }
{
    Last::Proxy {
        known: proxy.known(),
    }
}

/// A recoverer's last state as others see it.
pub fn last_of_recoverer(alloc: Global, recoverer: &Recoverer) -> Result<Last, Memory>
    ensures { IfOk result (λ told. told ≡ last.last_of_recoverer recoverer.now) }
{
    let phase = phase_text(alloc, recoverer.phase())?;
    Ok(Last::Recoverer { phase })
}

/// A storage server's last state as others see it, its rows included.
pub fn last_of_storage<S: ShardStore>(
    alloc: Global,
    storage: &mut Storage<S>,
) -> Result<Last, StorageFault>
    ensures told { IfOk result (λ told. told ≡ last.last_of_storage (storage_of S.state storage.old)) }
    ensures store { refusal_of result ≡ None }
{
    let (epoch, version) = storage.position();
    let floor = storage.floor();
    let rows = storage.dump(alloc)?;
    Ok(Last::Storage {
        epoch,
        version,
        floor,
        rows: Rows::from_vec(rows),
    })
}
