//! A caller that hands rows and locks to two threads.
ghost use Rattle.std.specs.Prelude.{◌≡◌};
ghost use Rattle.std.specs.FinMap as map;
ghost use Rattle.row_lock.specs.Holding.{locks_without};

use row_lock::Locks;
use row_store::RowStore;
use std::sync::Wait;
use std::thread::{Threads, join};

/// One thread removes a row while another releases a ticket, and both give back what they were given.
pub fn clear_by_two<R: Threads + Wait + Sync>(
    rt: &R,
    mut store: RowStore,
    key: i64,
    mut locks: Locks,
    ticket: u64,
) -> (RowStore, Locks)
    ensures rows { result.0.rows ≡ map.remove store.rows key }
    ensures locks { result.1.locks ≡ locks_without ticket locks.locks }
{
    join(
        rt,
        move || -> RowStore
            ensures { result.rows ≡ map.remove store.rows key }
        {
            let _row = store.remove(key);
            store
        },
        move || -> Locks
            ensures { result.locks ≡ locks_without ticket locks.locks }
        {
            locks.release(ticket);
            locks
        },
    )
}
