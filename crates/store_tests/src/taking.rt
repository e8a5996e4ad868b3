//! A caller of locks.
ghost use Rattle.std.specs.Prelude.{◌≡◌, ◌<◌, ◌≤◌, ◌^◌, ◌++◌, IfOk, OnErr, None, Some};
ghost use Rattle.row_lock.specs.Holding as held;
ghost use Rattle.store_tests.specs.Taking.{Takes};

use row_lock::{Locks, Reach};
use sql_base::NoMemory;

/// Whether a ticket took its reach.
#[derive(Clone, Copy, Debug, PartialEq, Eq)]
pub enum Taken {
    /// It did.
    All,
    /// This ticket holds a part of it.
    HeldBy(u64),
}

fn size(keys: &Reach) -> u32
    requires { held.size keys.now < 2 ^ 32 }
    ensures { result ≡ held.size keys.now }
{
    match keys {
        Reach::Keys(keys) => keys.len() as u32,
        Reach::Table => 1,
    }
}

/// Lets a ticket hold this part of a table, if nothing of it is held. An error is want of memory, and then nothing has changed.
pub fn take(locks: &mut Locks, ticket: u64, table: u32, keys: Reach) -> Result<Taken, NoMemory>
    requires { held.size keys < 2 ^ 32 }
    ensures ok { IfOk result (λ taken. Takes locks.old.locks ticket table keys taken locks.new.locks) }
    ensures err { OnErr result (locks.new.locks ≡ locks.old.locks) }
{
    match locks.holder(table, &keys) {
        Some(by) => Ok(Taken::HeldBy(by)),
        None => {
            locks.reserve(size(&keys))?;
            locks.take_reserved(ticket, table, keys);
            Ok(Taken::All)
        }
    }
}
