//! Searching and changing a list of locks.
ghost use Rattle.std.specs.Prelude.{◌≡◌, ◌+◌, ◌≤◌, ◌<◌, ◌==◌, ◌++◌, ◌^◌, length, map, vec_capacity, vec_len};
ghost use Rattle.std.specs.List.{list_any};
ghost use Rattle.row_lock.specs.Holding as spec;
ghost use Rattle.row_lock.specs.declared.locks.Reach.TheVariants.{Keys, Table};

use crate::locks::Lock;

/// Whether a lock on this key, or on every key, holds this one.
fn holds(held: Option<i64>, key: i64) -> bool
    ensures { result ≡ spec.holds held key }
{
    match held {
        None => true,
        Some(other) => other == key,
    }
}

fn holds_one(held: Option<i64>, keys: &[i64]) -> bool
    ensures { result ≡ list_any (spec.holds held) keys.now }
{
    keys.iter().any(|key| holds(held, *key))
}

fn meets_keys(lock: &Lock, table: u32, keys: &[i64]) -> bool
    ensures { result ≡ spec.meets table (Keys keys.now) lock.now }
{
    lock.table == table && holds_one(lock.key, keys)
}

fn lesser(ticket: u64, least: Option<u64>) -> u64
    ensures { result ≡ spec.lesser ticket least }
{
    match least {
        None => ticket,
        Some(other) => ticket.min(other),
    }
}

/// The least ticket that holds one of these keys.
pub fn holder_of_keys(locks: &[Lock], table: u32, keys: &[i64]) -> Option<u64>
    ensures { result ≡ spec.holder locks.now table (Keys keys.now) }
{
    let mut least: Option<u64> = None;
    for lock in locks {
        if meets_keys(lock, table, keys) {
            least = Some(lesser(lock.ticket, least));
        }
    }
    least
}

/// The least ticket that holds any key of the table.
pub fn holder_of_table(locks: &[Lock], table: u32) -> Option<u64>
    ensures { result ≡ spec.holder locks.now table Table }
{
    let mut least: Option<u64> = None;
    for lock in locks {
        if lock.table == table {
            least = Some(lesser(lock.ticket, least));
        }
    }
    least
}

fn has_ticket(locks: &[Lock], ticket: u64) -> bool
    ensures { result ≡ list_any (λ lock. lock.ticket == ticket) locks.now }
{
    locks.iter().any(|lock| lock.ticket == ticket)
}

/// The number of tickets that have a lock.
pub fn open_count(locks: &[Lock]) -> u32
    requires { length locks.now < 2 ^ 32 }
    ensures { result ≡ length (spec.open_tickets locks.now) }
{
    let mut count = 0;
    let mut rest = locks;
    while let Some((lock, later)) = rest.split_first() {
        if !has_ticket(later, lock.ticket) {
            count += 1;
        }
        rest = later;
    }
    count
}

/// A lock of the ticket on each of these keys, at the end. There is room for them.
pub fn push_each(locks: &mut Vec<Lock>, ticket: u64, table: u32, keys: &[i64])
    requires { vec_len locks.old + length keys.now ≤ vec_capacity locks.old }
    ensures items { locks.new.items ≡ locks.old.items ++ map (spec.lock_on ticket table) keys.now }
    ensures len { vec_len locks.new ≡ vec_len locks.old + length keys.now }
    ensures room { vec_capacity locks.new ≡ vec_capacity locks.old }
{
    for key in keys {
        locks.push_reserved(Lock {
            ticket,
            table,
            key: Some(*key),
        });
    }
}

/// The locks of the ticket go.
pub fn release_all(locks: &mut Vec<Lock>, ticket: u64)
    ensures items { locks.new.items ≡ spec.locks_without ticket locks.old.items }
    ensures len { vec_len locks.new ≤ vec_len locks.old }
    ensures room { vec_capacity locks.new ≡ vec_capacity locks.old }
{
    locks.retain(|lock| lock.ticket != ticket);
}
