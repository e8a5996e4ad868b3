//! The locks, and the calls on them.
ghost use Rattle.std.specs.Prelude.{◌≡◌, ◌+◌, ◌≤◌, [], ◌++◌, length, None, OnOk, OnErr};
ghost use Rattle.row_lock.specs.Holding as spec;

use crate::finding::{holder_of_keys, holder_of_table, open_count, push_each, release_all};
use sql_base::{List, NoMemory};
use std::alloc::Global;
use std::marker::Model;

/// The most keys and tables that are held at once. The number is our own.
pub const MOST_LOCKS: u32 = 4_000_000_000;

/// A lock: a ticket holds a key of a table, or all of them.
#[derive(Clone, Copy, Debug, PartialEq, Eq)]
pub struct Lock {
    /// The ticket's number.
    pub ticket: u64,
    /// The table's number.
    pub table: u32,
    /// The key, or `None` for every key of the table.
    pub key: Option<i64>,
}

/// The part of a table that a ticket holds.
#[derive(Debug, Drop)]
pub enum Reach {
    /// These keys.
    Keys(List<i64>),
    /// Every key that the table has or may have.
    Table,
}

/// The locks of all open tickets. No key is held by two of them.
///
/// Contracts see the list of the locks in the order in which they were taken, and beside it how many more may be taken before memory is asked for again (`spare`).
#[derive(Drop)]
pub struct Locks {
    locks: Vec<Lock>,
}

impl Model for Locks {
    ghost use Rattle.std.specs.Prelude.{◌-◌, ◌≤◌, length, min, vec_capacity, vec_len};
    ghost use Rattle.row_lock.specs.Held.{Held};
    ghost use Rattle.row_lock.specs.Apart.{AreApart};

    ghost Value = { Held };

    ghost view = { λ it. record { locks = it.locks.items; spare = min (vec_capacity it.locks) 4000000000 - vec_len it.locks } };

    ghost invariant = { λ it. (vec_len it.locks ≤ 4000000000) × AreApart it.locks.items };
}

impl Locks {
    /// Nothing is held, and nothing may be taken yet.
    pub fn new(alloc: Global) -> Locks
        ensures { result.locks ≡ [] }
    {
        Locks {
            locks: Vec::new(alloc),
        }
    }

    /// The ticket that holds this key of the table, by itself or with the whole table.
    pub fn held(&self, table: u32, key: i64) -> Option<u64>
        ensures { result ≡ spec.held self.now.locks table key }
    {
        holder_of_keys(self.locks.as_slice(), table, &[key])
    }

    /// The least ticket that holds any key of the table, or all of it.
    pub fn held_any(&self, table: u32) -> Option<u64>
        ensures { result ≡ spec.held_any self.now.locks table }
    {
        holder_of_table(self.locks.as_slice(), table)
    }

    /// The least ticket that holds a part of this reach.
    pub fn holder(&self, table: u32, keys: &Reach) -> Option<u64>
        ensures { result ≡ spec.holder self.now.locks table keys.now }
    {
        match keys {
            Reach::Keys(keys) => holder_of_keys(self.locks.as_slice(), table, keys.as_slice()),
            Reach::Table => holder_of_table(self.locks.as_slice(), table),
        }
    }

    /// Makes room for as many keys and tables. An error is want of memory, or would pass `MOST_LOCKS`, and then what is held is as it was.
    pub fn reserve(&mut self, n: u32) -> Result<(), NoMemory>
        ensures same { self.new.locks ≡ self.old.locks }
        ensures room { OnOk result (n ≤ self.new.spare) }
        ensures few { OnOk result (length self.old.locks + n ≤ MOST_LOCKS) }
        ensures kept { self.old.spare ≤ self.new.spare }
    {
        let left = MOST_LOCKS as usize - self.locks.len();
        if n as usize > left {
            return Err(NoMemory);
        }
        self.locks.reserve(n as usize)?;
        Ok(())
    }

    /// Lets a ticket hold this part of a table, of which nothing is held yet. There must be room for it: one for each key, or one for a whole table.
    pub fn take_reserved(&mut self, ticket: u64, table: u32, keys: Reach)
        requires free { spec.holder self.old.locks table keys ≡ None }
        requires room { spec.size keys ≤ self.old.spare }
        ensures locks { self.new.locks ≡ self.old.locks ++ spec.locks_on ticket table keys }
        ensures room { self.new.spare + spec.size keys ≡ self.old.spare }
    {
        match keys {
            Reach::Keys(keys) => push_each(&mut self.locks, ticket, table, keys.as_slice()),
            Reach::Table => {
                self.locks.push_reserved(Lock {
                    ticket,
                    table,
                    key: None,
                })
            }
        }
    }

    /// Gives up all that the ticket holds.
    pub fn release(&mut self, ticket: u64)
        ensures locks { self.new.locks ≡ spec.locks_without ticket self.old.locks }
        ensures kept { self.old.spare ≤ self.new.spare }
    {
        release_all(&mut self.locks, ticket);
    }

    /// The number of tickets that hold anything.
    pub fn open_count(&self) -> u32
        ensures { result ≡ length (spec.open_tickets self.now.locks) }
    {
        open_count(self.locks.as_slice())
    }

    /// Shows that no key is held by two tickets, and that there are at most `MOST_LOCKS` locks. It does nothing.
    pub fn stands(&self)
        ensures apart { spec.AreApart self.now.locks }
        ensures few { length self.now.locks + self.now.spare ≤ MOST_LOCKS }
    {
        let _locks = &self.locks;
    }
}
