//! Records in memory.
ghost use Rattle.std.specs.Prelude.{◌≡◌, ◌≤◌, ◌<◌, ◌+◌, ◌++◌, [], ◌∷◌, ℕ, List, length, OnOk, OnErr, Err};
ghost use Rattle.journal.specs.Records.{IsRecord, front, Passes};

use crate::gates::JOURNAL_LIMIT;
use crate::keeping::{KeepFault, Keeper};
use sql_base::{NoMemory, SqlBytes};
use std::alloc::Global;
use std::marker::Model;

/// A list of records in memory. It never fails.
#[derive(Drop)]
pub struct MemKeeper {
    alloc: Global,
    records: Vec<SqlBytes>,
    spare: Vec<u8>,
    gate: u64,
}

impl Model for MemKeeper {
    ghost use Rattle.std.specs.Prelude.{◌≡◌, length, nat_lt, vec_len, vec_capacity, if◌then◌else◌};
    ghost use Rattle.journal.specs.Kept.{Kept};
    ghost use Rattle.journal.specs.Records.{front};

    ghost Value = { Kept };

    ghost view = { λ k. record { records = k.records.items; room = (if nat_lt (vec_len k.records) (vec_capacity k.records) then vec_capacity k.spare else 0) } };

    ghost invariant = { λ k. k.gate ≡ length (front k.records.items) };
}

impl MemKeeper {
    /// No record yet.
    pub fn new(alloc: Global) -> Self
        ensures { result.records ≡ [] }
    {
        MemKeeper {
            alloc,
            records: Vec::new(alloc),
            spare: Vec::new(alloc),
            gate: 8,
        }
    }

    /// The records, in order.
    pub fn records(&self) -> &[SqlBytes]
        ensures { result.now ≡ self.now.records }
    {
        &self.records
    }
}

impl Keeper for MemKeeper {
    ghost tells = { Unit {0} };

    ghost Meaning = { List (List ℕ) };

    ghost meaning = { λ k. k.records };

    ghost records = { λ k. k.records };

    ghost stands = { λ _. Unit {0} };

    ghost room = { λ k. k.room };

    ghost faults = { λ _. 0 };

    ghost appends = { λ _ _ _. Unit {0} };

    fn reserve(&mut self, n: u32) -> Result<(), NoMemory> {
        self.records.reserve(1)?;
        self.spare.clear();
        self.spare.reserve(n as usize)?;
        Ok(())
    }

    fn append(&mut self, body: &[u8]) -> Result<(), KeepFault> {
        let len = body.len() as u64;
        if JOURNAL_LIMIT - 6 - len < self.gate {
            return Err(KeepFault::Full { len: self.gate });
        }
        let mut spare = std::mem::replace(&mut self.spare, Vec::new(self.alloc));
        spare.clear();
        spare.extend_from_slice(body).unwrap();
        self.records.push(SqlBytes::from_vec(spare)).unwrap();
        self.gate += 5 + len;
        Ok(())
    }
}
