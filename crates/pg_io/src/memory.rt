//! A source and a sink in memory, some of whose calls are to fail.
ghost use Rattle.std.specs.Prelude.{◌≡◌, ◌⊎◌, ◌↔◌, ℕ, ◌+◌, ◌-◌, ◌<◌, ◌≤◌, ◌++◌, List, [], length, take, drop, min, vec_len, vec_capacity, Some, IsErr, IfOk, OnOk, OnErr, Contains};
ghost use Rattle.std.specs.Io.{ReadsAtMost, WritesAtMost};
ghost use Rattle.std.specs.Io.KnownBytes.{ReadConsumes, WriteAppends};
ghost use Rattle.pg_io.specs.Causes.{HasExactCause, TakesSome, one_more};
ghost use Rattle.pg_io.specs.Memory.{SourceInMemory, SinkInMemory};

use crate::schedule::Schedule;
use crate::{Failed, Sink, Source};
use std::alloc::{AllocError, Global};
use std::marker::Model;

// Copies as many bytes as there are, or as there is room for, and answers how many.
fn copy_front(from: &[u8], to: &mut [u8]) -> usize
    ensures count { result ≡ min (length from.now) (length to.old) }
    ensures copied { from.now ≡ take result to.new ++ drop result from.now }
{
    let count = from.len().min(to.len());
    to[..count].copy_from_slice(&from[..count]);
    count
}

/// Bytes to be read. It tells them, and which of its calls fail.
#[derive(Drop)]
pub struct MemSource {
    bytes: Vec<u8>,
    at: usize,
    schedule: Schedule,
}

impl Model for MemSource {
    ghost use Rattle.std.specs.Prelude.{◌≤◌, drop, vec_len};
    ghost use Rattle.pg_io.specs.Memory.{SourceInMemory};

    ghost Value = { SourceInMemory };

    ghost view = { λ s. record { left = drop s.at s.bytes.items; made = s.schedule.made; failing = s.schedule.failing.items; faults = s.schedule.faults } };

    ghost invariant = { λ s. s.at ≤ vec_len s.bytes };
}

impl MemSource {
    /// These bytes. `failing` lists the calls that are to fail, the first one being 0.
    pub fn new(bytes: Vec<u8>, failing: Vec<u64>) -> Self
        ensures { result ≡ record { left = bytes.items; made = 0; failing = failing.items; faults = 0 } }
    {
        MemSource {
            bytes,
            at: 0,
            schedule: Schedule::new(failing),
        }
    }
}

impl Source for MemSource {
    ghost left = { λ s. Some s.left };

    ghost faults = { λ s. s.faults };

    /// Fails where the list has this call's number, and then gives no byte. Else it gives as many bytes as there
    /// are and as there is room for.
    fn read(&mut self, buf: &mut [u8]) -> Result<usize, Failed>
        ensures bound { ReadsAtMost result buf.new }
        ensures bytes { ReadConsumes (Some self.old.left) (Some self.new.left) result buf.new }
        ensures cause { HasExactCause self.old.faults self.new.faults result }

        // Which calls fail, and what is counted.
        ensures due { IsErr result ↔ Contains self.old.failing self.old.made }
        ensures failing { self.new.failing ≡ self.old.failing }
        ensures made { self.new.made ≡ one_more self.old.made }
        ensures passed { OnOk result (self.new.faults ≡ self.old.faults) }
        ensures failed { OnErr result (self.new.faults ≡ one_more self.old.faults) }

        // How many bytes are given.
        ensures count { IfOk result (λ n. n ≡ min (length self.old.left) (length buf.old)) }
    {
        if self.schedule.is_due() {
            return Err(Failed);
        }
        let count = copy_front(&self.bytes[self.at..], buf);
        self.at += count;
        Ok(count)
    }
}

/// Keeps what is written, tells it, and tells which of its calls fail.
#[derive(Drop)]
pub struct MemSink {
    bytes: Vec<u8>,
    schedule: Schedule,
}

impl Model for MemSink {
    ghost use Rattle.std.specs.Prelude.{◌-◌, vec_len, vec_capacity};
    ghost use Rattle.pg_io.specs.Memory.{SinkInMemory};

    ghost Value = { SinkInMemory };

    ghost view = { λ s. record { held = s.bytes.items; room = vec_capacity s.bytes - vec_len s.bytes; made = s.schedule.made; failing = s.schedule.failing.items; faults = s.schedule.faults } };
}

impl MemSink {
    /// Nothing is written yet. `failing` lists the calls that are to fail, the first one being 0.
    pub fn new(alloc: Global, failing: Vec<u64>) -> Self
        ensures held { result.held ≡ [] }
        ensures made { result.made ≡ 0 }
        ensures failing { result.failing ≡ failing.items }
        ensures faults { result.faults ≡ 0 }
    {
        MemSink {
            bytes: Vec::new(alloc),
            schedule: Schedule::new(failing),
        }
    }

    /// Takes memory for so many bytes more. An error comes where memory is wanting, and changes nothing but
    /// the room.
    pub fn reserve(&mut self, more: usize) -> Result<(), AllocError>
        ensures room { OnOk result (more ≤ self.new.room) }
        ensures held { self.new.held ≡ self.old.held }
        ensures made { self.new.made ≡ self.old.made }
        ensures failing { self.new.failing ≡ self.old.failing }
        ensures faults { self.new.faults ≡ self.old.faults }
    {
        self.bytes.reserve(more)
    }

    /// What was written.
    pub fn bytes(&self) -> &[u8]
        ensures { result.now ≡ self.now.held }
    {
        &self.bytes
    }
}

impl Sink for MemSink {
    ghost held = { λ s. Some s.held };

    ghost faults = { λ s. s.faults };

    /// Fails where the list has this call's number, and else only where memory for the bytes is wanting; then
    /// nothing is written. Else it takes all of them.
    fn write(&mut self, bytes: &[u8]) -> Result<usize, Failed>
        ensures bound { WritesAtMost result bytes.now }
        ensures some { TakesSome result bytes.now }
        ensures bytes { WriteAppends (Some self.old.held) (Some self.new.held) result bytes.now }
        ensures cause { HasExactCause self.old.faults self.new.faults result }

        // Which calls fail, and what is counted.
        ensures due { Contains self.old.failing self.old.made → IsErr result }
        ensures refused { IsErr result → Contains self.old.failing self.old.made ⊎ (self.old.room < length bytes.now) }
        ensures failing { self.new.failing ≡ self.old.failing }
        ensures made { self.new.made ≡ one_more self.old.made }
        ensures passed { OnOk result (self.new.faults ≡ self.old.faults) }
        ensures failed { OnErr result (self.new.faults ≡ one_more self.old.faults) }

        // All bytes are taken.
        ensures count { IfOk result (λ n. n ≡ length bytes.now) }
    {
        if self.schedule.is_due() {
            return Err(Failed);
        }
        if self.bytes.extend_from_slice(bytes).is_err() {
            self.schedule.fail();
            return Err(Failed);
        }
        Ok(bytes.len())
    }
}
