//! Where a program's bytes come from and where they go.
//!
//! A contract sees of a source the bytes that are left, and of a sink those that it holds, where the object
//! tells them, and of both a count of faults that never falls.
#![tactic(auto)]

ghost use Rattle.std.specs.Prelude.{ℕ, List, Option};
ghost use Rattle.std.specs.Io.{ReadsAtMost, WritesAtMost};
ghost use Rattle.std.specs.Io.KnownBytes.{ReadConsumes, WriteAppends};
ghost use Rattle.pg_io.specs.Causes.{HasExactCause, TakesSome};

mod device;
#[cfg(test)]
mod disk_tests;
mod fuse;
mod memory;
mod on_file;
mod recorded;
mod schedule;
mod streams;
#[cfg(test)]
mod tests;
mod whole;

pub use device::Disk;
pub use fuse::FuseDisk;
pub use memory::{MemSink, MemSource};
pub use on_file::FileDisk;
pub use recorded::{Call, MemDisk};
pub use streams::{StdSink, StdSource};
pub use whole::{InputFault, read_whole, write_whole};

/// A read or a write failed.
#[derive(Clone, Copy, Debug, PartialEq, Eq)]
pub struct Failed;

/// Where bytes are read from.
pub trait Source {
    // the bytes that are left, where the source tells them
    ghost left: { Self → Option (List ℕ) };

    // how many reads have failed
    ghost faults: { Self → ℕ };

    /// Reads some bytes, and answers how many. Of a buffer that isn't empty it fills none exactly at the end.
    fn read(&mut self, buf: &mut [u8]) -> Result<usize, Failed>
        ensures bound { ReadsAtMost result buf.new }
        ensures bytes { ReadConsumes (left self.old) (left self.new) result buf.new }
        ensures cause { HasExactCause (faults self.old) (faults self.new) result };
}

/// Where bytes are written to.
pub trait Sink {
    // the bytes that were written, where the sink tells them
    ghost held: { Self → Option (List ℕ) };

    // how many writes have failed
    ghost faults: { Self → ℕ };

    /// Writes the front of `bytes`, and answers how many: at least one, unless `bytes` is empty.
    fn write(&mut self, bytes: &[u8]) -> Result<usize, Failed>
        ensures bound { WritesAtMost result bytes.now }
        ensures some { TakesSome result bytes.now }
        ensures bytes { WriteAppends (held self.old) (held self.new) result bytes.now }
        ensures cause { HasExactCause (faults self.old) (faults self.new) result };
}
