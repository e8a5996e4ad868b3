//! A disk in memory that keeps its calls, some of which are to fail.
ghost use Rattle.std.specs.Prelude.{◌≡◌, ◌⊎◌, ◌↔◌, ◌≤◌, ◌+◌, ◌++◌, [], ◌∷◌, length, take, drop, IfOk, OnOk, OnErr, IsTrue, IsErr, Contains};
ghost use Rattle.std.specs.Bool.{OnTrue, OnFalse};
ghost use Rattle.pg_io.specs.Causes.{HasExactCause, one_more};
ghost use Rattle.pg_io.specs.Disk.{Holds, Torn, Shortened, Follows, Only, Within, Ticks, Still};
ghost use Rattle.pg_io.specs.Replay.{DiskInMemory, replay, seen_of, images_of, moment_of, since_of, reads_image, counts_image, only_image, Same, Made, MayMake, Writes, MayWrite, MayWriteHalf, Puts, Counts};

use crate::schedule::Schedule;
use crate::{Disk, Failed};
use std::alloc::{AllocError, Global};
use std::marker::Model;

/// A call that changed what a disk holds, or made it sure.
#[derive(Debug, Drop)]
pub enum Call {
    /// These bytes were written at this offset.
    Wrote { at: u64, bytes: Vec<u8> },
    /// The file was cut to this many bytes.
    Cut { len: u64 },
    /// All that was done before is on the disk.
    Synced,
}

/// A file in memory. It tells what it holds, keeps each call that changed it, so that it answers for every moment,
/// and fails where it was told to.
///
/// A write that is to fail leaves the front half of its bytes, a cut that is to fail is done all the same, and
/// every other call that fails changes nothing. Where memory is wanting, a call counts a fault and changes nothing.
/// Each call is counted, and what it changed is kept among the calls.
#[derive(Drop)]
pub struct MemDisk {
    alloc: Global,
    first: Vec<u8>,
    calls: Vec<Call>,
    bytes: Vec<u8>,
    schedule: Schedule,
}

impl Model for MemDisk {
    ghost use Rattle.std.specs.Prelude.{◌≡◌};
    ghost use Rattle.pg_io.specs.Replay.{DiskInMemory, replay};

    ghost Value = { DiskInMemory };

    ghost view = { λ m. record { first = m.first.items; calls = m.calls.items; made = m.schedule.made; failing = m.schedule.failing.items; faults = m.schedule.faults } };

    ghost invariant = { λ m. m.bytes.items ≡ replay m.first.items m.calls.items };
}

// These bytes with others in their place from `at` on.
fn overwritten(alloc: Global, old: &[u8], at: usize, bytes: &[u8]) -> Result<Vec<u8>, AllocError>
    requires { at ≤ length old.now }
    ensures { IfOk result (λ v. v.items ≡ take at old.now ++ bytes.now ++ drop (at + length bytes.now) old.now) }
{
    let mut next = old[..at].to_vec(alloc)?;
    next.extend_from_slice(bytes)?;
    if bytes.len() < old.len() - at {
        next.extend_from_slice(&old[at + bytes.len()..])?;
    }
    Ok(next)
}

// Fills the buffer from `at` on.
fn copy_part(bytes: &[u8], at: usize, buf: &mut [u8])
    requires { at + length buf.old ≤ length bytes.now }
    ensures { buf.new ≡ take (length buf.old) (drop at bytes.now) }
{
    buf.copy_from_slice(&bytes[at..at + buf.len()]);
}

impl MemDisk {
    /// A disk with these bytes, all of them on it. `failing` lists the calls that are to fail, the first one being 0.
    pub fn new(alloc: Global, bytes: Vec<u8>, failing: Vec<u64>) -> Result<Self, AllocError>
        ensures { IfOk result (λ m. m ≡ record { first = bytes.items; calls = []; made = 0; failing = failing.items; faults = 0 }) }
    {
        Ok(MemDisk {
            alloc,
            first: bytes.to_vec(alloc)?,
            calls: Vec::new(alloc),
            bytes,
            schedule: Schedule::new(failing),
        })
    }

    /// What a read gives.
    pub fn bytes(&self) -> &[u8]
        ensures { result.now ≡ seen_of self.now }
    {
        &self.bytes
    }

    /// The calls that changed it, in order.
    pub fn calls(&self) -> &[Call]
        ensures { result.now ≡ self.now.calls }
    {
        &self.calls
    }

    // Counts a call, and says whether it is to fail; then the fault is counted too.
    fn is_due(&mut self) -> bool
        ensures listed { IsTrue result ↔ Contains self.old.failing self.old.made }
        ensures due { OnTrue result (self.new ≡ record self.old { made = one_more self.old.made; faults = one_more self.old.faults }) }
        ensures passed { OnFalse result (self.new ≡ record self.old { made = one_more self.old.made }) }
        ensures later { self.old.faults ≤ self.new.faults }
    {
        self.schedule.is_due()
    }

    // Counts a fault.
    fn fail(&mut self)
        ensures counted { self.new ≡ record self.old { faults = one_more self.old.faults } }
        ensures later { self.old.faults ≤ self.new.faults }
    {
        self.schedule.fail();
    }

    // Keeps a call, and the bytes that it makes.
    fn keep(&mut self, call: Call, next: Vec<u8>) -> Result<(), AllocError>
        requires { next.items ≡ replay self.old.first (self.old.calls ++ call ∷ []) }
        ensures kept { OnOk result (self.new ≡ record self.old { calls = self.old.calls ++ call ∷ [] }) }
        ensures same { OnErr result (self.new ≡ self.old) }
    {
        self.calls.reserve(1)?;
        self.calls.push(call).unwrap();
        self.bytes = next;
        Ok(())
    }

    // Writes these bytes.
    fn put(&mut self, at: u64, bytes: &[u8]) -> Result<(), AllocError>
        requires { at ≤ length (seen_of self.old) }
        ensures put { OnOk result (Puts at bytes.now self.old self.new) }
        ensures same { OnErr result (self.new ≡ self.old) }
    {
        let next = overwritten(self.alloc, &self.bytes, at as usize, bytes)?;
        let bytes = bytes.to_vec(self.alloc)?;
        self.keep(Call::Wrote { at, bytes }, next)?;
        Ok(())
    }

    // Cuts the file.
    fn shorten(&mut self, len: u64) -> Result<(), AllocError>
        requires { len ≤ length (seen_of self.old) }
        ensures cut { OnOk result (self.new ≡ record self.old { calls = self.old.calls ++ Call.Cut len ∷ [] }) }
        ensures same { OnErr result (self.new ≡ self.old) }
    {
        let next = self.bytes[..len as usize].to_vec(self.alloc)?;
        self.keep(Call::Cut { len }, next)?;
        Ok(())
    }

    // Makes all sure.
    fn settle(&mut self) -> Result<(), AllocError>
        ensures settled { OnOk result (self.new ≡ record self.old { calls = self.old.calls ++ Call.Synced ∷ [] }) }
        ensures same { OnErr result (self.new ≡ self.old) }
    {
        let next = self.bytes.to_vec(self.alloc)?;
        self.keep(Call::Synced, next)?;
        Ok(())
    }

    // The counted write.
    fn counted_write(&mut self, at: u64, bytes: &[u8]) -> Result<(), Failed>
        requires { at ≤ length (seen_of self.old) }
        ensures written { OnOk result (Writes at bytes.now self.old self.new) }
        ensures torn { MayWrite at (length bytes.now) self.old self.new }
        ensures half { OnErr result (MayWriteHalf at bytes.now self.old self.new) }
        ensures counts { Counts self.old self.new result }
    {
        if self.is_due() {
            let _ = self.put(at, &bytes[..bytes.len() / 2]);
            return Err(Failed);
        }
        match self.put(at, bytes) {
            Ok(()) => Ok(()),
            Err(_) => {
                self.fail();
                Err(Failed)
            }
        }
    }

    // The counted cut.
    fn counted_cut(&mut self, len: u64) -> Result<(), Failed>
        requires { len ≤ length (seen_of self.old) }
        ensures cut { OnOk result (Made (Call.Cut len) self.old self.new) }
        ensures cut_or_not { MayMake (Call.Cut len) self.old self.new }
        ensures counts { Counts self.old self.new result }
    {
        if self.is_due() {
            let _ = self.shorten(len);
            return Err(Failed);
        }
        match self.shorten(len) {
            Ok(()) => Ok(()),
            Err(_) => {
                self.fail();
                Err(Failed)
            }
        }
    }

    // The counted sync.
    fn counted_sync(&mut self) -> Result<(), Failed>
        ensures synced { OnOk result (Made Call.Synced self.old self.new) }
        ensures synced_or_not { MayMake Call.Synced self.old self.new }
        ensures same { OnErr result (Same self.old self.new) }
        ensures counts { Counts self.old self.new result }
    {
        if self.is_due() {
            return Err(Failed);
        }
        match self.settle() {
            Ok(()) => Ok(()),
            Err(_) => {
                self.fail();
                Err(Failed)
            }
        }
    }
}

impl Disk for MemDisk {
    ghost tells = { Unit {0} };

    ghost seen = { λ m. seen_of m };

    ghost may_leave = { λ m c. images_of m c };

    ghost moment = { λ m. moment_of m };

    ghost left_since = { λ m t c. since_of m t c };

    ghost faults = { λ m. m.faults };

    ghost reads = { λ _ m. reads_image m.first m.calls };

    ghost counts_now = { λ _ m t c le now. counts_image m.first m.calls t c le now };

    ghost only_now = { λ _ m c left. only_image m.first m.calls c left };

    fn len(&mut self) -> Result<u64, Failed>
        ensures len { IfOk result (λ n. n ≡ length (seen_of self.old)) }
        ensures still { Still moment_of seen_of images_of since_of self.old self.new }
        ensures cause { HasExactCause self.old.faults self.new.faults result }
        ensures due { IsErr result ↔ Contains self.old.failing self.old.made }
        ensures same { Same self.old self.new }
        ensures counts { Counts self.old self.new result }
    {
        if self.is_due() {
            return Err(Failed);
        }
        Ok(self.bytes.len() as u64)
    }

    fn read_at(&mut self, at: u64, buf: &mut [u8]) -> Result<(), Failed>
        requires { at + length buf.old ≤ length (seen_of self.old) }
        ensures bytes { OnOk result (buf.new ≡ take (length buf.old) (drop at (seen_of self.old))) }
        ensures still { Still moment_of seen_of images_of since_of self.old self.new }
        ensures cause { HasExactCause self.old.faults self.new.faults result }
        ensures due { IsErr result ↔ Contains self.old.failing self.old.made }
        ensures same { Same self.old self.new }
        ensures counts { Counts self.old self.new result }
    {
        if self.is_due() {
            return Err(Failed);
        }
        copy_part(&self.bytes, at as usize, buf);
        Ok(())
    }

    fn write_at(&mut self, at: u64, bytes: &[u8]) -> Result<(), Failed>
        requires { at ≤ length (seen_of self.old) }
        ensures written { OnOk result (Holds (seen_of self.old) at bytes.now (seen_of self.new)) }
        ensures torn { OnErr result (Torn at (length bytes.now) (seen_of self.old) (seen_of self.new)) }
        ensures crash { Follows (Torn at (length bytes.now)) (images_of self.old) (since_of self.new (moment_of self.old)) }
        ensures time { Ticks moment_of seen_of images_of since_of self.old self.new }
        ensures cause { HasExactCause self.old.faults self.new.faults result }
        ensures kept { OnOk result (Writes at bytes.now self.old self.new) }
        ensures half { OnErr result (MayWriteHalf at bytes.now self.old self.new) }
        ensures counts { Counts self.old self.new result }
    {
        self.counted_write(at, bytes)?;
        Ok(())
    }

    fn cut(&mut self, len: u64) -> Result<(), Failed>
        requires { len ≤ length (seen_of self.old) }
        ensures cut { OnOk result (seen_of self.new ≡ take len (seen_of self.old)) }
        ensures cut_or_not { OnErr result ((seen_of self.new ≡ seen_of self.old) ⊎ (seen_of self.new ≡ take len (seen_of self.old))) }
        ensures crash { Follows (Shortened len) (images_of self.old) (since_of self.new (moment_of self.old)) }
        ensures time { Ticks moment_of seen_of images_of since_of self.old self.new }
        ensures cause { HasExactCause self.old.faults self.new.faults result }
        ensures kept { OnOk result (Made (Call.Cut len) self.old self.new) }
        ensures kept_or_not { MayMake (Call.Cut len) self.old self.new }
        ensures counts { Counts self.old self.new result }
    {
        self.counted_cut(len)?;
        Ok(())
    }

    fn sync(&mut self) -> Result<(), Failed>
        ensures durable { OnOk result (Only (seen_of self.old) (images_of self.new)) }
        ensures seen { seen_of self.new ≡ seen_of self.old }
        ensures crash { Within (since_of self.new (moment_of self.old)) (images_of self.old) }
        ensures time { Ticks moment_of seen_of images_of since_of self.old self.new }
        ensures cause { HasExactCause self.old.faults self.new.faults result }
        ensures kept { OnOk result (Made Call.Synced self.old self.new) }
        ensures same { OnErr result (Same self.old self.new) }
        ensures counts { Counts self.old self.new result }
    {
        self.counted_sync()?;
        Ok(())
    }
}
