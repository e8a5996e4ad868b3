//! A disk that fails for good after some calls.
ghost use Rattle.std.specs.Prelude.{◌≡◌, ◌⊎◌, ◌≤◌, ◌<◌, ◌+◌, ◌-◌, List, ℕ, length, take, drop, IfOk, OnOk, OnErr, IsErr};
ghost use Rattle.pg_io.specs.Causes.{HasExactCause, Rose};
ghost use Rattle.pg_io.specs.Disk.{Holds, Torn, Shortened, Follows, Only, Within, Ticks, Still};
ghost use Rattle.pg_io.specs.Fuse.{Fused, Burns, behind};

use crate::{Disk, Failed};
use std::marker::Model;

/// Lets so many calls pass to the disk behind it, and then fails every call and touches nothing.
#[derive(Drop)]
pub struct FuseDisk<D: Disk> {
    inner: D,
    left: u64,
    blown: u64,
}

impl<D: Disk> Model for FuseDisk<D> {
    ghost use Rattle.pg_io.specs.Fuse.{Fused};

    ghost Value = { Fused D };

    ghost view = { λ f. record { inner = f.inner; left = f.left; blown = f.blown } };
}

impl<D: Disk> FuseDisk<D> {
    /// Lets `left` calls pass.
    pub fn new(inner: D, left: u64) -> Self
        ensures { result ≡ record { inner = inner; left = left; blown = 0 } }
    {
        FuseDisk {
            inner,
            left,
            blown: 0,
        }
    }

    /// The disk behind.
    pub fn into_inner(self) -> D
        ensures { result ≡ self.inner }
    {
        let FuseDisk { inner, .. } = self;
        inner
    }

    // Takes one of the calls that are left, or fails.
    fn pass(&mut self) -> Result<(), Failed>
        ensures inner { self.new.inner ≡ self.old.inner }
        ensures left { self.new.left ≡ self.old.left - 1 }
        ensures passed { OnOk result ((0 < self.old.left) × (self.new.blown ≡ self.old.blown)) }
        ensures spent { OnErr result ((self.old.left ≡ 0) × Rose self.old.blown self.new.blown) }
        ensures later { self.old.blown ≤ self.new.blown }
    {
        if self.left == 0 {
            self.blown = self.blown.saturating_add(1);
            return Err(Failed);
        }
        self.left -= 1;
        Ok(())
    }
}

impl<D: Disk> Disk for FuseDisk<D> {
    ghost tells = { D.tells };

    ghost seen = { λ f. D.seen f.inner };

    ghost may_leave = { λ f c. D.may_leave f.inner c };

    ghost moment = { λ f. D.moment f.inner };

    ghost left_since = { λ f t c. D.left_since f.inner t c };

    ghost faults = { λ f. D.faults f.inner + f.blown };

    ghost reads = { λ told f. D.reads told f.inner };

    ghost counts_now = { λ told f t c le now. D.counts_now told f.inner t c le now };

    ghost only_now = { λ told f c left. D.only_now told f.inner c left };

    fn len(&mut self) -> Result<u64, Failed>
        ensures len { D.tells → IfOk result (λ n. n ≡ length (D.seen self.old.inner)) }
        ensures still { D.tells → Still (behind D.moment) (behind D.seen) (behind D.may_leave) (behind D.left_since) self.old self.new }
        ensures cause { HasExactCause (D.faults self.old.inner + self.old.blown) (D.faults self.new.inner + self.new.blown) result }
        ensures burns { Burns D.faults self.old self.new result }
    {
        self.pass()?;
        Ok(self.inner.len()?)
    }

    fn read_at(&mut self, at: u64, buf: &mut [u8]) -> Result<(), Failed>
        requires { D.tells → at + length buf.old ≤ length (D.seen self.old.inner) }
        ensures bytes { D.tells → OnOk result (buf.new ≡ take (length buf.old) (drop at (D.seen self.old.inner))) }
        ensures still { D.tells → Still (behind D.moment) (behind D.seen) (behind D.may_leave) (behind D.left_since) self.old self.new }
        ensures cause { HasExactCause (D.faults self.old.inner + self.old.blown) (D.faults self.new.inner + self.new.blown) result }
        ensures burns { Burns D.faults self.old self.new result }
    {
        self.pass()?;
        self.inner.read_at(at, buf)?;
        Ok(())
    }

    fn write_at(&mut self, at: u64, bytes: &[u8]) -> Result<(), Failed>
        requires { D.tells → at ≤ length (D.seen self.old.inner) }
        ensures written { D.tells → OnOk result (Holds (D.seen self.old.inner) at bytes.now (D.seen self.new.inner)) }
        ensures torn { D.tells → OnErr result (Torn at (length bytes.now) (D.seen self.old.inner) (D.seen self.new.inner)) }
        ensures crash { D.tells → Follows (Torn at (length bytes.now)) (D.may_leave self.old.inner) (D.left_since self.new.inner (D.moment self.old.inner)) }
        ensures time { D.tells → Ticks (behind D.moment) (behind D.seen) (behind D.may_leave) (behind D.left_since) self.old self.new }
        ensures cause { HasExactCause (D.faults self.old.inner + self.old.blown) (D.faults self.new.inner + self.new.blown) result }
        ensures burns { Burns D.faults self.old self.new result }
    {
        self.pass()?;
        self.inner.write_at(at, bytes)?;
        Ok(())
    }

    fn cut(&mut self, len: u64) -> Result<(), Failed>
        requires { D.tells → len ≤ length (D.seen self.old.inner) }
        ensures cut { D.tells → OnOk result (D.seen self.new.inner ≡ take len (D.seen self.old.inner)) }
        ensures cut_or_not { D.tells → OnErr result ((D.seen self.new.inner ≡ D.seen self.old.inner) ⊎ (D.seen self.new.inner ≡ take len (D.seen self.old.inner))) }
        ensures crash { D.tells → Follows (Shortened len) (D.may_leave self.old.inner) (D.left_since self.new.inner (D.moment self.old.inner)) }
        ensures time { D.tells → Ticks (behind D.moment) (behind D.seen) (behind D.may_leave) (behind D.left_since) self.old self.new }
        ensures cause { HasExactCause (D.faults self.old.inner + self.old.blown) (D.faults self.new.inner + self.new.blown) result }
        ensures burns { Burns D.faults self.old self.new result }
    {
        self.pass()?;
        self.inner.cut(len)?;
        Ok(())
    }

    fn sync(&mut self) -> Result<(), Failed>
        ensures durable { D.tells → OnOk result (Only (D.seen self.old.inner) (D.may_leave self.new.inner)) }
        ensures seen { D.tells → D.seen self.new.inner ≡ D.seen self.old.inner }
        ensures crash { D.tells → Within (D.left_since self.new.inner (D.moment self.old.inner)) (D.may_leave self.old.inner) }
        ensures time { D.tells → Ticks (behind D.moment) (behind D.seen) (behind D.may_leave) (behind D.left_since) self.old self.new }
        ensures cause { HasExactCause (D.faults self.old.inner + self.old.blown) (D.faults self.new.inner + self.new.blown) result }
        ensures burns { Burns D.faults self.old self.new result }
    {
        self.pass()?;
        self.inner.sync()?;
        Ok(())
    }
}
