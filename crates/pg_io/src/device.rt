//! A disk as a program sees it: what a read gives, and what a crash may leave.
ghost use Rattle.std.specs.Prelude.{◌≡◌, ◌⊎◌, ◌≤◌, ◌+◌, List, ℕ, length, take, drop, IfOk, OnOk, OnErr};
ghost use Rattle.pg_io.specs.Causes.{HasExactCause};
ghost use Rattle.pg_io.specs.Disk.{Holds, Torn, Shortened, Follows, Only, Within, Ticks, Still};

use crate::Failed;

/// One file that bytes are read from and written to, at offsets in bytes.
///
/// Between two syncs a crash may leave any bytes where something was written or past the old end, and leaves all
/// other bytes as they were. Each call may fail; `Failed` comes only where the count of faults rose.
pub trait Disk {
    // Whether it tells its content: the clauses on content are of disks that do.
    ghost tells: { Type 0 };

    // the bytes that a read gives
    ghost seen: { Self → List ℕ };

    // what a crash at this moment may leave
    ghost may_leave: { Self → List ℕ → Type 0 };

    // a clock that never falls
    ghost moment: { Self → ℕ };

    // what a crash at some moment from that one on might have left, during a call or between two
    ghost left_since: { Self → ℕ → List ℕ → Type 0 };

    // how often it has failed
    ghost faults: { Self → ℕ };

    /// How many bytes there are.
    fn len(&mut self) -> Result<u64, Failed>
        ensures len { tells → IfOk result (λ n. n ≡ length (seen self.old)) }
        ensures still { tells → Still moment seen may_leave left_since self.old self.new }
        ensures cause { HasExactCause (faults self.old) (faults self.new) result };

    /// Fills the whole buffer with the bytes from `at` on. All of them are to be there.
    fn read_at(&mut self, at: u64, buf: &mut [u8]) -> Result<(), Failed>
        requires { tells → at + length buf.old ≤ length (seen self.old) }
        ensures bytes { tells → OnOk result (buf.new ≡ take (length buf.old) (drop at (seen self.old))) }
        ensures still { tells → Still moment seen may_leave left_since self.old self.new }
        ensures cause { HasExactCause (faults self.old) (faults self.new) result };

    /// Writes all of these bytes over what is there from `at` on, and past the end, which `at` is not to pass.
    /// After `Failed` there may be any bytes in their place.
    fn write_at(&mut self, at: u64, bytes: &[u8]) -> Result<(), Failed>
        requires { tells → at ≤ length (seen self.old) }
        ensures written { tells → OnOk result (Holds (seen self.old) at bytes.now (seen self.new)) }
        ensures torn { tells → OnErr result (Torn at (length bytes.now) (seen self.old) (seen self.new)) }
        ensures crash { tells → Follows (Torn at (length bytes.now)) (may_leave self.old) (left_since self.new (moment self.old)) }
        ensures time { tells → Ticks moment seen may_leave left_since self.old self.new }
        ensures cause { HasExactCause (faults self.old) (faults self.new) result };

    /// Cuts the file to `len` bytes, which are to be there. After `Failed` it was cut or wasn't.
    fn cut(&mut self, len: u64) -> Result<(), Failed>
        requires { tells → len ≤ length (seen self.old) }
        ensures cut { tells → OnOk result (seen self.new ≡ take len (seen self.old)) }
        ensures cut_or_not { tells → OnErr result ((seen self.new ≡ seen self.old) ⊎ (seen self.new ≡ take len (seen self.old))) }
        ensures crash { tells → Follows (Shortened len) (may_leave self.old) (left_since self.new (moment self.old)) }
        ensures time { tells → Ticks moment seen may_leave left_since self.old self.new }
        ensures cause { HasExactCause (faults self.old) (faults self.new) result };

    /// After it, a crash leaves what a read gives.
    fn sync(&mut self) -> Result<(), Failed>
        ensures durable { tells → OnOk result (Only (seen self.old) (may_leave self.new)) }
        ensures seen { tells → seen self.new ≡ seen self.old }
        ensures crash { tells → Within (left_since self.new (moment self.old)) (may_leave self.old) }
        ensures time { tells → Ticks moment seen may_leave left_since self.old self.new }
        ensures cause { HasExactCause (faults self.old) (faults self.new) result };

    // the disk as it reads is one of its images
    ghost reads: { tells → (disk : Self) → may_leave disk (seen disk) };

    // this moment is one of those since an earlier one
    ghost counts_now: { tells → (disk : Self) (t : ℕ) (c : List ℕ) → t ≤ moment disk → may_leave disk c → left_since disk t c };

    // since this moment there is no other
    ghost only_now: { tells → (disk : Self) (c : List ℕ) → left_since disk (moment disk) c → may_leave disk c };
}
