//! A write that is on the disk when it is done.
ghost use Rattle.std.specs.Prelude.{◌≡◌, ◌≤◌, length, OnOk};
ghost use Rattle.pg_io.specs.Causes.{HasExactCause};
ghost use Rattle.pg_io.specs.Disk.{Holds, Torn, Only, Within, LeavesOnly};

use pg_io::{Disk, Failed};

pub fn write_through<D: Disk>(disk: &mut D, at: u64, bytes: &[u8]) -> Result<(), Failed>
    requires room { D.tells → at ≤ length (D.seen disk.old) }
    requires durable { D.tells → Only (D.seen disk.old) (D.may_leave disk.old) }

    // Both at each moment of the call and after it a crash leaves the old file, but for what stands in the range.
    ensures moments { D.tells → LeavesOnly D.moment D.left_since disk.old disk.new (Torn at (length bytes.now) (D.seen disk.old)) }
    ensures now { D.tells → Within (D.may_leave disk.new) (Torn at (length bytes.now) (D.seen disk.old)) }

    ensures written { D.tells → OnOk result (Holds (D.seen disk.old) at bytes.now (D.seen disk.new)) }
    ensures durable { D.tells → OnOk result (Only (D.seen disk.new) (D.may_leave disk.new)) }
    ensures cause { HasExactCause (D.faults disk.old) (D.faults disk.new) result }
{
    disk.write_at(at, bytes)?;
    disk.sync()?;
    Ok(())
}
