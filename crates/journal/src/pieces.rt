//! What stands at a gate.
ghost use Rattle.std.specs.Prelude.{◌≡◌, ◌⊎◌, ℕ, ◌≤◌, ◌<◌, ◌+◌, ◌^◌, length, IfOk, IfSome, IsErrOf, Ok, Err, None};
ghost use Rattle.std.specs.Bool.{OnTrue, OnFalse};
ghost use Rattle.std.specs.Int.{w32, to_be_bytes};
ghost use Rattle.pg_io.specs.Causes.{Rose};
ghost use Rattle.pg_io.specs.Disk.{Still};
ghost use Rattle.journal.specs.Records.{IsRecord, IsPieceAt, IsShutAt, IsBadAt};

use pg_io::{Disk, Failed};
use std::alloc::{AllocError, Global};

/// The most bytes that a record may have.
pub const RECORD_LIMIT: u32 = 134_217_728;

/// Why the next record of a journal couldn't be read.
#[derive(Clone, Copy, Debug, PartialEq, Eq)]
pub enum JournalFault {
    /// The disk failed.
    Failed,
    /// No record stands behind the gate at this offset, or no gate there.
    BadRecord { at: u64 },
    /// Memory was wanting.
    NoMemory,
}

impl From<Failed> for JournalFault {
    ghost use Rattle.std.specs.Prelude.{◌≡◌};
    ghost use Rattle.journal.specs.declared.pieces.JournalFault.TheVariants.{Failed as Broken};

    ghost from_gives = { λ _ e. e ≡ Broken };

    fn from(_: Failed) -> Self {
        JournalFault::Failed
    }
}

// The length that these bytes are.
fn length_of(lead: [u8; 4]) -> u32
    ensures bytes { to_be_bytes w32 result ≡ lead }
    ensures fits { result < 2 ^ 32 }
{
    u32::from_be_bytes(lead)
}

// Whether a record may have this length, where so many bytes are left for it.
fn is_length(len: u32, left: u64) -> bool
    ensures yes { OnTrue result ((1 ≤ len) × (len ≤ 134217728) × (len ≤ left)) }
    ensures no { OnFalse result ((len ≡ 0) ⊎ ((134217728 < len) ⊎ (left < len))) }
{
    len != 0 && len <= RECORD_LIMIT && len as u64 <= left
}

/// The record at this offset, or none where a closed gate stands there.
pub fn read_piece<D: Disk>(
    alloc: Global,
    disk: &mut D,
    at: u64,
) -> Result<Option<Vec<u8>>, JournalFault>
    ensures still { D.tells → Still D.moment D.seen D.may_leave D.left_since disk.old disk.new }
    ensures record { IfOk result (λ o. IfSome o (λ body. IsRecord body.items)) }
    ensures fits { IfOk result (λ o. IfSome o (λ body. at + 5 + length body.items < 2 ^ 64)) }
    ensures piece { D.tells → IfOk result (λ o. IfSome o (λ body. IsPieceAt (D.seen disk.old) at body.items)) }
    ensures shut { D.tells → result ≡ Ok None → IsShutAt (D.seen disk.old) at }
    ensures bad { (place : ℕ) → result ≡ Err (JournalFault.BadRecord place) → (place ≡ at) × (D.tells → IsBadAt (D.seen disk.old) at) }
    ensures sound { D.tells → IsErrOf result JournalFault.NoMemory → ¬ IsBadAt (D.seen disk.old) at }
    ensures failed { IsErrOf result JournalFault.Failed → Rose (D.faults disk.old) (D.faults disk.new) }
    ensures passed { IsErrOf result JournalFault.Failed ⊎ (D.faults disk.new ≡ D.faults disk.old) }
    ensures later { D.faults disk.old ≤ D.faults disk.new }
{
    let bad = JournalFault::BadRecord { at };
    let end = disk.len()?;
    if end <= at {
        return Err(bad);
    }
    let mut gate = [0; 1];
    disk.read_at(at, &mut gate)?;
    if gate[0] != 1 {
        return Ok(None);
    }
    if end - at < 5 {
        return Err(bad);
    }
    let mut lead = [0; 4];
    disk.read_at(at + 1, &mut lead)?;
    let len = length_of(lead);
    if !is_length(len, end - at - 5) {
        return Err(bad);
    }
    let Ok(mut body) = Vec::from_elem(alloc, 0, len as usize) else {
        return Err(JournalFault::NoMemory);
    };
    disk.read_at(at + 5, &mut body)?;
    Ok(Some(body))
}
