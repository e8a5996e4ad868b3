//! Reading to the end, and writing whole pieces.
ghost use Rattle.std.specs.Prelude.{◌≡◌, ◌⊎◌, ◌≤◌, [], length, IfOk, IsOk, OnOk, OnErr, IsErrOf};
ghost use Rattle.std.specs.Io.KnownBytes.{Appends};
ghost use Rattle.pg_io.specs.Causes.{Rose, HasExactCause};
ghost use Rattle.pg_io.specs.Outside.{ReadsWhole, ReadsFront, PassesLimit, IsWithin, IsBeyond, Cut, known};

use crate::{Failed, Sink, Source};
use std::alloc::{AllocError, Global};

/// Why an input wasn't read to its end.
#[derive(Clone, Copy, Debug, PartialEq, Eq)]
pub enum InputFault {
    /// A read failed.
    Failed,
    /// There are more bytes than the limit.
    TooLong,
    /// Memory was wanting.
    NoMemory,
}

impl From<Failed> for InputFault {
    ghost use Rattle.pg_io.specs.declared.whole.InputFault.TheVariants.{Failed as ReadFailed};

    ghost from_gives = { λ _ e. e ≡ ReadFailed };

    fn from(_fault: Failed) -> Self {
        InputFault::Failed
    }
}

impl From<AllocError> for InputFault {
    ghost use Rattle.pg_io.specs.declared.whole.InputFault.TheVariants.{NoMemory};

    ghost from_gives = { λ _ e. e ≡ NoMemory };

    fn from(_error: AllocError) -> Self {
        InputFault::NoMemory
    }
}

/// Reads an input to its end, where it has at most `limit` bytes.
///
/// `Failed` comes where a read failed, `TooLong` where more than `limit` bytes were there, and `NoMemory` where
/// memory was wanting. After each of them what was read is lost: the input stands behind it.
pub fn read_whole<S: Source>(
    alloc: Global,
    input: &mut S,
    limit: usize,
) -> Result<Vec<u8>, InputFault>
    ensures whole { IfOk result (λ text. ReadsWhole (S.left input.old) (S.left input.new) text.items) }
    ensures short { IfOk result (λ text. length text.items ≤ limit) }
    ensures front { OnErr result (ReadsFront (S.left input.old) (S.left input.new)) }
    ensures failed { IsErrOf result InputFault.Failed → Rose (S.faults input.old) (S.faults input.new) }
    ensures too_long { IsErrOf result InputFault.TooLong → PassesLimit limit (S.left input.old) (S.left input.new) }
    ensures passed { IsErrOf result InputFault.Failed ⊎ (S.faults input.new ≡ S.faults input.old) }
    ensures later { S.faults input.old ≤ S.faults input.new }

    // Where nothing failed, a known input is read where it is within the limit, unless memory is wanting.
    ensures within { IsWithin limit (S.left input.old) → ¬ Rose (S.faults input.old) (S.faults input.new) → IsOk result ⊎ IsErrOf result InputFault.NoMemory }
    ensures beyond { IsBeyond limit (S.left input.old) → ¬ Rose (S.faults input.old) (S.faults input.new) → IsErrOf result InputFault.TooLong ⊎ IsErrOf result InputFault.NoMemory }
{
    gather(alloc, input, limit)
}

// Reads till nothing comes or more than `limit` bytes have come.
fn gather<S: Source>(alloc: Global, input: &mut S, limit: usize) -> Result<Vec<u8>, InputFault>
    ensures whole { IfOk result (λ text. ReadsWhole (S.left input.old) (S.left input.new) text.items) }
    ensures short { IfOk result (λ text. length text.items ≤ limit) }
    ensures front { OnErr result (ReadsFront (S.left input.old) (S.left input.new)) }
    ensures failed { IsErrOf result InputFault.Failed → Rose (S.faults input.old) (S.faults input.new) }
    ensures too_long { IsErrOf result InputFault.TooLong → PassesLimit limit (S.left input.old) (S.left input.new) }
    ensures passed { IsErrOf result InputFault.Failed ⊎ (S.faults input.new ≡ S.faults input.old) }
    ensures later { S.faults input.old ≤ S.faults input.new }
{
    let mut text = Vec::new(alloc);
    let mut buf = [0; 4096];
    loop {
        let count = input.read(&mut buf)?;
        if count == 0 {
            return Ok(text);
        }
        if count > limit - text.len() {
            return Err(InputFault::TooLong);
        }
        text.extend_from_slice(&buf[..count])?;
    }
}

/// Writes all of these bytes. `Failed` comes where a write failed; then a front of them, and not all, was written.
pub fn write_whole<K: Sink>(out: &mut K, bytes: &[u8]) -> Result<(), Failed>
    ensures whole { OnOk result (Appends (K.held out.old) (K.held out.new) bytes.now) }
    ensures cut { OnErr result (Cut (known K.held K.faults out.old out.new) [] bytes.now) }
    ensures cause { HasExactCause (K.faults out.old) (K.faults out.new) result }
{
    let mut written = 0;
    while written < bytes.len() {
        written += out.write(&bytes[written..])?;
    }
    Ok(())
}
