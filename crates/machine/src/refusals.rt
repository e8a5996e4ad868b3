//! Why commands of a migration are refused.
ghost use Rattle.std.specs.Prelude.{◌≡◌, IfOk};
ghost use Rattle.mig_lens.specs.declared.faults.Refusal.TheVariants as Refusal;
ghost use Rattle.machine.specs.Migrate as spec;

use mig_lens::Refusal;
use row_rules::Cause;
use sql_base::{Copying, Name, NoMemory};
use std::alloc::Global;

/// The quantity of this name passes its limit.
pub fn limit(alloc: Global, which: &[u8]) -> Result<Refusal, NoMemory>
    ensures { IfOk result (λ refusal. refusal ≡ Refusal.Limit which.now) }
{
    Ok(Refusal::Limit(Name::from_slice(alloc, which)?))
}

/// P19: a row of a batch isn't accepted, in the table of this new name.
pub fn refused_batch(alloc: Global, table: &Name, cause: &Cause) -> Result<Refusal, NoMemory>
    ensures { IfOk result (λ refusal. refusal ≡ spec.refused_batch table.now cause.now) }
{
    Ok(Refusal::BackfillRefused(table.copy(alloc)?, cause.key, cause.code))
}

/// P5: a row of this key doesn't meet the constraint of this name.
pub fn not_valid(broken: (Name, i64)) -> Refusal
    ensures { result ≡ spec.not_valid broken }
{
    let (name, key) = broken;
    Refusal::NotValid(name, key)
}
