//! What the lines of an input ask for.
ghost use Rattle.std.specs.Prelude.{◌≡◌, ◌≢◌, IfOk, codes};
ghost use Rattle.mig_json.specs.declared.faults.JsonFault.TheVariants as JsonFault;
ghost use Rattle.pgroll_top.specs.Work as spec;

use machine::Asked;
use mig_json::{JsonFault, read_migration};
use mig_lens::Refusal;
use sql_base::{Name, NoMemory};
use std::alloc::Global;

// The refusal of a text that is too long.
fn too_long(alloc: Global) -> Result<Refusal, NoMemory>
    ensures { IfOk result (λ refusal. refusal ≡ Refusal.Limit (codes "migration")) }
{
    Ok(Refusal::Limit(Name::from_slice(alloc, b"migration")?))
}

// Why a migration whose text has this fault isn't started. An error is want of memory.
fn refusal_of(alloc: Global, fault: JsonFault) -> Result<Refusal, NoMemory>
    ensures { IfOk result (λ refusal. (fault ≢ JsonFault.NoMemory) × (refusal ≡ spec.refusal_of fault)) }
{
    match fault {
        JsonFault::TooLong { .. } => Ok(too_long(alloc)?),
        JsonFault::Json(path) => Ok(Refusal::BadJson(path)),
        JsonFault::BadExpr(place) => Ok(Refusal::BadExpr(place)),
        JsonFault::BadType(place) => Ok(Refusal::BadType(place)),
        JsonFault::NoMemory => Err(NoMemory),
    }
}

/// What the text of a migration asks for. An error is want of memory.
pub fn asked(alloc: Global, text: &[u8]) -> Result<Asked, NoMemory>
    ensures { IfOk result (λ asked. spec.AsksFor text.now asked) }
{
    match read_migration(alloc, text) {
        Ok(migration) => Ok(Asked::Read(migration)),
        Err(fault) => Ok(Asked::Refused(refusal_of(alloc, fault)?)),
    }
}
