//! Which commands of a migration may come in a phase, and which step each of them takes next.
ghost use Rattle.std.specs.Prelude.{◌≡◌, IfOk};
ghost use Rattle.std.specs.Option.{option_copied};
ghost use Rattle.phase_steps.specs.Phases as spec;

use mig_lens::{Kind, Migration, Refusal};
use sql_base::{Copying, Name, NoMemory};
use std::alloc::Global;

/// A command of a migration.
#[derive(Drop)]
pub enum Cmd {
    /// The migration is to be started.
    Start(Migration),
    /// The active migration is to be completed, or the next step of tidying after that to be done.
    Complete,
    /// The active migration is to be rolled back, or the step of tidying after that to be done.
    Rollback,
    /// A batch of at most so many rows is to be filled.
    Batch(u32),
    /// The phase is asked for.
    Status,
}

/// How far a migration has come.
#[derive(Drop)]
pub struct Phase {
    /// The current version's name, without `public_`.
    pub version: Name,
    /// The new version's name, without `public_`, while a migration is active.
    pub active: Option<Name>,
    /// How many steps of tidying are left: 2 or 1 of completing, 1 of rolling back, 0 where none are.
    pub left: u8,
    /// Which steps these are.
    pub kind: Kind,
}

// ---- refusals

/// P3: steps of tidying are left, of this kind.
pub fn unfinished(kind: Kind) -> Option<Refusal>
    ensures { result ≡ spec.unfinished kind }
{
    match kind {
        Kind::Nothing => None,
        Kind::Complete => Some(Refusal::Unfinished(Kind::Complete)),
        Kind::Rollback => Some(Refusal::Unfinished(Kind::Rollback)),
    }
}

// P1: a migration of this name is active.
fn already(alloc: Global, active: Option<&Name>) -> Result<Option<Refusal>, NoMemory>
    ensures { IfOk result (λ refusal. refusal ≡ spec.already (option_copied active.entry)) }
{
    match active {
        Some(name) => Ok(Some(Refusal::AlreadyActive(name.copy(alloc)?))),
        None => Ok(None),
    }
}

/// P2: no migration is active.
pub fn inactive(active: Option<&Name>) -> Option<Refusal>
    ensures { result ≡ spec.inactive (option_copied active.entry) }
{
    match active {
        Some(_) => None,
        None => Some(Refusal::NoActive),
    }
}

// P6: the current version has the migration's name.
fn taken(alloc: Global, version: &Name, name: &Name) -> Result<Option<Refusal>, NoMemory>
    ensures { IfOk result (λ refusal. refusal ≡ spec.taken version.now name.now) }
{
    if name.as_slice() == version.as_slice() {
        Ok(Some(Refusal::NameTaken(name.copy(alloc)?)))
    } else {
        Ok(None)
    }
}

/// A phase, lent by its parts.
#[derive(Clone, Copy)]
pub struct PhaseRef<'a> {
    /// The current version's name.
    pub version: &'a Name,
    /// The new version's name, while a migration is active.
    pub active: Option<&'a Name>,
    /// How many steps of tidying are left.
    pub left: u8,
    /// Which steps these are.
    pub kind: Kind,
}

fn lent(phase: &Phase) -> PhaseRef<'_>
    ensures { spec.phase_lent result ≡ phase.now }
{
    PhaseRef {
        version: &phase.version,
        active: phase.active.as_ref(),
        left: phase.left,
        kind: phase.kind,
    }
}

// ---- which commands may come

/// Why a migration of this name can't be started in a phase: steps of tidying are left (P3), a migration is active (P1), or
/// the current version has the name (P6). An error is want of memory.
pub fn may_start(
    alloc: Global,
    name: &Name,
    phase: PhaseRef<'_>,
) -> Result<Option<Refusal>, NoMemory>
    ensures { IfOk result (λ refusal. refusal ≡ spec.may_start name.now (spec.phase_lent phase.entry)) }
{
    if let Some(refusal) = unfinished(phase.kind) {
        return Ok(Some(refusal));
    }
    if let Some(refusal) = already(alloc, phase.active)? {
        return Ok(Some(refusal));
    }
    taken(alloc, phase.version, name)
}

/// Why no batch can be filled in a phase: steps of tidying are left (P3), or no migration is active (P2).
pub fn may_fill(phase: PhaseRef<'_>) -> Option<Refusal>
    ensures { result ≡ spec.may_fill (spec.phase_lent phase.entry) }
{
    match unfinished(phase.kind) {
        Some(refusal) => Some(refusal),
        None => inactive(phase.active),
    }
}

/// Why no step of completing can come in a phase: steps of rolling back are left (P3), or no migration is active and no step
/// of completing is left (P2).
pub fn may_complete(phase: PhaseRef<'_>) -> Option<Refusal>
    ensures { result ≡ spec.may_complete (spec.phase_lent phase.entry) }
{
    match phase.kind {
        Kind::Nothing => inactive(phase.active),
        Kind::Complete => None,
        Kind::Rollback => Some(Refusal::Unfinished(Kind::Rollback)),
    }
}

/// Why no step of rolling back can come in a phase: steps of completing are left (P3), or no migration is active and no step
/// of rolling back is left (P2).
pub fn may_roll_back(phase: PhaseRef<'_>) -> Option<Refusal>
    ensures { result ≡ spec.may_roll_back (spec.phase_lent phase.entry) }
{
    match phase.kind {
        Kind::Nothing => inactive(phase.active),
        Kind::Complete => Some(Refusal::Unfinished(Kind::Complete)),
        Kind::Rollback => None,
    }
}

/// Why a command can't come in a phase, as far as names and steps say: P3, P1 and P6 of a start, in this order; P3 and P2 of
/// completing, of rolling back and of a batch. An error is want of memory.
pub fn may(alloc: Global, cmd: &Cmd, phase: &Phase) -> Result<Option<Refusal>, NoMemory>
    ensures { IfOk result (λ refusal. refusal ≡ spec.may cmd.now phase.now) }
{
    match cmd {
        Cmd::Start(migration) => may_start(alloc, &migration.name, lent(phase)),
        Cmd::Complete => Ok(may_complete(lent(phase))),
        Cmd::Rollback => Ok(may_roll_back(lent(phase))),
        Cmd::Batch(_) => Ok(may_fill(lent(phase))),
        Cmd::Status => Ok(None),
    }
}

// ---- which step comes next

fn next_completing(phase: &Phase) -> Option<u8>
    ensures { result ≡ spec.next_completing phase.now }
{
    match phase.kind {
        Kind::Nothing => match phase.active {
            Some(_) => Some(1),
            None => None,
        },
        Kind::Complete if phase.left == 2 => Some(2),
        Kind::Complete => Some(3),
        Kind::Rollback => None,
    }
}

fn next_rolling_back(phase: &Phase) -> Option<u8>
    ensures { result ≡ spec.next_rolling_back phase.now }
{
    match phase.kind {
        Kind::Nothing => match phase.active {
            Some(_) => Some(4),
            None => None,
        },
        Kind::Complete => None,
        Kind::Rollback => Some(5),
    }
}

/// The step that a command takes in a phase, where nothing in the rows stands against it: 1, 2 and 3 are C1, C2 and C3 of
/// completing, 4 and 5 are B1 and B2 of rolling back.
///
/// `None` where it takes none of these: where `may` refuses it, and for a start, a batch and the status. It takes no memory.
pub fn next_step(cmd: &Cmd, phase: &Phase) -> Option<u8>
    ensures { result ≡ spec.next_step cmd.now phase.now }
{
    match cmd {
        Cmd::Complete => next_completing(phase),
        Cmd::Rollback => next_rolling_back(phase),
        Cmd::Start(_) | Cmd::Batch(_) | Cmd::Status => None,
    }
}
