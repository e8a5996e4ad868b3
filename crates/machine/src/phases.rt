//! How far a migration has come in a state.
ghost use Rattle.std.specs.Prelude.{◌≡◌};
ghost use Rattle.std.specs.Option.{option_copied};
ghost use Rattle.phase_steps.specs.Phases.{phase_lent};
ghost use Rattle.machine.specs.Migrate as spec;

use crate::states::{Mode, State};
use phase_steps::PhaseRef;
use sql_base::Name;

fn active_name(mode: &Mode) -> Option<&Name>
    ensures { option_copied result ≡ spec.active_name mode.now }
{
    match mode {
        Mode::Calm => None,
        Mode::Both { name, .. } => Some(name),
    }
}

/// How far a migration has come: the versions' names, and the steps of tidying that are left.
pub fn phase_of(s: &State) -> PhaseRef<'_>
    ensures { phase_lent result ≡ spec.phase_of s.now }
{
    PhaseRef {
        version: &s.version,
        active: active_name(&s.mode),
        left: s.left,
        kind: s.kind,
    }
}
