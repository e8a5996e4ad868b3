//! ROLLBACK: the old version alone stands again, and what is left of the new one is tidied away.
ghost use Rattle.std.specs.Prelude.{◌≡◌, IfOk};
ghost use Rattle.row_rules.specs.Outcome.{Answers};
ghost use Rattle.machine.specs.Migrate as spec;
ghost use Rattle.machine.specs.Plain.{replied, told};

use crate::events::Reply;
use crate::states::{Mode, State};
use crate::staying::{Ending, standing_alone, without_loss};
use mig_lens::{Fate, Kind, Refusal, Side};
use row_rules::Stop;
use sql_base::NoMemory;
use std::alloc::Global;

// The old version alone stands again, with one step of tidying left.
fn old_alone(alloc: Global, s: &State, fates: &[(u32, Fate)]) -> Result<State, NoMemory>
    ensures { IfOk result (λ t. t ≡ spec.standing_alone spec.by_rolling_back s.now.version s.now.schema fates.now s.now) }
{
    let ending = Ending {
        gone: Side::New,
        kind: Kind::Rollback,
        left: 1,
    };
    standing_alone(alloc, ending, &s.version, &s.schema, fates, s)
}

fn roll_back(alloc: Global, s: &State) -> Result<(Reply, State), Stop<Refusal>>
    ensures { Answers (replied (spec.roll_back s.now s.now.mode)) result }
{
    match &s.mode {
        Mode::Calm => Err(Stop::Because(Refusal::NoActive)),
        Mode::Both { fates, .. } => {
            let after = old_alone(alloc, s, fates.as_slice())?;
            Ok((Reply::Rollback(1), after))
        }
    }
}

fn tidy_back(alloc: Global, s: &State) -> Result<(Reply, State), NoMemory>
    ensures { IfOk result (λ done. done ≡ told (spec.tidied_back s.now)) }
{
    let after = without_loss(alloc, 0, Kind::Nothing, s)?;
    Ok((Reply::Rollback(2), after))
}

/// ROLLBACK does one step: where a step of rolling back is left, that one; else the return to the old version.
pub fn rollback(alloc: Global, s: &State) -> Result<(Reply, State), Stop<Refusal>>
    ensures { Answers (replied (spec.rollback s.now)) result }
{
    match s.kind {
        Kind::Nothing => roll_back(alloc, s),
        Kind::Complete => Err(Stop::Because(Refusal::Unfinished(Kind::Complete))),
        Kind::Rollback => Ok(tidy_back(alloc, s)?),
    }
}
