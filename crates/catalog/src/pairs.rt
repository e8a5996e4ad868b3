//! The tables that both of a migration's versions have.
ghost use Rattle.std.specs.Prelude.{◌≡◌, ◌==◌, find};
ghost use Rattle.std.specs.Option.{option_copied, option_map};
ghost use Rattle.mig_lens.specs.Plan.{lens_in, shape_numbered};
ghost use Rattle.catalog.specs.Places as lent;
ghost use Rattle.catalog.specs.Views as spec;

use crate::versions::{Known, Stage};
use mig_lens::{Fate, Lens};
use sql_base::{Schema, Shape};

/// A table's shapes in the version before and in the one that the migration makes, and the lens between them.
#[derive(Clone, Copy)]
pub(crate) struct PairRef<'a> {
    pub old: &'a Shape,
    pub new: &'a Shape,
    pub lens: &'a Lens,
}

fn shape_numbered(schema: &Schema, number: u32) -> Option<&Shape>
    ensures { option_copied result ≡ shape_numbered schema.now number }
{
    let tables = schema.tables.as_slice();
    match tables.iter().find(|table| table.1 == number) {
        Some(table) => Some(&table.2),
        None => None,
    }
}

pub(crate) fn lens_in(fate: &Fate) -> Option<&Lens>
    ensures { option_copied result ≡ lens_in fate.now }
{
    match fate {
        Fate::Kept(lens) => Some(lens),
        Fate::Created | Fate::Dropped => None,
    }
}

fn fate_numbered(fates: &[(u32, Fate)], number: u32) -> Option<&(u32, Fate)>
    ensures { option_copied result ≡ find (λ fate. fate.0 == number) fates.now }
{
    fates.iter().find(|fate| fate.0 == number)
}

fn lens_among(fates: &[(u32, Fate)], number: u32) -> Option<&Lens>
    ensures { option_copied result ≡ spec.lens_among fates.now number }
{
    match fate_numbered(fates, number) {
        Some(fate) => lens_in(&fate.1),
        None => None,
    }
}

fn pair_among<'a>(
    before: &'a Schema,
    after: &'a Schema,
    fates: &'a [(u32, Fate)],
    number: u32,
) -> Option<PairRef<'a>>
    ensures { option_map lent.pair result ≡ spec.pair_among before.now after.now fates.now number }
{
    match (
        shape_numbered(before, number),
        shape_numbered(after, number),
        lens_among(fates, number),
    ) {
        (Some(old), Some(new), Some(lens)) => Some(PairRef { old, new, lens }),
        _ => None,
    }
}

/// The table of a number in both of a migration's versions, where both have it.
pub(crate) fn pair_in(known: &Known, number: u32) -> Option<PairRef<'_>>
    ensures { option_map lent.pair result ≡ spec.pair_in known.now number }
{
    let current = &known.schema;
    match &known.stage {
        Stage::Calm => None,
        Stage::Both { schema, fates, .. } => pair_among(current, schema, fates.as_slice(), number),
        Stage::AfterFirst { lost, fates } | Stage::AfterSecond { lost, fates } => {
            pair_among(lost, current, fates.as_slice(), number)
        }
        Stage::RolledBack { lost, fates } => pair_among(current, lost, fates.as_slice(), number),
    }
}
