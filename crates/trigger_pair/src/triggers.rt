//! What the triggers of a table store when a half of a row is written, and what a batch makes of a row.
ghost use Rattle.std.specs.Prelude.{◌≡◌};
ghost use Rattle.std.specs.Option.{option_and_then, option_copied, option_map};
ghost use Rattle.sql_base.specs.Outcome.{Gives};
ghost use Rattle.trigger_pair.specs.Stored as spec;

use crate::pairs::Pair;
use crate::stored::joined;
use crate::views::{is_marked, new_view, old_part, with_all};
use mig_lens::{Side, backward, forward};
use sql_base::{EvalFault, List, Value};
use std::alloc::Global;

/// The row of an old half that is written, and of the new half that is made of it and of the one before.
fn from_old(
    alloc: Global,
    pair: &Pair,
    old: &[Value],
    previous: Option<&[Value]>,
) -> Result<List<Value>, EvalFault>
    ensures { Gives EvalFault.NoMemory (spec.from_old pair.now old.now (option_copied previous.entry)) result }
{
    let new = forward(alloc, &pair.lens, &pair.old, old, previous)?;
    let own = with_all(alloc, List::new(alloc), old)?;
    Ok(joined(
        alloc,
        &pair.lens,
        pair.layout.mark,
        own,
        new.as_slice(),
        false,
    )?)
}

/// The row of a new half that is written, and of the old half that is made of it and of the one before.
fn from_new(
    alloc: Global,
    pair: &Pair,
    new: &[Value],
    previous: Option<&[Value]>,
) -> Result<List<Value>, EvalFault>
    ensures { Gives EvalFault.NoMemory (spec.from_new pair.now new.now (option_copied previous.entry)) result }
{
    let old = backward(alloc, &pair.lens, &pair.new, new, previous)?;
    Ok(joined(alloc, &pair.lens, pair.layout.mark, old, new, false)?)
}

/// The row of an old half that is written over a stored row.
fn over_stored(
    alloc: Global,
    pair: &Pair,
    half: &[Value],
    stored: &[Value],
) -> Result<List<Value>, EvalFault>
    ensures { Gives EvalFault.NoMemory (spec.from_old pair.now half.now (spec.new_half pair.now stored.now)) result }
{
    if is_marked(pair, stored) {
        return from_old(alloc, pair, half, None);
    }
    let before = new_view(alloc, pair, stored)?;
    from_old(alloc, pair, half, Some(before.as_slice()))
}

/// The stored row after a half was written through a side, over the row that was stored, if there was one.
///
/// The other half is made by the lens, from the half that is written and from the other half before; the row isn't
/// marked. An error is the first fault of an expression of the lens, by the order of the columns that are made, and may
/// be `NoMemory` wherever memory was refused.
pub fn fire(
    alloc: Global,
    ctx: &Pair,
    side: Side,
    half: &[Value],
    stored: Option<&[Value]>,
) -> Result<List<Value>, EvalFault>
    ensures { Gives EvalFault.NoMemory (spec.fired ctx.now side half.now (option_copied stored.entry)) result }
{
    match (side, stored) {
        (Side::Old, None) => from_old(alloc, ctx, half, None),
        (Side::Old, Some(row)) => over_stored(alloc, ctx, half, row),
        (Side::New, None) => from_new(alloc, ctx, half, None),
        (Side::New, Some(row)) => from_new(alloc, ctx, half, Some(old_part(ctx, row))),
    }
}

/// The row after it was filled: its old half stays, its new half is made of that without one before, and the row isn't
/// marked.
///
/// It is meant for a marked row. Errors come as with `fire`.
pub fn fill(alloc: Global, ctx: &Pair, stored: &[Value]) -> Result<List<Value>, EvalFault>
    ensures { Gives EvalFault.NoMemory (spec.filled ctx.now stored.now) result }
{
    from_old(alloc, ctx, old_part(ctx, stored), None)
}
