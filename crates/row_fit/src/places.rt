//! Rows that fit the stored places of a table, once one of its two versions is gone.
ghost use Rattle.std.specs.Prelude.{◌≡◌};
ghost use Rattle.phase_steps.specs.Rows as rows;

use crate::rest::{is_all, rest_of_carried, rest_of_places, rest_of_shadows};
use sql_base::Value;
use trigger_pair::Pair;

/// Whether a row fits the layout of a table that both versions have: as many values as places, each NULL or of its
/// place's type.
///
/// Such rows are stored between C1 and C2, and between B1 and B2. The rule is our own.
#[tactic(auto, using(crate::proofs::Rests::all_places))]
pub fn fits_laid(pair: &Pair, values: &[Value]) -> bool
    ensures { result ≡ rows.fits_places pair.now.layout.columns values.now }
{
    is_all(rest_of_places(pair.layout.columns.as_slice(), values))
}

/// Whether a row fits what C2 leaves of that layout: a value for each old column that is carried, and one for each
/// shadow place, each NULL or of its place's type.
///
/// Such rows are stored between C2 and C3. The rule is our own.
#[tactic(auto, using(crate::proofs::Rests::all_places, crate::proofs::Rests::rest_joined))]
pub fn fits_trimmed(pair: &Pair, values: &[Value]) -> bool
    ensures { result ≡ rows.fits_places (rows.trimmed_columns pair.now) values.now }
{
    let old_cols = pair.lens.old_cols.as_slice();
    let Some(shadows) = rest_of_carried(pair.old.columns.as_slice(), old_cols, values) else {
        return false;
    };
    let new_cols = pair.lens.new_cols.as_slice();
    is_all(rest_of_shadows(pair.new.columns.as_slice(), new_cols, shadows))
}
