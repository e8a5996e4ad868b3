//! Which constraints all rows of a table are known to meet.
ghost use Rattle.std.specs.Prelude.{◌≡◌};
ghost use Rattle.std.specs.List.{list_any};
ghost use Rattle.std.specs.Option.{option_copied};
ghost use Rattle.std.specs.Str.{bytes_eq};
ghost use Rattle.mig_lens.specs.Plan.{key_name};
ghost use Rattle.catalog.specs.Valid as spec;
ghost use Rattle.catalog.specs.Versions as versions;

use crate::finding::tables_on;
use crate::pairs::pair_in;
use crate::places::has_mark;
use crate::versions::Known;
use mig_lens::Side;
use sql_base::{Check, Name, Shape, Unique};

/// Whether a name is that of the constraint which a table's key is.
fn is_key_name(table: &Name, name: &Name) -> bool
    ensures { result ≡ bytes_eq name.now (key_name table.now) }
{
    match name.as_slice().strip_suffix(b"_pkey") {
        Some(rest) => rest == table.as_slice(),
        None => false,
    }
}

fn has_check(checks: &[Check], name: &Name) -> bool
    ensures { result ≡ list_any (λ check. bytes_eq name.now check.name) checks.now }
{
    checks
        .iter()
        .any(|check| name.as_slice() == check.name.as_slice())
}

fn has_unique(uniques: &[Unique], name: &Name) -> bool
    ensures { result ≡ list_any (λ unique. bytes_eq name.now unique.name) uniques.now }
{
    uniques
        .iter()
        .any(|unique| name.as_slice() == unique.name.as_slice())
}

/// Whether a table of this shape has a check or a unique constraint of this name.
#[tactic(auto, using(crate::proofs::Constraints::has_name))]
fn is_added(shape: &Shape, name: &Name) -> bool
    ensures { result ≡ list_any (bytes_eq name.now) (spec.added_names shape.now) }
{
    has_check(shape.checks.as_slice(), name) || has_unique(shape.uniques.as_slice(), name)
}

/// The table of a number in the version of a side.
fn table_on(known: &Known, side: Side, number: u32) -> Option<&(Name, u32, Shape)>
    ensures { option_copied result ≡ versions.table_on known.now side number }
{
    tables_on(known, side)
        .iter()
        .find(|table| table.1 == number)
}

fn has_added(table: Option<&(Name, u32, Shape)>, name: &Name) -> bool
    ensures { result ≡ spec.has_added (option_copied table.entry) name.now }
{
    match table {
        Some(table) => is_added(&table.2, name),
        None => false,
    }
}

fn has_constraint(table: Option<&(Name, u32, Shape)>, name: &Name) -> bool
    ensures { result ≡ spec.has_constraint (option_copied table.entry) name.now }
{
    match table {
        Some(table) => is_key_name(&table.0, name) || is_added(&table.2, name),
        None => false,
    }
}

/// Whether both versions have the table, and no new column has to be made.
fn gets_no_fill(known: &Known, number: u32) -> bool
    ensures { result ≡ spec.gets_no_fill known.now number }
{
    match pair_in(known, number) {
        Some(pair) => !has_mark(pair.lens),
        None => false,
    }
}

/// Whether the constraint of a name in a table is valid; `None` where no version that stands has it.
pub(crate) fn valid(known: &Known, number: u32, name: &Name) -> Option<bool>
    ensures { result ≡ spec.valid known.now number name.now }
{
    let old = table_on(known, Side::Old, number);
    let new = table_on(known, Side::New, number);
    let was = has_constraint(old, name);
    if !was && !has_constraint(new, name) {
        return None;
    }
    let made = has_added(new, name) && !was;
    Some(!(made && gets_no_fill(known, number)))
}
