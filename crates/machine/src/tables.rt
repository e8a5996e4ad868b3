//! Where a statement finds its table in a state, and what both versions have of it.
ghost use Rattle.std.specs.Prelude.{◌≡◌, ◌==◌, find};
ghost use Rattle.std.specs.Option.{option_copied, option_map};
ghost use Rattle.std.specs.Str.{bytes_eq};
ghost use Rattle.mig_lens.specs.Plan.{lens_in, table_numbered};
ghost use Rattle.row_rules.specs.Site as sites;
ghost use Rattle.row_rules.specs.Site.{name_of};
ghost use Rattle.machine.specs.State as spec;
ghost use Rattle.machine.specs.Plain as plain;

use crate::states::{Mode, State};
use mig_lens::{Fate, Lens, Side};
use row_rules::{BesideRef, Kept, SiteRef, Table};
use sql_base::{Name, Schema};

/// A version that stands: its side, and its tables.
#[derive(Clone, Copy)]
struct VersionSeen<'a> {
    side: Side,
    schema: &'a Schema,
}

/// A table as a statement finds it: the side of its version, and what the version has of it.
#[derive(Clone, Copy)]
pub struct FoundTable<'a> {
    pub side: Side,
    pub table: &'a Table,
}

/// A table that both versions have: what each has of it, and the lens between its shapes.
#[derive(Clone, Copy)]
pub struct SharedTable<'a> {
    pub old: &'a Table,
    pub new: &'a Table,
    pub lens: &'a Lens,
}

// Whether a path names this version so.
fn is_called(version: &Name, named: &Name) -> bool
    ensures { result ≡ bytes_eq named.now (spec.path_name version.now) }
{
    match named.as_slice().strip_prefix(b"public_") {
        Some(rest) => rest == version.as_slice(),
        None => false,
    }
}

fn newer_called<'a>(mode: &'a Mode, named: &Name) -> Option<VersionSeen<'a>>
    ensures { option_map plain.version result ≡ spec.newer_called mode.now named.now }
{
    match mode {
        Mode::Calm => None,
        Mode::Both { name, schema, .. } => {
            if is_called(name, named) {
                Some(VersionSeen {
                    side: Side::New,
                    schema,
                })
            } else {
                None
            }
        }
    }
}

fn version_called<'a>(s: &'a State, named: &Name) -> Option<VersionSeen<'a>>
    ensures { option_map plain.version result ≡ spec.version_called s.now named.now }
{
    if is_called(&s.version, named) {
        Some(VersionSeen {
            side: Side::Old,
            schema: &s.schema,
        })
    } else {
        newer_called(&s.mode, named)
    }
}

fn table_named<'a>(schema: &'a Schema, name: &Name) -> Option<&'a Table>
    ensures { option_copied result ≡ find (λ table. bytes_eq (name_of table) name.now) schema.now.tables }
{
    let tables = schema.tables.as_slice();
    tables
        .iter()
        .find(|table| table.0.as_slice() == name.as_slice())
}

fn table_in<'a>(version: VersionSeen<'a>, name: &Name) -> Option<FoundTable<'a>>
    ensures { option_map plain.found result ≡ spec.table_in name.now (plain.version version.entry) }
{
    match table_named(version.schema, name) {
        Some(table) => Some(FoundTable {
            side: version.side,
            table,
        }),
        None => None,
    }
}

fn table_through<'a>(s: &'a State, named: &Name, name: &Name) -> Option<FoundTable<'a>>
    ensures { option_map plain.found result ≡ spec.table_through s.now named.now name.now }
{
    match version_called(s, named) {
        Some(version) => table_in(version, name),
        None => None,
    }
}

/// The table of a name through a path.
pub fn table_of<'a>(s: &'a State, path: &[Name], name: &Name) -> Option<FoundTable<'a>>
    ensures { option_map plain.found result ≡ spec.table_of s.now path.now name.now }
{
    for named in path {
        if let Some(found) = table_through(s, named, name) {
            return Some(found);
        }
    }
    None
}

/// The table of a number in a version.
pub fn numbered(schema: &Schema, number: u32) -> Option<&Table>
    ensures { option_copied result ≡ table_numbered schema.now number }
{
    schema
        .tables
        .as_slice()
        .iter()
        .find(|table| table.1 == number)
}

/// The table of a number in the version of a side.
pub fn table_on(s: &State, side: Side, number: u32) -> Option<&Table>
    ensures { option_copied result ≡ spec.table_on s.now side number }
{
    match side {
        Side::Old => numbered(&s.schema, number),
        Side::New => match &s.mode {
            Mode::Calm => None,
            Mode::Both { schema, .. } => numbered(schema, number),
        },
    }
}

fn lens_in(fate: &Fate) -> Option<&Lens>
    ensures { option_copied result ≡ lens_in fate.now }
{
    match fate {
        Fate::Kept(lens) => Some(lens),
        Fate::Created | Fate::Dropped => None,
    }
}

fn fate_of(fates: &[(u32, Fate)], number: u32) -> Option<&(u32, Fate)>
    ensures { option_copied result ≡ find (λ fate. fate.0 == number) fates.now }
{
    fates.iter().find(|fate| fate.0 == number)
}

/// The lens of the table of a number, by its fate among these.
pub fn lens_among(fates: &[(u32, Fate)], number: u32) -> Option<&Lens>
    ensures { option_copied result ≡ spec.lens_among fates.now number }
{
    match fate_of(fates, number) {
        Some((_, fate)) => lens_in(fate),
        None => None,
    }
}

fn lens_between(s: &State, number: u32) -> Option<&Lens>
    ensures { option_copied result ≡ spec.lens_between s.now.mode number }
{
    match &s.mode {
        Mode::Calm => None,
        Mode::Both { fates, .. } => lens_among(fates.as_slice(), number),
    }
}

/// What both versions have of the table of a number, where they both have it.
pub fn shared(s: &State, number: u32) -> Option<SharedTable<'_>>
    ensures { option_map plain.pair result ≡ spec.shared s.now number }
{
    match (
        table_on(s, Side::Old, number),
        table_on(s, Side::New, number),
        lens_between(s, number),
    ) {
        (Some(old), Some(new), Some(lens)) => Some(SharedTable { old, new, lens }),
        _ => None,
    }
}

/// The rows of the table of a number.
pub fn rows_of(s: &State, number: u32) -> &[Kept]
    ensures { result.now ≡ spec.rows_of s.now number }
{
    for table in s.tables.as_slice() {
        if table.0 == number {
            return table.1.as_slice();
        }
    }
    &[]
}

/// What the other version has of a table that both have, seen from a side.
pub fn beside_on<'a>(side: Side, pair: SharedTable<'a>) -> BesideRef<'a>
    ensures { sites.beside_of result ≡ spec.beside_on side (plain.pair pair.entry) }
{
    match side {
        Side::Old => BesideRef {
            table: pair.new,
            lens: pair.lens,
        },
        Side::New => BesideRef {
            table: pair.old,
            lens: pair.lens,
        },
    }
}

fn lost_in(lost: &[(u32, u32)], number: u32) -> Option<&(u32, u32)>
    ensures { option_copied result ≡ find (λ lost. lost.0 == number) lost.now }
{
    lost.iter().find(|lost| lost.0 == number)
}

/// How many columns of the table of a number are lost with the version that is gone.
pub fn lost_columns_of(s: &State, number: u32) -> u32
    ensures { result ≡ spec.lost_columns_of s.now number }
{
    match lost_in(s.lost_columns.as_slice(), number) {
        Some(lost) => lost.1,
        None => 0,
    }
}

/// The site of a table that was found.
pub fn site_of<'a>(s: &'a State, found: FoundTable<'a>) -> SiteRef<'a>
    ensures { sites.site_of result ≡ spec.site_of s.now (plain.found found.entry) }
{
    let there = match shared(s, found.table.1) {
        Some(pair) => Some(beside_on(found.side, pair)),
        None => None,
    };
    SiteRef {
        side: found.side,
        here: found.table,
        there,
        lost: lost_columns_of(s, found.table.1) as u64,
    }
}

/// The site through which rows of a table that both versions have are filled: the new version's.
pub fn filling_site<'a>(s: &'a State, pair: SharedTable<'a>) -> SiteRef<'a>
    ensures { sites.site_of result ≡ spec.filling_site s.now (plain.pair pair.entry) }
{
    let found = FoundTable {
        side: Side::New,
        table: pair.new,
    };
    site_of(s, found)
}
