//! Where a statement's path finds a table.
ghost use Rattle.std.specs.Prelude.{◌≡◌, find};
ghost use Rattle.std.specs.Option.{option_copied, option_map};
ghost use Rattle.std.specs.Str.{bytes_eq};
ghost use Rattle.catalog.specs.Places as lent;
ghost use Rattle.catalog.specs.Versions as spec;

use crate::versions::{Known, Stage};
use mig_lens::Side;
use sql_base::{Name, Schema, Shape};

/// A version that stands: its side, and its tables.
#[derive(Clone, Copy)]
struct VersionRef<'a> {
    side: Side,
    schema: &'a Schema,
}

/// The tables of the version of a side; none where it doesn't stand.
pub(crate) fn tables_on(known: &Known, side: Side) -> &[(Name, u32, Shape)]
    ensures { result.now ≡ spec.tables_on known.now side }
{
    match side {
        Side::Old => known.schema.tables.as_slice(),
        Side::New => match &known.stage {
            Stage::Both { schema, .. } => schema.tables.as_slice(),
            Stage::Calm
            | Stage::AfterFirst { .. }
            | Stage::AfterSecond { .. }
            | Stage::RolledBack { .. } => &[],
        },
    }
}

/// Whether a path names a version of this name so.
fn is_called(version: &Name, named: &Name) -> bool
    ensures { result ≡ bytes_eq named.now (spec.path_name version.now) }
{
    match named.as_slice().strip_prefix(b"public_") {
        Some(rest) => rest == version.as_slice(),
        None => false,
    }
}

fn newer_called<'a>(stage: &'a Stage, named: &Name) -> Option<VersionRef<'a>>
    ensures { option_map lent.version result ≡ spec.newer_called stage.now named.now }
{
    match stage {
        Stage::Both { name, schema, .. } => {
            if is_called(name, named) {
                Some(VersionRef {
                    side: Side::New,
                    schema,
                })
            } else {
                None
            }
        }
        Stage::Calm
        | Stage::AfterFirst { .. }
        | Stage::AfterSecond { .. }
        | Stage::RolledBack { .. } => None,
    }
}

fn version_called<'a>(known: &'a Known, named: &Name) -> Option<VersionRef<'a>>
    ensures { option_map lent.version result ≡ spec.version_called known.now named.now }
{
    if is_called(&known.name, named) {
        Some(VersionRef {
            side: Side::Old,
            schema: &known.schema,
        })
    } else {
        newer_called(&known.stage, named)
    }
}

fn table_named<'a>(schema: &'a Schema, name: &Name) -> Option<&'a (Name, u32, Shape)>
    ensures { option_copied result ≡ find (λ table. bytes_eq table.0 name.now) schema.now.tables }
{
    let tables = schema.tables.as_slice();
    tables
        .iter()
        .find(|table| table.0.as_slice() == name.as_slice())
}

fn table_in(version: VersionRef<'_>, name: &Name) -> Option<(Side, u32)>
    ensures { result ≡ spec.table_in name.now (lent.version version.entry) }
{
    match table_named(version.schema, name) {
        Some(table) => Some((version.side, table.1)),
        None => None,
    }
}

fn table_through(known: &Known, named: &Name, name: &Name) -> Option<(Side, u32)>
    ensures { result ≡ spec.table_through known.now named.now name.now }
{
    match version_called(known, named) {
        Some(version) => table_in(version, name),
        None => None,
    }
}

/// The table of a name in the first version of the path that stands and has it.
pub(crate) fn table_of(known: &Known, path: &[Name], name: &Name) -> Option<(Side, u32)>
    ensures { result ≡ spec.table_of known.now path.now name.now }
{
    for named in path {
        if let Some(found) = table_through(known, named, name) {
            return Some(found);
        }
    }
    None
}
