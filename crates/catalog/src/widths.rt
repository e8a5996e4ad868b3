//! How many columns the tables may have that a catalog is made of.
ghost use Rattle.std.specs.Prelude.{◌≡◌};
ghost use Rattle.std.specs.List.{list_all};
ghost use Rattle.catalog.specs.Widths as spec;

use crate::finding::tables_on;
use crate::pairs::lens_in;
use crate::versions::{Known, Stage};
use mig_lens::{Fate, Lens, Side};
use sql_base::{Name, Shape};

const MAX_COLUMNS: usize = 32;

fn fates_at(stage: &Stage) -> &[(u32, Fate)]
    ensures { result.now ≡ spec.fates_at stage.now }
{
    match stage {
        Stage::Calm => &[],
        Stage::Both { fates, .. }
        | Stage::AfterFirst { fates, .. }
        | Stage::AfterSecond { fates, .. }
        | Stage::RolledBack { fates, .. } => fates.as_slice(),
    }
}

fn lens_is_narrow(lens: &Lens) -> bool
    ensures { result ≡ spec.lens_is_narrow lens.now }
{
    lens.old_cols.len() <= MAX_COLUMNS && lens.new_cols.len() <= MAX_COLUMNS
}

fn fate_is_narrow(fate: &(u32, Fate)) -> bool
    ensures { result ≡ spec.fate_is_narrow fate.now }
{
    match lens_in(&fate.1) {
        Some(lens) => lens_is_narrow(lens),
        None => true,
    }
}

fn table_is_narrow(table: &(Name, u32, Shape)) -> bool
    ensures { result ≡ spec.table_is_narrow table.now }
{
    table.2.columns.len() <= MAX_COLUMNS
}

fn tables_are_narrow(tables: &[(Name, u32, Shape)]) -> bool
    ensures { result ≡ list_all spec.table_is_narrow tables.now }
{
    tables.iter().all(|table| table_is_narrow(table))
}

fn fates_are_narrow(fates: &[(u32, Fate)]) -> bool
    ensures { result ≡ list_all spec.fate_is_narrow fates.now }
{
    fates.iter().all(|fate| fate_is_narrow(fate))
}

impl Known {
    /// Whether no table of a version that stands has more than 32 columns, and no lens of the fates is over more.
    pub fn is_narrow(&self) -> bool
        ensures { result ≡ spec.is_narrow self.now }
    {
        tables_are_narrow(tables_on(self, Side::Old))
            && tables_are_narrow(tables_on(self, Side::New))
            && fates_are_narrow(fates_at(&self.stage))
    }
}
