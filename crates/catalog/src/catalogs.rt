//! The catalog.
ghost use Rattle.std.specs.Prelude.{◌≡◌, true, IfOk};
ghost use Rattle.std.specs.Option.{option_copied};
ghost use Rattle.catalog.specs.Valid as validities;
ghost use Rattle.catalog.specs.Versions as versions;
ghost use Rattle.catalog.specs.Views as views;
ghost use Rattle.catalog.specs.Widths.{is_narrow};

use crate::finding::table_of;
use crate::validity::valid;
use crate::versions::{Known, View};
use crate::viewing::views_on;
use indexmap::IndexMap;
use mig_lens::Side;
use sql_base::{Name, NoMemory};
use std::alloc::Global;
use std::marker::Model;

/// An index of the versions that stand, their tables and the views of these. Contracts see it as what it was made of.
#[derive(Drop)]
pub struct Catalog {
    known: Known,
    old: IndexMap<u32, View>,
    new: IndexMap<u32, View>,
}

impl Model for Catalog {
    ghost use Rattle.std.specs.Coded.{codes};
    ghost use Rattle.std.specs.Prelude.{◌≡◌, ℕ, nat_eq};
    ghost use Rattle.indexmap.specs.IndexMap.{get};
    ghost use Rattle.sql_base.specs.contracts.exprs.Expr as expr;
    ghost use Rattle.mig_lens.specs.declared.columns.Side.TheVariants.{Old, New};
    ghost use Rattle.catalog.specs.declared.versions.Known.{Known};
    ghost use Rattle.catalog.specs.Views.{view_on};

    ghost Value = { Known };

    ghost coded = { Prim.hlevel (codes, expr.the_row.coded) };

    ghost view = { λ c. c.known };

    ghost invariant = { λ c.
        ((number : ℕ) → get nat_eq c.old number ≡ view_on c.known Old number)
        × ((number : ℕ) → get nat_eq c.new number ≡ view_on c.known New number) };
}

impl Catalog {
    /// The catalog of these versions, at their stage. No table of them has more than 32 columns (`Known::is_narrow`).
    /// An error is want of memory.
    pub fn new(alloc: Global, known: Known) -> Result<Catalog, NoMemory>
        requires { is_narrow known ≡ true }
        ensures { IfOk result (λ catalog. catalog ≡ known) }
    {
        let old = views_on(alloc, &known, Side::Old)?;
        let new = views_on(alloc, &known, Side::New)?;
        Ok(Catalog { known, old, new })
    }

    /// The table of a name in the first version of the path that stands and has it: the version's side, and the table's
    /// number. A path names a version by `public_` and the version's name.
    ///
    /// `None` where no version of the path that stands has the table. It takes no memory.
    pub fn resolve(&self, path: &[Name], table: &Name) -> Option<(Side, u32)>
        ensures { result ≡ versions.table_of self.now path.now table.now }
    {
        table_of(&self.known, path, table)
    }

    /// The view of a table, by its number, in the version of a side: the table's name there, and where each of its columns
    /// stands in a stored row at this stage.
    ///
    /// `None` where no version stands on the side, or it doesn't have the table. It takes no memory.
    pub fn view(&self, side: Side, table: u32) -> Option<&View>
        ensures { option_copied result ≡ views.view_on self.now side table }
    {
        match side {
            Side::Old => self.old.get(&table),
            Side::New => self.new.get(&table),
        }
    }

    /// Whether the constraint of a name is valid in the table of a number: whether all rows are known to meet it. It isn't
    /// exactly where the active migration made it in a table that both versions have and that gets no fill; the first step
    /// of completing looks at the rows.
    ///
    /// A name with `_pkey` behind the table's is that of the key's constraint. `None` where no version that stands has a
    /// constraint of this name in the table. It takes no memory.
    pub fn valid(&self, table: u32, constraint: &Name) -> Option<bool>
        ensures { result ≡ validities.valid self.now table constraint.now }
    {
        valid(&self.known, table, constraint)
    }
}
