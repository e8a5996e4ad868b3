//! Statements.
ghost use Rattle.std.specs.Prelude.{◌≡◌, ◌<◌, Some, length, map, slice_get, true};
ghost use Rattle.std.specs.List.{list_any, AllByRecursion};
ghost use Rattle.std.specs.Option.{option_map};
ghost use Rattle.std.specs.Prelude.{nat_eq};
ghost use Rattle.row_rules.specs.Site as sites;
ghost use Rattle.machine.specs.Plain as plain;
ghost use Rattle.machine.specs.Statement as statement;
ghost use Rattle.roll_core.specs.Running as spec;
ghost use Rattle.roll_core.specs.Seen.{seen};

use crate::laws::laws_below;
use crate::reach::shown_reached;
use crate::store::StoredTable;
use crate::writing::written;
use machine::parts::{BegunRef, begun, error_reply};
use machine::{Reply, State};
use row_rules::{SiteRef, Stop};
use sql_base::{Expr, Items, Name, Stmt};
use std::alloc::Global;

/// The place of the table of a number, of which there is one.
pub fn place_of(tables: &[StoredTable], number: u32) -> usize
    requires { list_any (nat_eq number) (spec.numbers_in (map seen tables.now)) ≡ true }
    ensures within { result < length tables.now }
    ensures here { option_map (λ table. table.number) (slice_get tables.now result) ≡ Some number }
{
    for (at, table) in tables.iter().enumerate() {
        if table.number == number {
            return at;
        }
    }
    unreachable!()
}

// What a question shows, of the rows of the table at its place.
fn shown(
    alloc: Global,
    frame: &State,
    tables: &[StoredTable],
    site: SiteRef<'_>,
    items: &Items,
    condition: &Option<Expr>,
) -> Result<Reply, Stop<Reply>>
    requires runs { spec.Runs frame.now (map seen tables.now) }
    requires there { spec.IsSite frame.now (sites.site_of site) }
    ensures { spec.Comes frame.now (map seen tables.now) (statement.shown (spec.meant frame.now (map seen tables.now)) (sites.site_of site.entry) items.now condition.now) result (map seen tables.now) }
{
    laws_below();
    let at = place_of(tables, site.here.1);
    match shown_reached(alloc, &tables[at], site, items, condition) {
        Ok(rows) => Ok(Reply::Select(rows)),
        Err(Stop::Because(error)) => Err(Stop::Because(error_reply(error))),
        Err(Stop::NoMemory) => Err(Stop::NoMemory),
    }
}

/// What a statement comes to that is said through a path.
pub fn answer(
    alloc: Global,
    frame: &State,
    tables: &mut [StoredTable],
    path: &[Name],
    stmt: &Stmt,
) -> Result<Reply, Stop<Reply>>
    requires { spec.Runs frame.now (map seen tables.old) }
    ensures answers { spec.Comes frame.now (map seen tables.old) (statement.answer (spec.meant frame.now (map seen tables.old)) path.now stmt.now) result (map seen tables.new) }
    ensures forms { spec.SameForms (map seen tables.old) (map seen tables.new) }
    ensures stored { AllByRecursion spec.RowsStored (map seen tables.new) }
{
    laws_below();
    match begun(alloc, frame, path, stmt)? {
        BegunRef::Writes(site, job) => written(alloc, frame, tables, site, &job),
        BegunRef::Shows(site, items, condition) => {
            shown(alloc, frame, tables, site, items, condition)
        }
        BegunRef::Sets => Ok(Reply::Set),
    }
}
