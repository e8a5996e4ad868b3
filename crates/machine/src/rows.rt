//! The number of rows of a state, and a state with other rows.
ghost use Rattle.std.specs.Prelude.{◌≡◌, ◌^◌, ◌-◌, IfOk, min};
ghost use Rattle.machine.specs.State as spec;

use crate::states::State;
use row_rules::Kept;
use sql_base::{Copying, List, NoMemory};
use std::alloc::Global;

/// The most rows in all tables.
pub const MAX_ROWS: u64 = 262_144;

/// The number of rows in all tables, or the largest number where they are more.
pub fn row_count(s: &State) -> u64
    ensures { result ≡ min (spec.row_count s.now) (2 ^ 64 - 1) }
{
    let mut count: u64 = 0;
    for table in s.tables.as_slice() {
        count = count.saturating_add(table.1.len() as u64);
    }
    count
}

/// The same state with these rows in the table of a number.
pub fn with_rows(
    alloc: Global,
    s: &State,
    number: u32,
    rows: &List<Kept>,
) -> Result<State, NoMemory>
    ensures { IfOk result (λ t. t ≡ spec.with_rows s.now number rows.now) }
{
    let mut tables = List::new(alloc);
    for table in s.tables.as_slice() {
        if table.0 == number {
            tables.push((number, rows.copy(alloc)?))?;
        } else {
            tables.push(table.copy(alloc)?)?;
        }
    }
    Ok(State {
        version: s.version.copy(alloc)?,
        schema: s.schema.copy(alloc)?,
        mode: s.mode.copy(alloc)?,
        left: s.left,
        kind: s.kind,
        next_table: s.next_table,
        tables,
        lost_columns: s.lost_columns.copy(alloc)?,
    })
}
