//! The state that a run begins with.
ghost use Rattle.std.specs.Prelude.{◌≡◌, IfOk};
ghost use Rattle.machine.specs.State as spec;

use crate::states::{Mode, State};
use mig_lens::Kind;
use sql_base::{Column, List, Name, NoMemory, Schema, Shape, Ty, Value};
use std::alloc::Global;

// A column that may not be NULL and has no default.
fn needed_column(alloc: Global, name: &[u8], ty: Ty) -> Result<Column, NoMemory>
    ensures { IfOk result (λ column. column ≡ spec.needed_column name.now ty) }
{
    Ok(Column {
        name: Name::from_slice(alloc, name)?,
        ty,
        nullable: false,
        default: Value::Null,
    })
}

fn users(alloc: Global) -> Result<Shape, NoMemory>
    ensures { IfOk result (λ shape. shape ≡ spec.users) }
{
    let mut columns = List::new(alloc);
    columns.push(needed_column(alloc, b"id", Ty::Bigint)?)?;
    columns.push(needed_column(alloc, b"name", Ty::Text)?)?;
    Ok(Shape {
        columns,
        key: 0,
        checks: List::new(alloc),
        uniques: List::new(alloc),
    })
}

/// The version `01_users` with the one table `users`, of number 1, which has no row.
pub fn beginning(alloc: Global) -> Result<State, NoMemory>
    ensures { IfOk result (λ s. s ≡ spec.beginning) }
{
    let mut schema = List::new(alloc);
    schema.push((Name::from_slice(alloc, b"users")?, 1, users(alloc)?))?;
    let mut tables = List::new(alloc);
    tables.push((1, List::new(alloc)))?;
    Ok(State {
        version: Name::from_slice(alloc, b"01_users")?,
        schema: Schema { tables: schema },
        mode: Mode::Calm,
        left: 0,
        kind: Kind::Nothing,
        next_table: 2,
        tables,
        lost_columns: List::new(alloc),
    })
}
