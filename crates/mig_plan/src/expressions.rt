//! The expressions of a migration, which are typed after all operations.

ghost use Rattle.std.specs.Prelude.{◌≡◌, map, IfOk};
ghost use Rattle.std.specs.Option.{option_copied};
ghost use Rattle.mig_lens.specs.Lens.{types_as};
ghost use Rattle.sql_eval.specs.Typing.{type_of};
ghost use Rattle.mig_plan.specs.Places as spec;

use crate::drafts::{DraftCheck, DraftColumn, DraftTable};
use crate::finishing::shape_of;
use crate::tables::shape_numbered;
use mig_lens::{Member, Place};
use sql_base::{Column, Expr, NoMemory, Schema, Shape, Ty, TypeFault, names_column};
use sql_eval::type_of;
use std::alloc::Global;

/// Whether the expression has this type over the shape, or that of NULL.
fn types_as(alloc: Global, expr: &Expr, shape: &Shape, ty: Ty) -> Result<bool, NoMemory>
    ensures { IfOk result (λ has. has ≡ types_as ty (type_of shape.now expr.now)) }
{
    match type_of(alloc, expr, shape) {
        Ok(None) => Ok(true),
        Ok(Some(found)) => Ok(found == ty),
        Err(TypeFault::NoMemory) => Err(NoMemory),
        Err(TypeFault::NoColumn(_)) | Err(TypeFault::Mismatch) => Ok(false),
    }
}

fn member_order(member: Member) -> u8
    ensures { result ≡ spec.member_order member }
{
    match member {
        Member::Up => 0,
        Member::Down => 1,
        Member::Check => 2,
        Member::Default => 3,
        Member::TypeName => 4,
    }
}

/// Whether the first place is not behind the second one.
fn is_first(p: Place, q: Place) -> bool
    ensures { result ≡ spec.is_first p q }
{
    p.operation < q.operation
        || (p.operation == q.operation && member_order(p.member) <= member_order(q.member))
}

fn earlier(p: Option<Place>, q: Option<Place>) -> Option<Place>
    ensures { result ≡ spec.earlier p q }
{
    match (p, q) {
        (Some(first), Some(second)) => if is_first(first, second) { p } else { q },
        (Some(_), None) => p,
        (None, _) => q,
    }
}

/// The place, where the expression doesn't have the wanted type over the shape.
fn bad(
    alloc: Global,
    over: &Shape,
    wanted: Ty,
    expr: &Expr,
    place: Place,
) -> Result<Option<Place>, NoMemory>
    ensures { IfOk result (λ bad. bad ≡ spec.bad over.now wanted expr.now place) }
{
    if types_as(alloc, expr, over, wanted)? {
        return Ok(None);
    }
    Ok(Some(place))
}

/// `up` or `down` of a column, over the other side's shape.
fn bad_way(
    alloc: Global,
    over: Option<&Shape>,
    member: Member,
    at: Option<u64>,
    column: &Option<Column>,
    expr: &Option<Expr>,
) -> Result<Option<Place>, NoMemory>
    ensures { IfOk result (λ bad. bad ≡ spec.bad_way (option_copied over.entry) member at column.now expr.now) }
{
    match (over, at, column, expr) {
        (Some(over), Some(operation), Some(column), Some(expr)) => {
            bad(alloc, over, column.ty, expr, Place { operation, member })
        }
        _ => Ok(None),
    }
}

fn bad_column(
    alloc: Global,
    old: Option<&Shape>,
    new: Option<&Shape>,
    column: &DraftColumn,
) -> Result<Option<Place>, NoMemory>
    ensures { IfOk result (λ bad. bad ≡ spec.bad_column (option_copied old.entry) (option_copied new.entry) column.now) }
{
    let after = &column.after;
    let up = bad_way(
        alloc,
        old,
        Member::Up,
        after.subject,
        &after.column,
        &after.up,
    )?;
    let down = bad_way(
        alloc,
        new,
        Member::Down,
        after.subject,
        &column.before,
        &after.down,
    )?;
    Ok(earlier(up, down))
}

fn bad_columns(
    alloc: Global,
    old: Option<&Shape>,
    new: Option<&Shape>,
    columns: &[DraftColumn],
) -> Result<Option<Place>, NoMemory>
    ensures { IfOk result (λ bad. bad ≡ spec.least (map (spec.bad_column (option_copied old.entry) (option_copied new.entry)) columns.now)) }
{
    let mut first = None;
    for column in columns {
        let bad = bad_column(alloc, old, new, column)?;
        first = earlier(first, bad);
    }
    Ok(first)
}

// ---- checks

fn is_retyped(before: &Option<Column>, now: &Column) -> bool
    ensures { result ≡ spec.is_retyped before.now now.now }
{
    match before {
        Some(column) => column.ty != now.ty,
        None => false,
    }
}

fn touched(
    expr: &Expr,
    made: bool,
    before: &Option<Column>,
    now: &Column,
    subject: Option<u64>,
) -> u64
    ensures { result ≡ spec.touched expr.now made before.now now.now subject }
{
    if names_column(expr, &now.name) && (made || is_retyped(before, now)) {
        subject.unwrap_or(0)
    } else {
        0
    }
}

fn touched_at(expr: &Expr, made: bool, column: &DraftColumn) -> u64
    ensures { result ≡ spec.touched_at expr.now made column.now }
{
    match &column.after.column {
        Some(now) => touched(expr, made, &column.before, now, column.after.subject),
        None => 0,
    }
}

/// The operation at which a check is typed.
fn check_place(columns: &[DraftColumn], check: &DraftCheck) -> u64
    ensures { result ≡ spec.check_place columns.now check.now }
{
    let mut place = check.made.unwrap_or(0);
    for column in columns {
        place = place.max(touched_at(&check.check.expr, check.made.is_some(), column));
    }
    place
}

fn bad_check(
    alloc: Global,
    new: Option<&Shape>,
    columns: &[DraftColumn],
    check: &DraftCheck,
) -> Result<Option<Place>, NoMemory>
    ensures { IfOk result (λ bad. bad ≡ spec.bad_check (option_copied new.entry) columns.now check.now) }
{
    match new {
        Some(over) => {
            let place = Place {
                operation: check_place(columns, check),
                member: Member::Check,
            };
            bad(alloc, over, Ty::Boolean, &check.check.expr, place)
        }
        None => Ok(None),
    }
}

fn bad_checks(
    alloc: Global,
    new: Option<&Shape>,
    columns: &[DraftColumn],
    checks: &[DraftCheck],
) -> Result<Option<Place>, NoMemory>
    ensures { IfOk result (λ bad. bad ≡ spec.least (map (spec.bad_check (option_copied new.entry) columns.now) checks.now)) }
{
    let mut first = None;
    for check in checks {
        let bad = bad_check(alloc, new, columns, check)?;
        first = earlier(first, bad);
    }
    Ok(first)
}

// ---- all of them

fn shape_now(alloc: Global, table: &DraftTable) -> Result<Option<Shape>, NoMemory>
    ensures { IfOk result (λ shape. shape ≡ spec.shape_now table.now) }
{
    match &table.name {
        Some(_) => Ok(Some(shape_of(alloc, table)?)),
        None => Ok(None),
    }
}

fn bad_in(
    alloc: Global,
    old: Option<&Shape>,
    new: Option<&Shape>,
    table: &DraftTable,
) -> Result<Option<Place>, NoMemory>
    ensures { IfOk result (λ bad. bad ≡ spec.bad_in (option_copied old.entry) (option_copied new.entry) table.now) }
{
    let columns = table.columns.as_slice();
    let ways = bad_columns(alloc, old, new, columns)?;
    let checks = bad_checks(alloc, new, columns, table.checks.as_slice())?;
    Ok(earlier(ways, checks))
}

fn bad_table(alloc: Global, old: &Schema, table: &DraftTable) -> Result<Option<Place>, NoMemory>
    ensures { IfOk result (λ bad. bad ≡ spec.bad_table old.now table.now) }
{
    let new = shape_now(alloc, table)?;
    bad_in(
        alloc,
        shape_numbered(old, table.number),
        new.as_ref(),
        table,
    )
}

/// The first place of an expression that doesn't type.
pub fn first_bad(
    alloc: Global,
    old: &Schema,
    tables: &[DraftTable],
) -> Result<Option<Place>, NoMemory>
    ensures { IfOk result (λ bad. bad ≡ spec.first_bad old.now tables.now) }
{
    let mut first = None;
    for table in tables {
        let bad = bad_table(alloc, old, table)?;
        first = earlier(first, bad);
    }
    Ok(first)
}
