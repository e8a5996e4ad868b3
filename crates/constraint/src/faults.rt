//! The first fault of a row.
ghost use Rattle.std.specs.Prelude.{◌≡◌, ◌<◌, ◌≤◌, IfOk, IfSome, length, map};
ghost use Rattle.std.specs.Option.{option_map};
ghost use Rattle.sql_base.specs.declared.faults.RowFault.TheVariants as RowFault;
ghost use Rattle.sql_eval.specs.Eval.{eval};
ghost use Rattle.sql_eval.specs.Row as spec;
ghost use Rattle.sql_eval.specs.Shape.{max_columns};

use sql_base::{Check, Column, EvalFault, NoMemory, RowFault, Shape, Value};
use sql_eval::eval;
use sql_eval::operate::{is_null, is_truth};
use std::alloc::Global;

/// The place of the first NULL in a NOT NULL column, from 0, by the columns' order.
pub fn null_at(columns: &[Column], row: &[Value]) -> Option<usize>
    ensures fault { option_map RowFault.Null result ≡ spec.null_fault 0 columns.now row.now }
    ensures within { IfSome result (λ at. at < length columns.now) }
{
    for (at, column) in columns.iter().enumerate() {
        match row.get(at) {
            Some(value) => {
                if !column.nullable && is_null(value) {
                    return Some(at);
                }
            }
            None => return None,
        }
    }
    None
}

// What the check at this place comes to over a row, where it isn't met.
fn broken(
    alloc: Global,
    shape: &Shape,
    row: &[Value],
    at: usize,
    check: &Check,
) -> Result<Option<RowFault>, NoMemory>
    ensures { IfOk result (λ fault. fault
        ≡ spec.broken at (eval shape.now row.now check.now.expr)) }
{
    match eval(alloc, &check.expr, shape, row) {
        Ok(value) => {
            if is_truth(false, &value) {
                Ok(Some(RowFault::Check(at as u64)))
            } else {
                Ok(None)
            }
        }
        Err(EvalFault::NoMemory) => Err(NoMemory),
        Err(fault) => Ok(Some(RowFault::Eval(at as u64, fault))),
    }
}

/// The first check that a row doesn't meet, by the checks' order. A check is met where it is true
/// or NULL: PostgreSQL manual, 5.4.1. An error is want of memory.
pub fn check_fault(
    alloc: Global,
    shape: &Shape,
    row: &[Value],
) -> Result<Option<RowFault>, NoMemory>
    ensures { IfOk result (λ fault. fault
        ≡ spec.check_fault 0 (map (λ check. eval shape.now row.now check.expr) shape.now.checks)) }
{
    for (at, check) in shape.checks.as_slice().iter().enumerate() {
        if let Some(fault) = broken(alloc, shape, row, at, check)? {
            return Ok(Some(fault));
        }
    }
    Ok(None)
}

/// What is wrong with a row, if anything: the first NULL in a NOT NULL column, else the first check
/// that it doesn't meet. (PostgreSQL manual, 5.4.1 and 5.4.2; that NOT NULL comes first is our
/// own.)
///
/// The shape has at most 32 columns, as each well-formed one has. An error is want of memory.
pub fn check_row(alloc: Global, shape: &Shape, row: &[Value]) -> Result<Option<RowFault>, NoMemory>
    requires { length shape.now.columns ≤ max_columns }
    ensures { IfOk result (λ fault. fault ≡ spec.row_fault shape.now row.now) }
{
    match null_at(shape.columns.as_slice(), row) {
        Some(at) => Ok(Some(RowFault::Null(at as u32))),
        None => check_fault(alloc, shape, row),
    }
}
