//! Outcomes of evaluation as causes in a row, and calls for each element of a list.
ghost use Rattle.std.specs.Prelude.{◌≡◌, IfOk};
ghost use Rattle.sql_base.specs.declared.faults.EvalFault.TheVariants as EvalFault;
ghost use Rattle.row_rules.specs.Causes as causes;
ghost use Rattle.row_rules.specs.Inner as spec;

use crate::causes::{row_error, value_cause};
use crate::kinds::{Cause, Change, Kept, SqlError};
use crate::stops::Stop;
use sql_base::{EvalFault, List, NoMemory};
use std::alloc::Global;

/// What an evaluation over the row of this key came to, a fault as a cause in that row.
pub fn in_row<T: Drop>(
    alloc: Global,
    key: i64,
    outcome: Result<T, EvalFault>,
) -> Result<T, Stop<Cause>>
    ensures { spec.IsInRow key outcome result }
{
    match outcome {
        Ok(value) => Ok(value),
        Err(EvalFault::NoMemory) => Err(Stop::NoMemory),
        Err(fault) => Err(Stop::Because(value_cause(alloc, key, fault)?)),
    }
}

/// The same as why a statement is refused.
pub fn in_statement<T: Drop>(
    alloc: Global,
    key: i64,
    outcome: Result<T, EvalFault>,
) -> Result<T, Stop<SqlError>>
    ensures { spec.IsInStatement key outcome result }
{
    match outcome {
        Ok(value) => Ok(value),
        Err(EvalFault::NoMemory) => Err(Stop::NoMemory),
        Err(fault) => Err(Stop::Because(row_error(value_cause(alloc, key, fault)?))),
    }
}

/// The rows that the calls give for these elements, each as one that is put; or the first cause.
pub fn puts<A, F: Fn(&A) -> Result<Kept, Stop<Cause>>>(
    alloc: Global,
    xs: &[A],
    f: F,
) -> Result<List<Change>, Stop<Cause>>
    requires { F.IsAlwaysCallable f }
    ensures { spec.IsPuts F.Fn f xs.now result }
{
    let mut puts = List::new(alloc);
    for x in xs {
        match f(x) {
            Ok(row) => puts.push(Change::Put(row))?,
            Err(stop) => return Err(stop),
        }
    }
    Ok(puts)
}

/// The first that a call gives for one of these elements.
pub fn try_first<A, B: Drop, F: Fn(&A) -> Result<Option<B>, NoMemory>>(
    xs: &[A],
    f: F,
) -> Result<Option<B>, NoMemory>
    requires { F.IsAlwaysCallable f }
    ensures { IfOk result (λ found. spec.IsFirst F.Fn f xs.now found) }
{
    for x in xs {
        match f(x) {
            Ok(Some(found)) => return Ok(Some(found)),
            Ok(None) => {}
            Err(refused) => return Err(refused),
        }
    }
    Ok(None)
}
