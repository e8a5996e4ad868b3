//! The value of an expression over a row.

ghost use Rattle.std.specs.Prelude.{◌≡◌, IfOk};
ghost use Rattle.sql_base.specs.Outcome.{Gives};
ghost use Rattle.sql_eval.specs.Eval as spec;

use crate::cast::{called, cast};
use crate::operate::{applied, inverted, is_null, is_truth, negated, settles};
use sql_base::{Arm, BinOp, Copying, EvalFault, Expr, Func, List, Name, NoMemory, Shape, Value};
use std::alloc::Global;

/// Where the shape has the column of a name.
pub fn column_at(shape: &Shape, name: &Name) -> Option<usize>
    ensures { result ≡ spec.column_at shape.now name.now }
{
    shape
        .columns
        .as_slice()
        .iter()
        .position(|c| c.name.as_slice() == name.as_slice())
}

fn column_value(alloc: Global, shape: &Shape, row: &[Value], name: &Name) -> Result<Value, NoMemory>
    ensures { IfOk result (λ x. x ≡ spec.value_at row.now (spec.column_at shape.now name.now)) }
{
    match column_at(shape, name).and_then(|at| row.get(at)) {
        Some(value) => value.copy(alloc),
        None => Ok(Value::Null),
    }
}

/// What an expression comes to over a row of a shape: a value, or the first fault from left to right.
///
/// An error is `DivZero`, `Range`, `BadText` or `TooLong` exactly where the rules say so, and may be `NoMemory`
/// wherever memory was refused. A part of another type than its form asks, and a name that is no column's, count as
/// NULL; no expression that has a type has such parts.
#[cycle(eval)]
#[tactic(auto, unfolding(crate::specs::Eval::eval, crate::specs::Eval::eval_arm))]
pub fn eval(alloc: Global, e: &Expr, shape: &Shape, row: &[Value]) -> Result<Value, EvalFault>
    ensures { Gives EvalFault.NoMemory (spec.eval shape.now row.now e.now) result }
{
    match e {
        Expr::Lit(value) => Ok(value.copy(alloc)?),
        Expr::Col(name) => Ok(column_value(alloc, shape, row, name)?),
        Expr::Not(a) => Ok(inverted(&eval(alloc, a.get(), shape, row)?)),
        Expr::Neg(a) => negated(&eval(alloc, a.get(), shape, row)?),
        Expr::IsNull(a) => Ok(Value::Bool(is_null(&eval(alloc, a.get(), shape, row)?))),
        Expr::Bin(op, a, b) => {
            let left = eval(alloc, a.get(), shape, row)?;
            if settles(*op, &left) {
                return Ok(left);
            }
            let right = eval(alloc, b.get(), shape, row)?;
            applied(alloc, *op, &left, &right)
        }
        Expr::Cast(a, to) => cast(alloc, &eval(alloc, a.get(), shape, row)?, *to),
        Expr::Case(arms, other) => case(alloc, arms.as_slice(), other.get(), shape, row),
        Expr::Call(Func::Coalesce, args) => coalesce(alloc, args.as_slice(), shape, row),
        Expr::Call(func, args) => {
            let values = values_of(alloc, args.as_slice(), shape, row)?;
            called(alloc, *func, values.as_slice())
        }
    }
}

#[cycle(eval)]
#[tactic(auto, unfolding(crate::specs::Eval::eval, crate::specs::Eval::eval_arm))]
fn case(
    alloc: Global,
    arms: &[Arm],
    other: &Expr,
    shape: &Shape,
    row: &[Value],
) -> Result<Value, EvalFault>
    ensures { Gives EvalFault.NoMemory (spec.case_of shape.now row.now arms.now other.now) result }
{
    for arm in arms {
        if is_truth(true, &eval(alloc, &arm.when, shape, row)?) {
            return eval(alloc, &arm.gives, shape, row);
        }
    }
    eval(alloc, other, shape, row)
}

#[cycle(eval)]
#[tactic(auto, unfolding(crate::specs::Eval::eval, crate::specs::Eval::eval_arm))]
fn coalesce(alloc: Global, args: &[Expr], shape: &Shape, row: &[Value]) -> Result<Value, EvalFault>
    ensures { Gives EvalFault.NoMemory (spec.coalesce_of shape.now row.now args.now) result }
{
    for e in args {
        let value = eval(alloc, e, shape, row)?;
        if !is_null(&value) {
            return Ok(value);
        }
    }
    Ok(Value::Null)
}

#[cycle(eval)]
#[tactic(auto, unfolding(crate::specs::Eval::eval, crate::specs::Eval::eval_arm))]
fn values_of(
    alloc: Global,
    args: &[Expr],
    shape: &Shape,
    row: &[Value],
) -> Result<List<Value>, EvalFault>
    ensures { Gives EvalFault.NoMemory (spec.every_of shape.now row.now args.now) result }
{
    let mut values = List::new(alloc);
    for e in args {
        values.push(eval(alloc, e, shape, row)?)?;
    }
    Ok(values)
}
