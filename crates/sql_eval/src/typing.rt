//! The type of an expression over a shape.

ghost use Rattle.std.specs.Prelude.{◌≡◌, None, Ok, map};
ghost use Rattle.std.specs.Option.{option_copied};
ghost use Rattle.sql_base.specs.Outcome.{Gives};
ghost use Rattle.sql_eval.specs.Typing as spec;

use sql_base::{Arm, BinOp, Column, Copying, Expr, Func, List, Name, Shape, Ty, TypeFault, Value};
use std::alloc::Global;

/// The column of a name.
pub fn column_named<'a>(shape: &'a Shape, name: &Name) -> Option<&'a Column>
    ensures { option_copied result ≡ spec.column_named shape.now name.now }
{
    shape
        .columns
        .as_slice()
        .iter()
        .find(|c| c.name.as_slice() == name.as_slice())
}

fn fits(wanted: Ty, a: Option<Ty>) -> bool
    ensures { result ≡ spec.fits wanted a }
{
    match a {
        None => true,
        Some(t) => t == wanted,
    }
}

fn agreed(a: Option<Ty>, b: Option<Ty>) -> Result<Option<Ty>, TypeFault>
    ensures { result ≡ spec.agreed a b }
{
    match a {
        None => Ok(b),
        Some(t) => if fits(t, b) {
            Ok(a)
        } else {
            Err(TypeFault::Mismatch)
        },
    }
}

/// A form whose part has the type `wanted`, and which gives `gives`.
fn form(wanted: Ty, gives: Ty, a: Option<Ty>) -> Result<Option<Ty>, TypeFault>
    ensures { result ≡ spec.form wanted gives a }
{
    if fits(wanted, a) {
        Ok(Some(gives))
    } else {
        Err(TypeFault::Mismatch)
    }
}

fn form2(wanted: Ty, gives: Ty, a: Option<Ty>, b: Option<Ty>) -> Result<Option<Ty>, TypeFault>
    ensures { result ≡ spec.form2 wanted gives a b }
{
    form(wanted, gives, a)?;
    form(wanted, gives, b)
}

fn binary_type(op: BinOp, a: Option<Ty>, b: Option<Ty>) -> Result<Option<Ty>, TypeFault>
    ensures { result ≡ spec.binary_type op a b }
{
    match op {
        BinOp::Or | BinOp::And => form2(Ty::Boolean, Ty::Boolean, a, b),
        BinOp::Eq | BinOp::Ne | BinOp::Lt | BinOp::Le | BinOp::Gt | BinOp::Ge => {
            agreed(a, b)?;
            Ok(Some(Ty::Boolean))
        }
        BinOp::Concat => form2(Ty::Text, Ty::Text, a, b),
        BinOp::Add | BinOp::Sub | BinOp::Mul | BinOp::Div | BinOp::Rem => {
            form2(Ty::Bigint, Ty::Bigint, a, b)
        }
    }
}

fn casts(from: Option<Ty>, to: Ty) -> bool
    ensures { result ≡ spec.casts from to }
{
    match from {
        None | Some(Ty::Text) => true,
        Some(t) => to == t || to == Ty::Text,
    }
}

/// Parts of one type, and that type.
fn one_type(types: &[Option<Ty>]) -> Result<Option<Ty>, TypeFault>
    ensures { result ≡ spec.one_type None types.now }
{
    let mut so_far = None;
    for t in types {
        so_far = agreed(so_far, *t)?;
    }
    Ok(so_far)
}

/// CASE with arms of these types, each a condition's and a branch's, and an ELSE of this type.
fn case_type(arms: &[(Option<Ty>, Option<Ty>)], other: Option<Ty>) -> Result<Option<Ty>, TypeFault>
    ensures { result ≡ spec.case_type None arms.now other }
{
    let mut branches = None;
    for (test, branch) in arms {
        if !fits(Ty::Boolean, *test) {
            return Err(TypeFault::Mismatch);
        }
        branches = agreed(branches, *branch)?;
    }
    agreed(branches, other)
}

fn call_type(func: Func, args: &[Option<Ty>]) -> Result<Option<Ty>, TypeFault>
    ensures { result ≡ spec.call_type func args.now }
{
    match (func, args) {
        (Func::Coalesce, types) => one_type(types),
        (Func::Nullif, [a, b]) => agreed(*a, *b),
        (Func::Upper | Func::Lower | Func::Trim, [a]) => form(Ty::Text, Ty::Text, *a),
        (Func::Length, [a]) => form(Ty::Text, Ty::Bigint, *a),
        _ => Err(TypeFault::Mismatch),
    }
}

fn type_of_value(value: &Value) -> Option<Ty>
    ensures { result ≡ spec.type_of_value value.now }
{
    match value {
        Value::Null => None,
        Value::Int(_) => Some(Ty::Bigint),
        Value::Text(_) => Some(Ty::Text),
        Value::Bool(_) => Some(Ty::Boolean),
    }
}

/// The type of an expression over a shape, or its first fault; `None` is the type of NULL.
///
/// The parts of a form come before the form, in written order. An error is `NoColumn` where a name is no column's,
/// `Mismatch` where a part has another type than its form asks, and may be `NoMemory` wherever memory was refused.
#[cycle(type_of)]
#[tactic(auto, unfolding(crate::specs::Typing::type_of, crate::specs::Typing::types_of_arm))]
pub fn type_of(alloc: Global, e: &Expr, shape: &Shape) -> Result<Option<Ty>, TypeFault>
    ensures { Gives TypeFault.NoMemory (spec.type_of shape.now e.now) result }
{
    match e {
        Expr::Lit(value) => Ok(type_of_value(value)),
        Expr::Col(name) => match column_named(shape, name) {
            Some(column) => Ok(Some(column.ty)),
            None => Err(TypeFault::NoColumn(name.copy(alloc)?)),
        },
        Expr::Not(a) => form(Ty::Boolean, Ty::Boolean, type_of(alloc, a.get(), shape)?),
        Expr::Neg(a) => form(Ty::Bigint, Ty::Bigint, type_of(alloc, a.get(), shape)?),
        Expr::IsNull(a) => {
            type_of(alloc, a.get(), shape)?;
            Ok(Some(Ty::Boolean))
        }
        Expr::Bin(op, a, b) => {
            let left = type_of(alloc, a.get(), shape)?;
            let right = type_of(alloc, b.get(), shape)?;
            binary_type(*op, left, right)
        }
        Expr::Cast(a, to) => {
            if casts(type_of(alloc, a.get(), shape)?, *to) {
                Ok(Some(*to))
            } else {
                Err(TypeFault::Mismatch)
            }
        }
        Expr::Case(arms, other) => {
            let types = types_of_arms(alloc, arms.as_slice(), shape)?;
            case_type(types.as_slice(), type_of(alloc, other.get(), shape)?)
        }
        Expr::Call(func, args) => {
            let types = types_of(alloc, args.as_slice(), shape)?;
            call_type(*func, types.as_slice())
        }
    }
}

/// Of each arm, the type of its condition and that of its branch.
#[cycle(type_of)]
#[tactic(auto, unfolding(crate::specs::Typing::type_of, crate::specs::Typing::types_of_arm))]
fn types_of_arms(
    alloc: Global,
    arms: &[Arm],
    shape: &Shape,
) -> Result<List<(Option<Ty>, Option<Ty>)>, TypeFault>
    ensures { Gives TypeFault.NoMemory (spec.arms_of shape.now arms.now) result }
{
    let mut types = List::new(alloc);
    for arm in arms {
        let test = type_of(alloc, &arm.when, shape)?;
        let branch = type_of(alloc, &arm.gives, shape)?;
        types.push((test, branch))?;
    }
    Ok(types)
}

#[cycle(type_of)]
#[tactic(auto, unfolding(crate::specs::Typing::type_of, crate::specs::Typing::types_of_arm))]
fn types_of(alloc: Global, args: &[Expr], shape: &Shape) -> Result<List<Option<Ty>>, TypeFault>
    ensures { Gives TypeFault.NoMemory (spec.every_of shape.now args.now) result }
{
    let mut types = List::new(alloc);
    for e in args {
        types.push(type_of(alloc, e, shape)?)?;
    }
    Ok(types)
}
