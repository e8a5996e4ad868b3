//! Trees, built from parts and given up where they are deeper than 64.

ghost use Rattle.std.specs.Prelude.{◌≡◌, IfOk};
ghost use Rattle.sql_parse.specs.Machine as spec;
ghost use Rattle.sql_parse.specs.Building.{one_more, arm_of as spec_arm_of, an_arm_more};

use crate::machine::Part;
use sql_base::{Arm, BinOp, Expr, Func, List, NoMemory, Ty};
use sqlite_items::{Boxed, Items};
use std::alloc::Global;

/// The depth of the deepest tree that is built.
const MOST: u8 = 64;

/// NOT of a part. An error is want of memory, here and below.
pub fn negation(alloc: Global, part: Part) -> Result<Part, NoMemory>
    ensures { IfOk result (λ x. x ≡ spec.with_one 64 Expr.Not part) }
{
    match part {
        Part::Whole(a, depth) if depth < MOST => Ok(Part::Whole(
            Expr::Not(Boxed::new(alloc, a)?),
            depth + 1,
        )),
        _ => Ok(Part::Deep),
    }
}

/// The minus before a part.
pub fn negative(alloc: Global, part: Part) -> Result<Part, NoMemory>
    ensures { IfOk result (λ x. x ≡ spec.with_one 64 Expr.Neg part) }
{
    match part {
        Part::Whole(a, depth) if depth < MOST => Ok(Part::Whole(
            Expr::Neg(Boxed::new(alloc, a)?),
            depth + 1,
        )),
        _ => Ok(Part::Deep),
    }
}

/// IS NULL of a part.
pub fn null_test(alloc: Global, part: Part) -> Result<Part, NoMemory>
    ensures { IfOk result (λ x. x ≡ spec.with_one 64 Expr.IsNull part) }
{
    match part {
        Part::Whole(a, depth) if depth < MOST => Ok(Part::Whole(
            Expr::IsNull(Boxed::new(alloc, a)?),
            depth + 1,
        )),
        _ => Ok(Part::Deep),
    }
}

/// A part as a value of this type.
pub fn cast(alloc: Global, part: Part, to: Ty) -> Result<Part, NoMemory>
    ensures { IfOk result (λ x. x ≡ spec.with_one 64 (λ b. Expr.Cast b to) part) }
{
    match part {
        Part::Whole(a, depth) if depth < MOST => Ok(Part::Whole(
            Expr::Cast(Boxed::new(alloc, a)?, to),
            depth + 1,
        )),
        _ => Ok(Part::Deep),
    }
}

/// An operator between two parts.
pub fn binary(alloc: Global, op: BinOp, left: Part, right: Part) -> Result<Part, NoMemory>
    ensures { IfOk result (λ x. x ≡ spec.with_two 64 (Expr.Bin op) left right) }
{
    match (left, right) {
        (Part::Whole(a, d), Part::Whole(b, j)) if d.max(j) < MOST => {
            Ok(Part::Whole(
                Expr::Bin(op, Boxed::new(alloc, a)?, Boxed::new(alloc, b)?),
                d.max(j) + 1,
            ))
        }
        _ => Ok(Part::Deep),
    }
}

// Arguments, and one more.
fn with_argument(
    found: Option<(Items<Expr>, u8)>,
    part: Part,
) -> Result<Option<(Items<Expr>, u8)>, NoMemory>
    ensures { IfOk result (λ x. x ≡ one_more found part) }
{
    match (found, part) {
        (Some((mut args, depth)), Part::Whole(a, d)) => {
            args.push(a)?;
            Ok(Some((args, depth.max(d))))
        }
        _ => Ok(None),
    }
}

// The parts as arguments, with the depth of the deepest, if none was given up.
#[tactic(auto, using(crate::proofs::Grown::every_part_last))]
fn every_part(alloc: Global, parts: List<Part>) -> Result<Option<(Items<Expr>, u8)>, NoMemory>
    ensures { IfOk result (λ x. x ≡ spec.every_part parts) }
{
    let mut found = Some((Items::new(alloc), 0));
    for part in parts.into_vec() {
        found = with_argument(found, part)?;
    }
    Ok(found)
}

/// A function of these parts.
pub fn call_of(alloc: Global, func: Func, parts: List<Part>) -> Result<Part, NoMemory>
    ensures { IfOk result (λ x. x ≡ spec.call_of 64 func parts) }
{
    match every_part(alloc, parts)? {
        Some((args, depth)) if depth < MOST => Ok(Part::Whole(Expr::Call(func, args), depth + 1)),
        _ => Ok(Part::Deep),
    }
}

// Two parts as an arm, with the depth of the deeper.
fn arm_of(when: Part, gives: Part) -> Option<(Arm, u8)>
    ensures { result ≡ spec_arm_of when gives }
{
    match (when, gives) {
        (Part::Whole(when, d), Part::Whole(gives, j)) => Some((Arm { when, gives }, d.max(j))),
        _ => None,
    }
}

// Arms, and one more.
fn with_arm(
    found: Option<(Items<Arm>, u8)>,
    arm: Option<(Arm, u8)>,
) -> Result<Option<(Items<Arm>, u8)>, NoMemory>
    ensures { IfOk result (λ x. x ≡ an_arm_more found arm) }
{
    match (found, arm) {
        (Some((mut arms, depth)), Some((arm, d))) => {
            arms.push(arm)?;
            Ok(Some((arms, depth.max(d))))
        }
        _ => Ok(None),
    }
}

// The pairs of parts as arms, with the depth of the deepest, if none was given up.
#[tactic(auto, using(crate::proofs::Grown::every_arm_last))]
fn every_arm(alloc: Global, pairs: List<(Part, Part)>) -> Result<Option<(Items<Arm>, u8)>, NoMemory>
    ensures { IfOk result (λ x. x ≡ spec.every_arm pairs) }
{
    let mut found = Some((Items::new(alloc), 0));
    for (when, gives) in pairs.into_vec() {
        found = with_arm(found, arm_of(when, gives))?;
    }
    Ok(found)
}

// The arms and the branch of ELSE, with the depth of the deepest.
fn and_other(arms: Option<(Items<Arm>, u8)>, other: Part) -> Option<((Items<Arm>, Expr), u8)>
    ensures { result ≡ spec.and_other arms other }
{
    match (arms, other) {
        (Some((arms, depth)), Part::Whole(other, d)) => Some(((arms, other), depth.max(d))),
        _ => None,
    }
}

/// CASE with these arms and this branch of ELSE.
pub fn case_of(alloc: Global, pairs: List<(Part, Part)>, other: Part) -> Result<Part, NoMemory>
    ensures { IfOk result (λ x. x ≡ spec.case_of 64 pairs other) }
{
    match and_other(every_arm(alloc, pairs)?, other) {
        Some(((arms, other), depth)) if depth < MOST => Ok(Part::Whole(
            Expr::Case(arms, Boxed::new(alloc, other)?),
            depth + 1,
        )),
        _ => Ok(Part::Deep),
    }
}
