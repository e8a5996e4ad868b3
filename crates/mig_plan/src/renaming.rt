//! An expression whose column has another name.

ghost use Rattle.std.specs.Prelude.{◌≡◌, IfOk};
ghost use Rattle.mig_plan.specs.Renaming as spec;

use sql_base::{Arm, Copying, Expr, Name, NoMemory};
use sqlite_items::{Boxed, Items};
use std::alloc::Global;

/// The expression with the second name for each column of the first one.
#[cycle(renamed)]
#[tactic(auto, unfolding(crate::specs::Renaming::renamed, crate::specs::Renaming::renamed_arm))]
pub fn renamed(alloc: Global, from: &Name, to: &Name, e: &Expr) -> Result<Expr, NoMemory>
    ensures { IfOk result (λ other. other ≡ spec.renamed from.now to.now e.now) }
{
    let other = match e {
        Expr::Lit(value) => Expr::Lit(value.copy(alloc)?),
        Expr::Col(name) => Expr::Col(column_renamed(alloc, from, to, name)?),
        Expr::Not(a) => Expr::Not(boxed_renamed(alloc, from, to, a)?),
        Expr::Neg(a) => Expr::Neg(boxed_renamed(alloc, from, to, a)?),
        Expr::IsNull(a) => Expr::IsNull(boxed_renamed(alloc, from, to, a)?),
        Expr::Bin(op, a, b) => Expr::Bin(
            *op,
            boxed_renamed(alloc, from, to, a)?,
            boxed_renamed(alloc, from, to, b)?,
        ),
        Expr::Cast(a, ty) => Expr::Cast(boxed_renamed(alloc, from, to, a)?, *ty),
        Expr::Case(arms, other) => Expr::Case(
            arms_renamed(alloc, from, to, arms)?,
            boxed_renamed(alloc, from, to, other)?,
        ),
        Expr::Call(func, args) => Expr::Call(*func, all_renamed(alloc, from, to, args)?),
    };
    Ok(other)
}

fn column_renamed(alloc: Global, from: &Name, to: &Name, name: &Name) -> Result<Name, NoMemory>
    ensures { IfOk result (λ other. other ≡ spec.name_renamed from.now to.now name.now) }
{
    if name.as_slice() == from.as_slice() {
        to.copy(alloc)
    } else {
        name.copy(alloc)
    }
}

#[cycle(renamed)]
#[tactic(auto, unfolding(crate::specs::Renaming::renamed, crate::specs::Renaming::renamed_arm))]
fn boxed_renamed(
    alloc: Global,
    from: &Name,
    to: &Name,
    e: &Boxed<Expr>,
) -> Result<Boxed<Expr>, NoMemory>
    ensures { IfOk result (λ other. other ≡ spec.renamed from.now to.now e.now) }
{
    Ok(Boxed::new(alloc, renamed(alloc, from, to, e.get())?)?)
}

#[cycle(renamed)]
#[tactic(auto, unfolding(crate::specs::Renaming::renamed, crate::specs::Renaming::renamed_arm))]
fn arm_renamed(alloc: Global, from: &Name, to: &Name, arm: &Arm) -> Result<Arm, NoMemory>
    ensures { IfOk result (λ other. other ≡ spec.renamed_arm from.now to.now arm.now) }
{
    Ok(Arm {
        when: renamed(alloc, from, to, &arm.when)?,
        gives: renamed(alloc, from, to, &arm.gives)?,
    })
}

#[cycle(renamed)]
#[tactic(auto, unfolding(crate::specs::Renaming::renamed, crate::specs::Renaming::renamed_arm))]
fn arms_renamed(
    alloc: Global,
    from: &Name,
    to: &Name,
    arms: &Items<Arm>,
) -> Result<Items<Arm>, NoMemory>
    ensures { IfOk result (λ others. others ≡ spec.arms_renamed from.now to.now arms.now) }
{
    let mut others = Items::new(alloc);
    for arm in arms.as_slice() {
        others.push(arm_renamed(alloc, from, to, arm)?)?;
    }
    Ok(others)
}

#[cycle(renamed)]
#[tactic(auto, unfolding(crate::specs::Renaming::renamed, crate::specs::Renaming::renamed_arm))]
fn all_renamed(
    alloc: Global,
    from: &Name,
    to: &Name,
    args: &Items<Expr>,
) -> Result<Items<Expr>, NoMemory>
    ensures { IfOk result (λ others. others ≡ spec.all_renamed from.now to.now args.now) }
{
    let mut others = Items::new(alloc);
    for e in args.as_slice() {
        others.push(renamed(alloc, from, to, e)?)?;
    }
    Ok(others)
}
