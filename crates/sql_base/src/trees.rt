//! How deep a tree is, and which columns it names.

ghost use Rattle.std.specs.Prelude.{◌≡◌, ◌^◌, ◌-◌, min};
ghost use Rattle.sql_base.specs.Tree as spec;

use crate::exprs::{Arm, Expr};
use crate::texts::Name;

/// The height of the tree: a literal or a column has 1, and every other form one more than its deepest part.
///
/// Where that is above the largest `u64` it is the largest `u64`.
#[cycle(depth)]
#[tactic(auto, unfolding(crate::specs::Tree::depth, crate::specs::Tree::depth_of_arm))]
pub fn depth(e: &Expr) -> u64
    ensures { result ≡ min (spec.depth e.now) (2 ^ 64 - 1) }
{
    match e {
        Expr::Lit(_) | Expr::Col(_) => 1,
        Expr::Not(a) | Expr::Neg(a) | Expr::IsNull(a) => depth(a.get()).saturating_add(1),
        Expr::Bin(_, a, b) => depth(a.get()).max(depth(b.get())).saturating_add(1),
        Expr::Cast(a, _) => depth(a.get()).saturating_add(1),
        Expr::Case(arms, other) => {
            deepest_arm(arms.as_slice())
                .max(depth(other.get()))
                .saturating_add(1)
        }
        Expr::Call(_, args) => deepest_of(args.as_slice()).saturating_add(1),
    }
}

#[cycle(depth)]
#[tactic(auto, unfolding(crate::specs::Tree::depth, crate::specs::Tree::depth_of_arm))]
fn deepest_arm(arms: &[Arm]) -> u64
    ensures { result ≡ min (spec.deepest_arm arms.now) (2 ^ 64 - 1) }
{
    let mut deepest = 0;
    for arm in arms {
        deepest = deepest.max(depth(&arm.when)).max(depth(&arm.gives));
    }
    deepest
}

#[cycle(depth)]
#[tactic(auto, unfolding(crate::specs::Tree::depth, crate::specs::Tree::depth_of_arm))]
fn deepest_of(args: &[Expr]) -> u64
    ensures { result ≡ min (spec.deepest_of args.now) (2 ^ 64 - 1) }
{
    let mut deepest = 0;
    for e in args {
        deepest = deepest.max(depth(e));
    }
    deepest
}

/// Whether the expression names the column.
#[cycle(names)]
#[tactic(auto, unfolding(crate::specs::Tree::names_column, crate::specs::Tree::arm_names_column))]
pub fn names_column(e: &Expr, name: &Name) -> bool
    ensures { result ≡ spec.names_column name.now e.now }
{
    match e {
        Expr::Lit(_) => false,
        Expr::Col(other) => other.as_slice() == name.as_slice(),
        Expr::Not(a) | Expr::Neg(a) | Expr::IsNull(a) => names_column(a.get(), name),
        Expr::Bin(_, a, b) => names_column(a.get(), name) || names_column(b.get(), name),
        Expr::Cast(a, _) => names_column(a.get(), name),
        Expr::Case(arms, other) => {
            an_arm_names(arms.as_slice(), name) || names_column(other.get(), name)
        }
        Expr::Call(_, args) => one_names(args.as_slice(), name),
    }
}

#[cycle(names)]
#[tactic(auto, unfolding(crate::specs::Tree::names_column, crate::specs::Tree::arm_names_column))]
fn an_arm_names(arms: &[Arm], name: &Name) -> bool
    ensures { result ≡ spec.an_arm_names name.now arms.now }
{
    for arm in arms {
        if names_column(&arm.when, name) || names_column(&arm.gives, name) {
            return true;
        }
    }
    false
}

#[cycle(names)]
#[tactic(auto, unfolding(crate::specs::Tree::names_column, crate::specs::Tree::arm_names_column))]
fn one_names(args: &[Expr], name: &Name) -> bool
    ensures { result ≡ spec.one_names name.now args.now }
{
    for e in args {
        if names_column(e, name) {
            return true;
        }
    }
    false
}
